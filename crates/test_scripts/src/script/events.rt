use crate::assertions::holds;
use sh_script::parse_events;
use sh_step::{Action, Event, PageName, SlotName};
use sh_value::Value;

pub(super) fn is_event(line: &Event, pass: u32, action: &Action) -> bool {
    line.pass == pass && line.action == *action
}

const PAGE: PageName = PageName { shard: 1, page: 2 };

const SLOT: SlotName = SlotName {
    shard: 1,
    page: 2,
    slot: 47,
};

const EACH: &[u8] = b"heap tiny 1 1 2\n\
    0 Enter get 4096\n1 Enter remove 18446744073709551615\n0 Mark\n0 Drop\n0 Drop 4096\n0 Finish\n\
    0 Fill 1.2.47 5 6\n0 Fill\n0 Publish\n0 Read 4096 0\n0 Read 4096 1\n0 Read 4096 2\n0 Read 4096 17\n\
    0 Read 1.2\n0 SetClass 1.2 7\n0 Take 1.2\n0 Follow 1.2\n0 Put\n0 Put 1.2.47\n0 Tie\n0 Adopt 3\n\
    0 Leave\n0 Arm 1.2\n0 Ring\n0 RingTie\n0 TakeBell\n0 FollowBell\n0 Fill 1.2.47\n";

#[test]
fn each_event(rt: HostRuntime) {
    let events = parse_events(rt.alloc(), EACH).expect(&rt, "it is a script");
    let some = Value::new(&[5, 6]).expect(&rt, "two words fit");
    let none = Value::new(&[]).expect(&rt, "no word fits");
    let actions = [
        Action::EnterGet(4096),
        Action::EnterRemove(18446744073709551615),
        Action::Mark,
        Action::Drop,
        Action::DropHold(4096),
        Action::Finish,
        Action::FillSlot(SLOT, some),
        Action::Fill,
        Action::Publish,
        Action::ReadClass(4096),
        Action::ReadLength(4096),
        Action::ReadWord(4096, 0),
        Action::ReadWord(4096, 15),
        Action::ReadPage(PAGE),
        Action::SetClass(PAGE, 7),
        Action::Take(PAGE),
        Action::Follow(PAGE),
        Action::Put,
        Action::PutSlot(SLOT),
        Action::Tie,
        Action::Adopt(3),
        Action::Leave,
        Action::Arm(PAGE),
        Action::Ring,
        Action::RingTie,
        Action::TakeBell,
        Action::FollowBell,
        Action::FillSlot(SLOT, none),
    ];
    assert_eq!(rt; events.lines.len(), actions.len());
    for i in 0..actions.len() {
        let pass = if i == 1 { 1 } else { 0 };
        holds(&rt, is_event(&events.lines[i], pass, &actions[i]));
    }
}

// Keys are as they are written, even if the header has a tag.
#[test]
fn keys_keep_their_tags(rt: HostRuntime) {
    let text =
        b"version 2\nheap tagged 1 1 1 tag 5\n; a comment\n\n 0  Enter get  360287970190688256 \n";
    let events = parse_events(rt.alloc(), text).expect(&rt, "it is a script");
    assert_eq!(rt; events.lines.len(), 1);
    holds(
        &rt,
        is_event(&events.lines[0], 0, &Action::EnterGet(360287970190688256)),
    );
}
