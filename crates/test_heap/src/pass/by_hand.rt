//! Steps by hand on keys that were never issued: what each returns, and that a pass comes back exactly if it has begun
//! nothing.
use super::*;
use sh_step::SlotName;

// The pass skips each of these steps.
fn skip_each(rt: &impl Abort, busy: &mut Busy<'_, Tiny>, actions: &[Action]) {
    for action in actions {
        agree(rt, busy.act(action), false);
    }
}

// The pass again, which has yet to leave its slot.
fn not_ended<'a>(rt: &impl Abort, busy: Busy<'a, Tiny>) -> Busy<'a, Tiny> {
    let Err(busy) = busy.end() else {
        panic!(rt; "a pass that has yet to leave its slot")
    };
    busy
}

// The pass again, which has begun nothing.
fn ended<'a>(rt: &impl Abort, busy: Busy<'a, Tiny>) -> Pass<'a, Tiny> {
    let Ok(pass) = busy.end() else {
        panic!(rt; "a pass that has begun nothing")
    };
    pass
}

// Enters for a removal, once, and marks nothing.
fn enter(rt: &impl Abort, busy: &mut Busy<'_, Tiny>) {
    agree(rt, busy.act(&Action::EnterRemove(0)), false);
    agree(rt, busy.act(&Action::EnterRemove(4096)), true);
    agree(rt, busy.act(&Action::EnterRemove(4096)), false);
    agree(rt, busy.act(&Action::Mark), false);
}

// Leaves the slot, once.
fn drop_once(rt: &impl Abort, busy: &mut Busy<'_, Tiny>) {
    agree(rt, busy.act(&Action::Drop), true);
    agree(rt, busy.act(&Action::Drop), false);
}

#[test]
fn a_removal_by_hand(rt: HostRuntime) {
    let (heap, seats) = opened::<Tiny>(&rt, rt.alloc(), 2);
    let mut busy = one_pass(&rt, rt.alloc(), &heap, seats).begin();
    enter(&rt, &mut busy);
    let mut busy = not_ended(&rt, busy);
    drop_once(&rt, &mut busy);
    let mut pass = ended(&rt, busy);
    agree(&rt, pass.get(4096), Err(Refusal::Gone));
}

#[test]
fn steps_that_no_pass_may_do(rt: HostRuntime) {
    let (heap, seats) = opened::<Tiny>(&rt, rt.alloc(), 2);
    let mut busy = one_pass(&rt, rt.alloc(), &heap, seats).begin();
    let slot = SlotName {
        shard: 0,
        page: 0,
        slot: 0,
    };
    let actions = [
        Action::EnterGet(0),
        Action::DropHold(4096),
        Action::PutSlot(slot),
        Action::Adopt(0),
        Action::Mark,
        Action::Drop,
        Action::Finish,
        Action::Put,
        Action::Tie,
        Action::Ring,
        Action::RingTie,
    ];
    skip_each(&rt, &mut busy, &actions);
    let _pass = ended(&rt, busy);
}
