//! Passes that do some of the steps of a removal one by one.
use super::agree;
use sh_key::KeyLayout;
use sh_pass::{Busy, Pass};
use sh_step::Action;
use std::process::Abort;

// The steps that remove a key whose slot is the first that is put on an armed page.
fn removing(key: u64) -> [Action; 8] {
    [
        Action::EnterRemove(key),
        Action::Mark,
        Action::Drop,
        Action::Finish,
        Action::Put,
        Action::Tie,
        Action::Ring,
        Action::RingTie,
    ]
}

// The pass, whose steps are done.
pub(super) fn ended<'a, L: KeyLayout>(rt: &impl Abort, busy: Busy<'a, L>) -> Pass<'a, L> {
    let Ok(pass) = busy.end() else {
        panic!(rt; "its steps are not done")
    };
    pass
}

// The pass does these steps, none of which is skipped.
pub(super) fn act_each<L: KeyLayout>(rt: &impl Abort, busy: &mut Busy<'_, L>, actions: &[Action]) {
    for action in actions {
        agree(rt, busy.act(action), true);
    }
}

// The pass, after it did the first steps, this many.
pub(super) fn stopped_at<'a, L: KeyLayout>(
    rt: &impl Abort,
    pass: Pass<'a, L>,
    key: u64,
    steps: usize,
) -> Busy<'a, L> {
    let mut busy = pass.begin();
    for action in removing(key).iter().take(steps) {
        agree(rt, busy.act(action), true);
    }
    busy
}
