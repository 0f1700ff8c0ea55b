//! Which line a pass does next.
ghost use Rattle.std.specs.Prelude.{MatchOption};
ghost use Rattle.sh_step.specs.Plans.{plan_of};
ghost use Rattle.script_orders.specs.Reached.{IsNext, HasNoNext};

use sh_core::World;
use sh_key::KeyLayout;
use sh_step::{Event, enabled};

/// The number of the line that the pass does next: the first of its lines from `behind` on whose condition holds. No
/// step of another pass changes which one that is.
pub fn next_line<L: KeyLayout>(
    world: &World<L>,
    lines: &[Event],
    pass: u32,
    behind: usize,
) -> Option<usize>
    ensures { MatchOption result
        (HasNoNext (plan_of L.layout world.now.shape) world.now.parts lines.now pass behind)
        (IsNext (plan_of L.layout world.now.shape) world.now.parts lines.now pass behind) }
{
    let shape = world.shape();
    let part = world.parts().get(pass as usize)?;
    for number in behind..lines.len() {
        let event = &lines[number];
        if event.pass == pass && enabled::<L>(&shape, part, &event.action) {
            return Some(number);
        }
    }
    None
}
