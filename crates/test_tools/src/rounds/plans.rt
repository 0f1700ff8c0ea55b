//! Tests of plans: which layout a round has, and how large a heap that grows may be.
use crate::assertions::{agree, holds};
use tool_judge::dice::Dice;
use tool_rounds::options::Options;
use tool_rounds::plan::{LAYOUT_NAMES, Layout, Plan, layout_named, plan_of};

// The plan of this round, if each round has this layout, or each layout comes in turn.
fn plan(layout: Option<Layout>, round: u64, dice: &mut Dice) -> Plan {
    let options = Options {
        threads: 4,
        passes: 2,
        steps: 100,
        rounds: 8,
        seed: 1,
        layout,
        record: None,
    };
    plan_of(&options, round, dice)
}

#[test]
fn each_layout_has_its_turn(rt: HostRuntime) {
    let mut dice = Dice::new(1);
    let wanted = [
        Layout::Tiny,
        Layout::Wide,
        Layout::Tiny,
        Layout::Deep,
        Layout::Tiny,
        Layout::Tagged,
        Layout::Tiny,
        Layout::Growing,
    ];
    for (round, layout) in wanted.iter().enumerate() {
        agree(&rt, plan(None, round as u64, &mut dice).layout, *layout);
    }
}

#[test]
fn one_layout_can_be_asked_for(rt: HostRuntime) {
    let mut dice = Dice::new(1);
    for name in LAYOUT_NAMES {
        let layout = layout_named(*name);
        holds(&rt, layout.is_some());
        for round in 0..8u64 {
            agree(&rt, Some(plan(layout, round, &mut dice).layout), layout);
        }
    }
    agree(&rt, layout_named("wider"), None);
}

// The first chunk has one or two shards of one segment. 2 to 5 chunks have at most 2 + 1 + 1 + 2 + 2 shards.
#[test]
fn a_heap_that_grows_begins_small(rt: HostRuntime) {
    let mut dice = Dice::new(1);
    let (mut least, mut most) = (u32::MAX, 0u32);
    for round in 0..200u64 {
        let plan = plan(Some(Layout::Growing), round, &mut dice);
        holds(
            &rt,
            1 <= plan.shards && plan.shards <= 2 && plan.segments == 1,
        );
        least = least.min(plan.chunks);
        most = most.max(plan.chunks);
    }
    agree(&rt, (least, most), (2, 5));
}
