//! Records of two kinds in one shard.
use super::*;
use sh_key::Tiny;
use sh_typed::Typed;
use sh_value::Hold;

// A record is stored as its kind, which is here its number of words, and its words. A view of another kind refuses it,
// and the hold is released.
#[test]
fn typed_records_live_in_a_shard(rt: HostRuntime) {
    let (heap, seats) = opened::<Tiny>(&rt, rt.alloc(), 1, 1, 1);
    let shard = owner(&rt, rt.alloc(), &heap, seats);
    let mut points = Typed::<_, (u64, u64)>::new(shard);
    agree(&rt, points.insert(&(5, 6)), Ok(4_096));
    let mut shard = points.into_store();
    let hold = shard.get(4_096).expect(&rt, "a hold");
    has_words(&rt, shard.read(hold), &[2, 5, 6]);
    done(&rt, shard.release(hold));
    let mut counts = Typed::<_, u64>::new(shard);
    agree(&rt, counts.get(4_096), Err(Refusal::WrongKind));
    agree(
        &rt,
        counts.release(Hold { key: 4_096 }),
        Err(Refusal::NotHeld),
    );
    let mut points = Typed::<_, (u64, u64)>::new(counts.into_store());
    agree(&rt, points.get(4_096), Ok((hold, (5, 6))));
    let _one = left(&rt, points.into_store());
}
