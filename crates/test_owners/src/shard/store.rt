//! A shard in the place of any store.
use super::*;
use sh_key::Tiny;
use sh_plain::Store;

// What any store does.
fn store_and_remove<S: Store>(rt: &impl Abort, store: &mut S, value: &Value) {
    let key = match store.insert(value) {
        Err(Refusal::Memory) => store.insert(value),
        answer => answer,
    };
    let key = key.expect(rt, "a key");
    let hold = store.get(key).expect(rt, "a hold");
    has_words(rt, store.read(hold), value.words());
    done(rt, store.remove(key));
    agree(rt, store.get(key), Err(Refusal::Gone));
    done(rt, store.release(hold));
    agree(rt, store.release(hold), Err(Refusal::NotHeld));
}

#[test]
fn a_shard_is_a_store(rt: HostRuntime) {
    let (heap, seats) = opened::<Tiny>(&rt, rt.alloc(), 1, 1, 1);
    let mut shard = owner(&rt, rt.alloc(), &heap, seats);
    store_and_remove(&rt, &mut shard, &value(&rt, &[1, 5, 6]));
}
