//! Tests of the plain store: worked calls, and refused memory.
ghost use Rattle.std.specs.Prelude.{◌≡◌};

use crate::assertions::agree;
use sh_key::{Tiny, Wide};
use sh_plain::{Lookup, PlainStore, Store};
use sh_value::{Hold, Refusal, Value};
use std::process::Abort;
use std::test::Fail;

pub(crate) fn value(words: &[u64], rt: &impl Abort) -> Value {
    Value::new(words).expect(rt, "few words")
}

#[test]
fn gives_each_key_once(rt: HostRuntime) -> Result<(), Fail> {
    let mut store = PlainStore::<Tiny>::new(rt.alloc(), 2);
    let empty = value(&[], &rt);
    for n in 0..12288 {
        agree(&rt, store.insert(&empty), Ok(4096 + n));
    }
    agree(&rt, store.insert(&empty), Err(Refusal::Full));
    let hold = store.get(16383).expect(&rt, "it was inserted");
    agree(
        &rt,
        store.read(hold).expect(&rt, "it is held").words().len(),
        0,
    );
    Ok(())
}

// The entries and the index behind them grow with each call.
#[test]
fn many_entries_are_kept(rt: HostRuntime) -> Result<(), Fail> {
    let mut store = PlainStore::<Wide>::new(rt.alloc(), 1);
    let word = value(&[7], &rt);
    for key in 16_777_216..16_847_216u64 {
        agree(&rt, store.insert(&word), Ok(key));
        agree(&rt, store.remove(key), Ok(()));
    }
    agree(&rt, store.get(16_777_216), Err(Refusal::Gone));
    agree(&rt, store.get(16_847_215), Err(Refusal::Gone));
    agree(&rt, store.insert(&word), Ok(16_847_216));
    agree(&rt, store.get(16_847_216), Ok(Hold { key: 16_847_216 }));
    Ok(())
}

#[test]
fn removed_values_stay_while_they_are_held(rt: HostRuntime) -> Result<(), Fail> {
    let mut store = PlainStore::<Tiny>::new(rt.alloc(), 2);
    agree(&rt, store.insert(&value(&[7, 8], &rt)), Ok(4096));
    store.turn(1);
    let hold = store.get(4096).expect(&rt, "it was inserted");
    store.turn(0);
    agree(&rt, store.read(hold), Err(Refusal::NotHeld));
    agree(&rt, store.remove(4096), Ok(()));
    agree(&rt, store.remove(4096), Err(Refusal::Gone));
    store.turn(1);
    agree(&rt, store.read(hold), Ok(value(&[7, 8], &rt)));
    agree(&rt, store.get(4096), Err(Refusal::Gone));
    agree(&rt, store.release(hold), Ok(()));
    agree(&rt, store.release(hold), Err(Refusal::NotHeld));
    Ok(())
}

#[test]
fn a_fifth_hold_on_a_tiny_key_is_crowded(rt: HostRuntime) -> Result<(), Fail> {
    let mut store = PlainStore::<Tiny>::new(rt.alloc(), 1);
    agree(&rt, store.insert(&value(&[1], &rt)), Ok(4096));
    let hold = Hold { key: 4096 };
    for _ in 0..4 {
        agree(&rt, store.get(4096), Ok(hold));
    }
    agree(&rt, store.get(4096), Err(Refusal::Crowded));
    for _ in 0..4 {
        agree(&rt, store.release(hold), Ok(()));
    }
    agree(&rt, store.release(hold), Err(Refusal::NotHeld));
    Ok(())
}

#[test]
fn forged_keys_are_refused(rt: HostRuntime) -> Result<(), Fail> {
    let mut store = PlainStore::<Tiny>::new(rt.alloc(), 1);
    for key in [0, 4095, 16384, 9223372036854775808] {
        agree(&rt, (key, store.get(key)), (key, Err(Refusal::BadKey)));
        agree(&rt, (key, store.remove(key)), (key, Err(Refusal::BadKey)));
    }
    agree(&rt, store.get(4096), Err(Refusal::Gone));
    agree(&rt, store.remove(12288), Err(Refusal::Gone));
    Ok(())
}

// A get, once more if memory was refused: then the pass holds what it held before.
fn get_once_more(store: &mut PlainStore<Tiny>, key: u64, rt: &impl Abort) -> Result<Hold, Refusal> {
    let before = store.read(Hold { key });
    match store.get(key) {
        Err(Refusal::Memory) => {
            agree(rt, store.read(Hold { key }), before);
            store.get(key)
        }
        answer => answer,
    }
}

// A remove, once more if memory was refused: then the pass holds what it held before.
fn remove_once_more(store: &mut PlainStore<Tiny>, key: u64, rt: &impl Abort) -> Result<(), Refusal>
    ensures { store.new.passes ≡ store.old.passes }
{
    let before = store.read(Hold { key });
    match store.remove(key) {
        Err(Refusal::Memory) => {
            agree(rt, store.read(Hold { key }), before);
            store.remove(key)
        }
        answer => answer,
    }
}

// An insert, once more if memory was refused: then the key is not used up, and is still not issued.
fn insert_with_memory(
    store: &mut PlainStore<Tiny>,
    key: u64,
    value: &Value,
    rt: &impl Abort,
) -> Result<u64, Refusal>
    ensures { store.new.passes ≡ store.old.passes }
{
    match store.insert(value) {
        Err(Refusal::Memory) => {
            agree(rt, store.get(key), Err(Refusal::Gone));
            store.insert(value)
        }
        answer => answer,
    }
}

// A get by a pass with no hold on the key, once more if memory was refused: then the pass still has none.
fn get_with_memory(store: &mut PlainStore<Tiny>, key: u64, rt: &impl Abort) -> Result<Hold, Refusal>
    ensures { store.new.passes ≡ store.old.passes }
{
    match store.get(key) {
        Err(Refusal::Memory) => {
            agree(rt, store.read(Hold { key }), Err(Refusal::NotHeld));
            agree(rt, store.release(Hold { key }), Err(Refusal::NotHeld));
            store.get(key)
        }
        answer => answer,
    }
}

// A remove, once more if memory was refused: then the key is still present.
fn remove_with_memory(
    store: &mut PlainStore<Tiny>,
    key: u64,
    rt: &impl Abort,
) -> Result<(), Refusal> {
    match store.remove(key) {
        Err(Refusal::Memory) => {
            agree(rt, store.get(key), Ok(Hold { key }));
            agree(rt, store.release(Hold { key }), Ok(()));
            store.remove(key)
        }
        answer => answer,
    }
}

// A release, once more if memory was refused: then the hold still reads the value.
fn release_with_memory(
    store: &mut PlainStore<Tiny>,
    hold: Hold,
    value: &Value,
    rt: &impl Abort,
) -> Result<(), Refusal> {
    match store.release(hold) {
        Err(Refusal::Memory) => {
            agree(rt, store.read(hold), Ok(value.copy()));
            store.release(hold)
        }
        answer => answer,
    }
}

// Each key's four calls add one entry each, so the entries grow in the same call for each key. The entries before them
// decide in which call. A list's room is 4, 8, 16, 32 and 64, so with 17 keys the test outgrows each of these.
#[test]
fn a_call_refused_for_memory_changes_nothing(rt: HostRuntime) -> Result<(), Fail> {
    let words = value(&[7, 8], &rt);
    for before in 0..4 {
        let mut store = PlainStore::<Tiny>::new(rt.alloc(), 1);
        for _ in 0..before {
            agree(
                &rt,
                get_once_more(&mut store, 4096, &rt),
                Err(Refusal::Gone),
            );
        }
        for key in 4096..4113 {
            let hold = Hold { key };
            agree(
                &rt,
                insert_with_memory(&mut store, key, &words, &rt),
                Ok(key),
            );
            agree(&rt, get_with_memory(&mut store, key, &rt), Ok(hold));
            agree(&rt, store.read(hold), Ok(words.copy()));
            agree(&rt, remove_with_memory(&mut store, key, &rt), Ok(()));
            agree(
                &rt,
                release_with_memory(&mut store, hold, &words, &rt),
                Ok(()),
            );
            agree(&rt, store.release(hold), Err(Refusal::NotHeld));
        }
        agree(
            &rt,
            get_once_more(&mut store, 4096, &rt),
            Err(Refusal::Gone),
        );
        agree(
            &rt,
            insert_with_memory(&mut store, 4113, &words, &rt),
            Ok(4113),
        );
    }
    Ok(())
}

// Two passes hold each key, so the holds outgrow a room of 4, 8 and 16, both when the entries have room and when they
// have none.
#[test]
fn a_hold_refused_for_memory_is_not_taken(rt: HostRuntime) -> Result<(), Fail> {
    let words = value(&[9], &rt);
    for before in 0..4 {
        let mut store = PlainStore::<Tiny>::new(rt.alloc(), 2);
        for _ in 0..before {
            agree(
                &rt,
                remove_once_more(&mut store, 4096, &rt),
                Err(Refusal::Gone),
            );
        }
        for key in 4096..4105 {
            agree(
                &rt,
                insert_with_memory(&mut store, key, &words, &rt),
                Ok(key),
            );
        }
        for pass in 0..2 {
            store.turn(pass);
            for key in 4096..4105 {
                let hold = Hold { key };
                agree(&rt, get_with_memory(&mut store, key, &rt), Ok(hold));
                agree(&rt, store.read(hold), Ok(words.copy()));
            }
        }
        for key in 4096..4105 {
            let hold = Hold { key };
            agree(
                &rt,
                release_with_memory(&mut store, hold, &words, &rt),
                Ok(()),
            );
            agree(&rt, store.read(hold), Err(Refusal::NotHeld));
        }
    }
    Ok(())
}

// A call that adds an entry with its refusal is refused in the same way once there is memory.
#[test]
fn a_refusal_refused_for_memory_is_answered_after_it(rt: HostRuntime) -> Result<(), Fail> {
    let words = value(&[1], &rt);
    let mut store = PlainStore::<Tiny>::new(rt.alloc(), 1);
    agree(
        &rt,
        insert_with_memory(&mut store, 4096, &words, &rt),
        Ok(4096),
    );
    for _ in 0..4 {
        agree(
            &rt,
            get_once_more(&mut store, 4096, &rt),
            Ok(Hold { key: 4096 }),
        );
    }
    for _ in 0..30 {
        agree(
            &rt,
            get_once_more(&mut store, 4096, &rt),
            Err(Refusal::Crowded),
        );
        agree(
            &rt,
            get_once_more(&mut store, 4097, &rt),
            Err(Refusal::Gone),
        );
        agree(
            &rt,
            remove_once_more(&mut store, 4097, &rt),
            Err(Refusal::Gone),
        );
    }
    let hold = Hold { key: 4096 };
    for _ in 0..4 {
        agree(
            &rt,
            release_with_memory(&mut store, hold, &words, &rt),
            Ok(()),
        );
    }
    agree(&rt, store.release(hold), Err(Refusal::NotHeld));
    Ok(())
}
