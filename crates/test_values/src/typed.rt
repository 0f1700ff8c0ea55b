//! Tests of records in a store: their kinds, and what the store itself refuses.
ghost use Rattle.std.specs.Prelude.{length, ◌==◌, get_or, [], ◌∷◌, Some, None, if◌then◌else◌};

mod lender;

use crate::assertions::agree;
use crate::plain::value;
use lender::{LENT_KEY, Lender, Stage};
use sh_key::Tiny;
use sh_plain::{Lookup, PlainStore, Store};
use sh_typed::Typed;
use sh_value::{Hold, Record, Refusal, Value};
use std::alloc::Global;
use std::process::Abort;
use std::test::Fail;

// A record of kind 1 with two words.
#[derive(Clone, Copy, Debug, PartialEq, Eq)]
struct Point {
    x: u64,
    y: u64,
}

impl Record for Point {
    const KIND: u64 = 1;

    ghost KIND = { 1 };

    ghost words = { λ p. p.x ∷ p.y ∷ [] };

    ghost record_of = { λ ws. if length ws == 2 then Some (record { x = get_or ws 0 0; y = get_or ws 1 0 }) else None };

    fn encode(&self) -> Value {
        match Value::new(&[self.x, self.y]) {
            Ok(value) => value,
            Err(_) => unreachable!(),
        }
    }

    fn decode(value: &Value) -> Option<Self> {
        match value.words() {
            [x, y] => Some(Point { x: *x, y: *y }),
            _ => None,
        }
    }
}

// A record of kind 2 with one word.
#[derive(Clone, Copy, Debug, PartialEq, Eq)]
struct Count {
    count: u64,
}

impl Record for Count {
    const KIND: u64 = 2;

    ghost KIND = { 2 };

    ghost words = { λ c. c.count ∷ [] };

    ghost record_of = { λ ws. if length ws == 1 then Some (record { count = get_or ws 0 0 }) else None };

    fn encode(&self) -> Value {
        match Value::new(&[self.count]) {
            Ok(value) => value,
            Err(_) => unreachable!(),
        }
    }

    fn decode(value: &Value) -> Option<Self> {
        match value.words() {
            [count] => Some(Count { count: *count }),
            _ => None,
        }
    }
}

// A store with the value `1 5 6`, stored as a record under 4096.
fn store_with_a_point(alloc: Global, rt: &impl Abort) -> PlainStore<Tiny> {
    let mut points = Typed::<_, Point>::new(PlainStore::<Tiny>::new(alloc, 1));
    agree(rt, points.insert(&Point { x: 5, y: 6 }), Ok(4096));
    points.into_store()
}

#[test]
fn a_record_is_stored_as_its_kind_and_its_words(rt: HostRuntime) -> Result<(), Fail> {
    let mut store = store_with_a_point(rt.alloc(), &rt);
    let hold = store.get(4096).expect(&rt, "it was inserted");
    agree(&rt, store.read(hold), Ok(value(&[1, 5, 6], &rt)));
    Ok(())
}

#[test]
fn a_record_is_given_back(rt: HostRuntime) -> Result<(), Fail> {
    let mut points = Typed::<_, Point>::new(store_with_a_point(rt.alloc(), &rt));
    let hold = Hold { key: 4096 };
    agree(&rt, points.get(4096), Ok((hold, Point { x: 5, y: 6 })));
    agree(&rt, points.remove(4096), Ok(()));
    agree(&rt, points.get(4096), Err(Refusal::Gone));
    agree(&rt, points.release(hold), Ok(()));
    agree(&rt, points.release(hold), Err(Refusal::NotHeld));
    Ok(())
}

// Four holds fill a key, so a further hold would show that one of them stayed.
#[test]
fn another_kind_is_refused_and_not_held(rt: HostRuntime) -> Result<(), Fail> {
    let mut counts = Typed::<_, Count>::new(store_with_a_point(rt.alloc(), &rt));
    for _ in 0..5 {
        agree(&rt, counts.get(4096), Err(Refusal::WrongKind));
    }
    agree(
        &rt,
        counts.release(Hold { key: 4096 }),
        Err(Refusal::NotHeld),
    );
    let mut points = Typed::<_, Point>::new(counts.into_store());
    agree(&rt, points.get(4096).is_ok(), true);
    Ok(())
}

#[test]
fn words_that_do_not_decode_are_refused(rt: HostRuntime) -> Result<(), Fail> {
    let mut store = PlainStore::<Tiny>::new(rt.alloc(), 1);
    agree(&rt, store.insert(&value(&[], &rt)), Ok(4096));
    agree(&rt, store.insert(&value(&[1, 5], &rt)), Ok(4097));
    let mut points = Typed::<_, Point>::new(store);
    agree(&rt, points.get(4096), Err(Refusal::WrongKind));
    agree(&rt, points.get(4097), Err(Refusal::WrongKind));
    agree(
        &rt,
        points.release(Hold { key: 4097 }),
        Err(Refusal::NotHeld),
    );
    Ok(())
}

fn idle_lender(words: &[u64], rt: &impl Abort) -> Lender {
    Lender {
        value: value(words, rt),
        stage: Stage::Idle,
        has_memory: true,
    }
}

// The view refuses what the lender refuses, in the same way.
#[test]
fn the_stores_own_refusals_are_answered(rt: HostRuntime) {
    let point = Point { x: 5, y: 6 };
    let mut points = Typed::<_, Point>::new(idle_lender(&[1, 5, 6], &rt));
    agree(&rt, points.insert(&point), Err(Refusal::Full));
    agree(&rt, points.get(LENT_KEY + 1), Err(Refusal::BadKey));
    agree(&rt, points.remove(LENT_KEY + 1), Err(Refusal::BadKey));
    agree(&rt, points.remove(LENT_KEY), Err(Refusal::Memory));
    let hold = Hold { key: LENT_KEY };
    agree(&rt, points.release(hold), Err(Refusal::NotHeld));
    agree(&rt, points.get(LENT_KEY), Ok((hold, point)));
    agree(&rt, points.get(LENT_KEY), Err(Refusal::HoldsFull));
    let mut store = points.into_store();
    store.has_memory = false;
    let mut points = Typed::<_, Point>::new(store);
    agree(&rt, points.insert(&point), Err(Refusal::Memory));
    agree(&rt, points.get(LENT_KEY), Err(Refusal::Memory));
    agree(&rt, points.release(hold), Err(Refusal::Memory));
    let mut store = points.into_store();
    agree(&rt, store.stage, Stage::Read);
    store.has_memory = true;
    let mut points = Typed::<_, Point>::new(store);
    agree(&rt, points.release(hold), Ok(()));
    agree(&rt, points.release(hold), Err(Refusal::NotHeld));
}

// The hold on a record of another kind is released, or stays if memory for that is refused.
#[test]
fn a_hold_on_another_kind_goes_back_where_it_can(rt: HostRuntime) {
    let mut counts = Typed::<_, Count>::new(idle_lender(&[1, 5, 6], &rt));
    agree(&rt, counts.get(LENT_KEY), Err(Refusal::WrongKind));
    agree(&rt, counts.into_store().stage, Stage::Returned);
    let mut store = idle_lender(&[1, 5, 6], &rt);
    store.has_memory = false;
    let mut counts = Typed::<_, Count>::new(store);
    agree(&rt, counts.get(LENT_KEY), Err(Refusal::Memory));
    let mut store = counts.into_store();
    agree(&rt, store.stage, Stage::Read);
    agree(
        &rt,
        store.read(Hold { key: LENT_KEY }),
        Ok(value(&[1, 5, 6], &rt)),
    );
}
