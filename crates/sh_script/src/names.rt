//! The names that are bound.
use std::alloc::{AllocError, Global};
use std::collections::BTreeMap;
use std::marker::Model;

/// What binds a name.
#[derive(Clone, Copy, Debug, PartialEq, Eq)]
pub enum Binder {
    /// `insert`, to the key that it returns.
    Insert,
    /// `post`, without a key.
    Post,
}

/// A name and what binds it.
#[derive(Clone, Copy)]
pub struct Bound<'a> {
    pub name: &'a [u8],
    pub by: Binder,
}

/// The place of a name among those that are bound, from 0, and what bound it.
#[derive(Clone, Copy, Debug, PartialEq, Eq)]
pub struct Found {
    pub place: usize,
    pub by: Binder,
}

/// Names in the order of their binding. A contract sees the list of them.
#[derive(Drop)]
pub struct Names<'a> {
    bound: Vec<Bound<'a>>,
    found: BTreeMap<&'a [u8], Found>,
}

impl<'a> Model for Names<'a> {
    ghost use Rattle.std.specs.Prelude.{◌≡◌, List, ℕ, map};
    ghost use Rattle.std.specs.BTreeMap.{get_by};
    ghost use Rattle.std.specs.Cmp.Lexicographic.{slice_cmp};
    ghost use Rattle.std.specs.Ordering.{nat_cmp};
    ghost use Rattle.sh_script.specs.Names.{Binding, find_from};

    ghost Value = { List Binding };

    ghost view = { λ n. map (λ b. record { name = b.name.now; by = b.by }) n.bound.items };

    // The map finds each name that is bound.
    ghost invariant = { λ n. (q : List ℕ) → get_by (λ k. slice_cmp nat_cmp q k.now) n.found
        ≡ find_from 0 (map (λ b. record { name = b.name.now; by = b.by }) n.bound.items) q };
}

impl<'a> Names<'a> {
    ghost use Rattle.std.specs.Prelude.{◌≡◌, ◌++◌, ◌∷◌, [], None, OnOk, OnErr};
    ghost use Rattle.sh_script.specs.Names.{find_from};

    /// No names.
    pub fn new(alloc: Global) -> Self
        ensures { result ≡ [] }
    {
        Names {
            bound: Vec::new(alloc),
            found: BTreeMap::new(alloc),
        }
    }

    /// The place of a name, and what bound it, if it is bound.
    pub fn find(&self, name: &[u8]) -> Option<Found>
        ensures { result ≡ find_from 0 self.now name.now }
    {
        self.found.get(name).copied()
    }

    /// Binds a name that is not bound, after the others.
    pub fn push(&mut self, name: &'a [u8], by: Binder) -> Result<(), AllocError>
        requires { find_from 0 self.old name.now ≡ None }
        ensures ok { OnOk result (self.new ≡ self.old ++ record { name = name.entry.now; by = by } ∷ []) }
        ensures err { OnErr result (self.new ≡ self.old) }
    {
        let place = self.bound.len();
        self.bound.push(Bound { name, by })?;
        match self.found.insert(name, Found { place, by }) {
            Ok(_) => Ok(()),
            Err(_) => {
                self.bound.pop();
                Err(AllocError)
            }
        }
    }
}
