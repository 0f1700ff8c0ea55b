//! A script that is run line by line: its passes, and the names that its inserts bound.
use crate::answers::{Answer, of_pass, on_key};
use crate::line::{Call, Reference, Trouble, call_of, pass_of};
use c_handles::HeldPass;
use sh_script::Cause;
use std::alloc::Global;
use std::collections::BTreeMap;

/// The passes of the heap, by their numbers, and the key of each name. A name has no key if its insert was refused.
#[derive(Drop)]
pub struct Session {
    passes: Vec<HeldPass>,
    keys: BTreeMap<Vec<u8>, Option<u64>>,
}

impl Session {
    /// With these passes, and no name.
    pub fn new(alloc: Global, passes: Vec<HeldPass>) -> Session {
        Session {
            passes,
            keys: BTreeMap::new(alloc),
        }
    }

    // Binds a name to the key of its insert.
    fn bind(&mut self, alloc: Global, name: &[u8], answer: &Answer) -> Result<(), Trouble> {
        let key = match answer {
            Answer::Key(key) => Some(*key),
            _ => None,
        };
        let Ok(name) = Vec::from_slice(alloc, name) else {
            return Err(Trouble::Memory);
        };
        match self.keys.insert(name, key) {
            Ok(_) => Ok(()),
            Err(_) => Err(Trouble::Memory),
        }
    }

    // The key that a call means. `None` if the insert of the name was refused.
    fn key_meant(&self, reference: Reference<'_>) -> Result<Option<u64>, Cause> {
        match reference {
            Reference::Key(key) => Ok(Some(key)),
            Reference::Name(name) => match self.keys.get(name) {
                Some(key) => Ok(*key),
                None => Err(Cause::Unbound),
            },
        }
    }

    // A name that an insert may bind.
    fn check(&self, call: &Call<'_>) -> Result<(), Cause> {
        match call {
            Call::Insert(name, _) if self.keys.contains_key(*name) => Err(Cause::Bound),
            _ => Ok(()),
        }
    }

    /// Runs the line with these words. `None` says that the call is on a name whose insert was refused.
    pub fn run(&mut self, alloc: Global, words: &[&[u8]]) -> Result<Option<Answer>, Trouble> {
        let (pass, rest) = pass_of(self.passes.len(), words)?;
        let call = call_of(alloc, rest)?;
        self.check(&call)?;
        if let Call::OnKey(asked, reference) = &call {
            let Some(key) = self.key_meant(*reference)? else {
                return Ok(None);
            };
            return Ok(Some(on_key(&mut self.passes[pass], *asked, key)));
        }
        let answer = of_pass(alloc, &mut self.passes[pass], &call);
        if let Call::Insert(name, _) = &call {
            self.bind(alloc, *name, &answer)?;
        }
        Ok(Some(answer))
    }
}
