//! The calls of a history with times, as they come.
ghost use Rattle.std.specs.Prelude.{◌≡◌, ◌↔◌, IsTrue, List, [], ◌∷◌, ◌++◌, OnOk};
ghost use Rattle.history_timed.specs.declared.call.Call.{Call as Made};
ghost use Rattle.history_timed.specs.Calls.{pass_said};
ghost use Rattle.history_lines.specs.Calls.{HasCalls, CameOfCall};

use crate::fault::{Cause, Trouble};
use history_timed::{Call, Said, Span};
use std::alloc::{AllocError, Global};
use std::collections::HashMap;

/// All calls so far, and the times of each pass's last one.
#[derive(Drop)]
pub struct Calls {
    all: Vec<Call>,
    last: HashMap<u32, Span>,
}

impl Calls {
    /// No calls.
    pub fn new(alloc: Global) -> Calls
        ensures { HasCalls result [] }
    {
        Calls {
            all: Vec::new(alloc),
            last: HashMap::new(alloc),
        }
    }

    /// Whether there is none.
    pub fn is_empty(&self) -> bool
        ensures { (calls : List Made) → HasCalls self.now calls → IsTrue result ↔ (calls ≡ []) }
    {
        self.all.is_empty()
    }

    /// All calls, in the order of their lines.
    pub fn all(&self) -> &[Call]
        ensures { (calls : List Made) → HasCalls self.now calls → result.now ≡ calls }
    {
        self.all.as_slice()
    }

    // Adds a call of this pass.
    fn note(&mut self, pass: u32, call: Call) -> Result<(), AllocError>
        ensures { (calls : List Made) → HasCalls self.old calls → pass_said call.said ≡ pass
            → OnOk result (HasCalls self.new (calls ++ call ∷ [])) }
    {
        self.last.insert(pass, call.times)?;
        self.all.push(call)?;
        Ok(())
    }

    /// Adds the call of this line. The pass's last call must have ended before it began; otherwise it is refused as
    /// `Overlap`.
    pub fn push(&mut self, line: u64, times: Span, said: Said) -> Result<(), Trouble>
        ensures { (calls : List Made) → HasCalls self.old calls
            → CameOfCall calls (record { line = line; times = times; said = said }) self.new result }
    {
        let pass = said.pass();
        if let Some(last) = self.last.get(&pass)
            && !last.ends_before(&times)
        {
            return Err(Trouble::Because(Cause::Overlap));
        }
        self.note(pass, Call { line, times, said })?;
        Ok(())
    }
}
