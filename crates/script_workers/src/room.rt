//! A name for one run.
use std::marker::Brand;

/// The heap and the script of a run. Each run picks it.
pub trait Room {
    ghost use Rattle.std.specs.Prelude.{ℕ, List, Option};
    ghost use Rattle.sh_script.specs.declared.calls.CallLine.{CallLine};
    ghost use Rattle.script_calls.specs.Parts.{RunTerms};
    ghost use Rattle.sh_table.specs.Seats.{Heap};

    ghost heap: { Option Heap };

    ghost terms: { RunTerms };

    ghost tag: { Option ℕ };

    ghost lines: { List CallLine };
}

impl Room for Brand {
    ghost use Rattle.std.specs.Prelude.{[], None};
    ghost use Rattle.script_calls.specs.Parts.{no_terms};

    ghost heap = { None };

    ghost terms = { no_terms };

    ghost tag = { None };

    ghost lines = { [] };
}
