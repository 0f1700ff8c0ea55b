//! The whole program, over the words of a command line, a reader and two writers.
ghost use Rattle.std.specs.Prelude.{◌≡◌, ◌≢◌, ◌⊎◌, ℕ, List, Some, map, take};
ghost use Rattle.clap.specs.Words.{kind_of};
ghost use Rattle.script_output.specs.Ends.{ReadsAtMostBytes};
ghost use Rattle.script_program.specs.Faults.{status_of};
ghost use Rattle.script_program.specs.Program.{EndsBy, EndsRefused, EndsRun, IsStatus, ShowsText};

use crate::faults::{fault_line, status};
use crate::options::options;
use clap::Error;
use clap::error::ErrorKind;
use script_output::ends::write_text;
use sh_replay::replay;
use sh_script::Fault;
use std::alloc::Global;
use std::io::{Read, Write};
use std::sync::Wait;
use std::thread::Threads;

/// Names a fault on one line of `errors`, in one write if the line is taken whole, and returns the exit status. The
/// status reports it even if `errors` takes nothing.
pub fn report<E: Write>(fault: Fault, errors: &mut E) -> u8
    ensures { result ≡ status_of fault }
{
    let _ = errors.write_all(fault_line(fault).as_str().as_bytes());
    status(fault)
}

/// Writes help or the version, and returns the exit status: 0 if all of it was written, and 3 if a write failed.
fn show_text<W: Write, E: Write>(text: &str, output: &mut W, errors: &mut E) -> u8
    ensures { ShowsText text.now result (W.contents output.old) (W.contents output.new) }
{
    match write_text(output, text.as_bytes()) {
        Ok(()) => 0,
        Err(fault) => report(fault, errors),
    }
}

/// Shows why clap gave no options, and returns the exit status: help goes to `output`, a mistake in the words to
/// `errors`.
fn show<W: Write, E: Write>(alloc: Global, error: &Error, output: &mut W, errors: &mut E) -> u8
    ensures ends { EndsBy (kind_of error.now) result (W.contents output.old) (W.contents output.new) }
    ensures quiet { kind_of error.now ≢ ErrorKind.DisplayHelp → kind_of error.now ≢ ErrorKind.DisplayVersion
        → output.new ≡ output.old }
{
    if error.kind() == ErrorKind::OutOfMemory {
        return report(Fault::Memory, errors);
    }
    if error.use_stderr() {
        let _ = write!(errors, "{error}");
        return 2;
    }
    // Help and the version are never empty, so that 0 says that something was shown.
    match format!(in alloc; "{error}") {
        Ok(text) if !text.is_empty() => show_text(text.as_str(), output, errors),
        _ => report(Fault::Memory, errors),
    }
}

/// Runs the program: the script that `input` gives, in the mode that `words` name. Replies go to `output`, and errors
/// to `errors`. The first word is the program's name. Returns the exit status. It is 0 on success, and for help and the
/// version. It is 2 for a mistake in the words or in the script, and 3 if memory, an owner, a read or a write failed.
///
/// For help, for the version and for a mistake in the words, nothing of `input` is read. Otherwise at most one byte
/// more than a script may have is read.
pub fn run<R: Read, W: Write, E: Write, T: Threads + Wait + Sync>(
    rt: &T,
    alloc: Global,
    words: &[&str],
    input: &mut R,
    output: &mut W,
    errors: &mut E,
) -> u8
    ensures ends { (text : List ℕ) → R.remaining input.old ≡ Some text
        → EndsRefused (map (λ w. w.now) words.now) (R.remaining input.old) (R.remaining input.new)
        (W.contents output.old) (W.contents output.new) result
        ⊎ EndsRun (map (λ w. w.now) words.now) (take 1048577 text) (W.contents output.old) (W.contents output.new)
        result }
    ensures reads { ReadsAtMostBytes (R.remaining input.old) (R.remaining input.new) 1048577 }
    ensures status { IsStatus result }
{
    let (mode, accounts) = match options(alloc, words) {
        Ok(chosen) => chosen,
        Err(error) => return show(alloc, &error, output, errors),
    };
    match replay(rt, alloc, input, output, mode, accounts) {
        Ok(()) => 0,
        Err(fault) => report(fault, errors),
    }
}
