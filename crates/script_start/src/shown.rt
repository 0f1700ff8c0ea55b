//! What clap says instead of options.
ghost use Rattle.std.specs.Prelude.{◌≡◌, ◌≢◌};
ghost use Rattle.clap.specs.Words.{kind_of};
ghost use Rattle.script_start.specs.Shown.{IsShown};

use clap::Error;
use clap::error::ErrorKind;
use std::io::Write;

/// Shows what clap says instead of options, and returns the exit status. Help and the version go to `output`, and the
/// status is 0, or 3 if a write failed. A mistake in the words goes to `errors`, and the status is 2.
pub fn show<W: Write, E: Write>(error: &Error, output: &mut W, errors: &mut E) -> u8
    ensures mistake { kind_of error.now ≢ ErrorKind.DisplayHelp → kind_of error.now ≢ ErrorKind.DisplayVersion
        → (result ≡ 2) × (output.new ≡ output.old) }
    ensures help { kind_of error.now ≡ ErrorKind.DisplayHelp → IsShown result × (errors.new ≡ errors.old) }
    ensures version { kind_of error.now ≡ ErrorKind.DisplayVersion → IsShown result × (errors.new ≡ errors.old) }
{
    if error.use_stderr() {
        let _ = write!(errors, "{error}");
        return 2;
    }
    match write!(output, "{error}") {
        Ok(()) => 0,
        Err(_) => 3,
    }
}
