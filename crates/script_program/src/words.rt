//! What is reported if the words of the process cannot be read.
ghost use Rattle.std.specs.Prelude.{◌≡◌, ◌≢◌};
ghost use Rattle.std.specs.IoError.{error_kind};

use crate::program::report;
use sh_script::Fault;
use std::io;
use std::io::{ErrorKind, Write};

/// Reports why the process's own words could not be read, and returns the exit status: 2 if they are not valid text,
/// and 3 if memory ran out.
pub fn refuse<E: Write>(error: &io::Error, errors: &mut E) -> u8
    ensures memory { error_kind error.now ≡ ErrorKind.OutOfMemory → result ≡ 3 }
    ensures words { error_kind error.now ≢ ErrorKind.OutOfMemory → result ≡ 2 }
{
    if error.kind() == ErrorKind::OutOfMemory {
        return report(Fault::Memory, errors);
    }
    let _ = writeln!(
        errors,
        "error: invalid UTF-8 was detected in one or more arguments"
    );
    2
}
