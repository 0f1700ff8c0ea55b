//! The text and the exit status of a fault.
ghost use Rattle.std.specs.Prelude.{◌≡◌, ◌≤◌, length};
ghost use Rattle.script_program.specs.Faults.{status_of, cause_name, script_line, fault_line};

use arrayvec::ArrayString;
use itoa::Buffer;
use sh_script::{Cause, Fault};

/// As many bytes as the longest fault line has, and a newline: `shardheap: fault 14 Script line`, a number of 20
/// digits, and `Command` or `Unbound`.
pub const LINE_MAX: usize = 64;

/// The exit status of a run that ended with this fault: 2 if the script is at fault, and 3 if memory or a device is. No
/// run ends with `Waiting`.
pub fn status(fault: Fault) -> u8
    ensures { result ≡ status_of fault }
{
    match fault {
        Fault::BadShape | Fault::Script(_, _) => 2,
        Fault::Memory | Fault::Waiting | Fault::Io => 3,
    }
}

// The name of a cause.
fn cause_name(cause: Cause) -> &'static str
    ensures name { result.now ≡ cause_name cause }
    ensures short { length result.now ≤ 7 }
{
    match cause {
        Cause::Size => "Size",
        Cause::Cut => "Cut",
        Cause::Byte => "Byte",
        Cause::Header => "Header",
        Cause::Number => "Number",
        Cause::Pass => "Pass",
        Cause::Count => "Count",
        Cause::Command => "Command",
        Cause::Name => "Name",
        Cause::Bound => "Bound",
        Cause::Unbound => "Unbound",
    }
}

fn line_of(text: &str) -> ArrayString<LINE_MAX>
    requires { length text.now ≤ 64 }
    ensures { result.bytes ≡ text.now }
{
    let mut line = ArrayString::new();
    line.push_str(text);
    line
}

// The line on the script's line of this number.
fn script_line(number: u64, cause: Cause) -> ArrayString<LINE_MAX>
    ensures { result.bytes ≡ script_line number cause }
{
    let mut line = ArrayString::new();
    let mut buffer = Buffer::new();
    line.push_str("shardheap: fault 14 Script line ");
    line.push_str(buffer.format(number));
    line.push_str(" ");
    line.push_str(cause_name(cause));
    line.push_str("\n");
    line
}

/// The line on the standard error that names a fault, with its newline: `shardheap: fault 14 Script line 3 Unbound`.
pub fn fault_line(fault: Fault) -> ArrayString<LINE_MAX>
    ensures { result.bytes ≡ fault_line fault }
{
    match fault {
        Fault::Memory => line_of("shardheap: fault 8 Memory\n"),
        Fault::Waiting => line_of("shardheap: fault 11 Waiting\n"),
        Fault::BadShape => line_of("shardheap: fault 12 BadShape\n"),
        Fault::Script(number, cause) => script_line(number, cause),
        Fault::Io => line_of("shardheap: fault 15 Io\n"),
    }
}
