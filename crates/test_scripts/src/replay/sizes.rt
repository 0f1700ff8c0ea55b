//! Tests of scripts of more than one read.
use super::ends::goes_out_whole;
use crate::assertions::agree;
use sh_replay::Mode;
use std::alloc::{AllocError, Global};
use std::test::Fail;

/// A line of 64 bytes that says nothing.
const COMMENT: &str = ";..............................................................\n";

/// A header, calls and events in 64 bytes each.
const HEADER: &str = "heap tiny 1 1 2\n;..............................................\n";

const CALLS: &str = "0 adopt 0\n0 insert a 7\n1 get a\n1 read a\n;......................\n";

const REPLIES: &str = "0 adopt ok\n0 insert 4096\n1 get ok\n1 read 1 7\n";

const REPLIES_AND_ACCOUNTS: &str = "0 adopt ok\n0 insert 4096\n1 get ok\n1 read 1 7\n\
    page 0.0 class 0 live 1 marked 0 retired 0 mine 0 hand 0 queued 47\n";

const EVENTS: &str = "0 Adopt 0\n0 Read 0.0\n0 SetClass 0.0 7\n0 Fill 0.0.0\n0 Publish\n;.\n";

const EVENTS_OUTPUT: &str =
    "0 Adopt moved\n0 Read moved\n0 SetClass moved\n0 Fill moved\n0 Publish Insert 4096 0\n\
    page 0.0 class 7 live 1 marked 0 retired 0 mine 2 hand 0 queued 0\n";

/// A script of `pieces` times 64 bytes, whose lines that say something are its first and its last ones.
fn script_of(alloc: Global, pieces: usize, last: &str) -> Result<String, AllocError> {
    let mut script = String::from_str(alloc, HEADER)?;
    for _ in 2..pieces {
        script.push_str(COMMENT)?;
    }
    script.push_str(last)?;
    Ok(script)
}

/// The modes, with the last lines of a script of each and the output of these.
const WORKED: [(Mode, &str, &str); 4] = [
    (Mode::Plain, CALLS, REPLIES),
    (Mode::Heap, CALLS, REPLIES_AND_ACCOUNTS),
    (Mode::Threads, CALLS, REPLIES_AND_ACCOUNTS),
    (Mode::Steps, EVENTS, EVENTS_OUTPUT),
];

#[test]
fn a_script_of_several_reads_is_run(rt: HostRuntime) -> Result<(), Fail> {
    // One read takes at most 4,096 bytes.
    for pieces in [64, 65, 200] {
        for (mode, last, output) in WORKED {
            let script = script_of(rt.alloc(), pieces, last)?;
            agree(&rt, script.len(), 64 * pieces);
            for most in [1_000_000, 4095, 7] {
                goes_out_whole(&rt, rt.alloc(), mode, script.as_str(), output, most);
            }
        }
    }
    Ok(())
}
