//! A script for each mode, with all that its run writes.
use sh_replay::Mode;

/// Calls of two passes; the second waits for a name of the first.
const CALLS: &str = "heap tiny 1 1 2\n0 adopt 0\n0 insert a 7\n1 get a\n1 read a\n1 release a\n";

const REPLIES: &str = "0 adopt ok\n0 insert 4096\n1 get ok\n1 read 1 7\n1 release ok\n";

const REPLIES_AND_ACCOUNTS: &str = "0 adopt ok\n0 insert 4096\n1 get ok\n1 read 1 7\n1 release ok\n\
    page 0.0 class 0 live 1 marked 0 retired 0 mine 0 hand 0 queued 47\n";

/// Events of two passes.
const EVENTS: &str =
    "heap tiny 1 1 2\n0 Adopt 0\n0 Read 0.0\n0 SetClass 0.0 7\n0 Fill 0.0.0\n0 Publish\n1 Enter get 4096\n";

const OUTCOMES_AND_ACCOUNTS: &str =
    "0 Adopt moved\n0 Read moved\n0 SetClass moved\n0 Fill moved\n0 Publish Insert 4096 0\n1 Enter Got 4096 0\n\
    page 0.0 class 7 live 1 marked 0 retired 0 mine 2 hand 0 queued 0\n";

/// A mode, a script of it, and all that its run writes if accounts are asked for.
#[derive(Clone, Copy)]
pub struct Worked {
    pub mode: Mode,
    pub script: &'static str,
    pub output: &'static str,
}

/// One of each mode.
pub const EACH_MODE: [Worked; 4] = [
    Worked {
        mode: Mode::Plain,
        script: CALLS,
        output: REPLIES,
    },
    Worked {
        mode: Mode::Heap,
        script: CALLS,
        output: REPLIES_AND_ACCOUNTS,
    },
    Worked {
        mode: Mode::Threads,
        script: CALLS,
        output: REPLIES_AND_ACCOUNTS,
    },
    Worked {
        mode: Mode::Steps,
        script: EVENTS,
        output: OUTCOMES_AND_ACCOUNTS,
    },
];
