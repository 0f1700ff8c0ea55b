use crate::assertions::agree;
use sh_script::{Cause, Fault};
use std::test::Fail;

const TEXTS: [(Fault, &str); 5] = [
    (
        Fault::Script(3, Cause::Unbound),
        "fault 14 Script line 3 Unbound",
    ),
    (Fault::BadShape, "fault 12 BadShape"),
    (Fault::Memory, "fault 8 Memory"),
    (Fault::Waiting, "fault 11 Waiting"),
    (Fault::Io, "fault 15 Io"),
];

#[test]
fn faults_have_their_text(rt: HostRuntime) -> Result<(), Fail> {
    for (fault, text) in &TEXTS {
        agree(&rt, format!(in rt.alloc(); "{fault}")?.as_str(), *text);
    }
    Ok(())
}
