//! Scripts with the answers that docs/SCRIPTS.md promises, and each fault of a line.
use crate::program::run;
use sh_script::{Cause, Fault};
use std::alloc::Global;
use std::process::Abort;

fn push_line(text: &mut Vec<u8>, line: &str) {
    let _ = text.extend_from_slice(line.as_bytes());
    let _ = text.push(b'\n');
}

// What a script of these lines writes, and how it ends.
fn written(alloc: Global, script: &[u8]) -> (Vec<u8>, Result<(), Fault>) {
    let mut input = script;
    let mut output = Vec::new(alloc);
    let end = run(alloc, &mut input, &mut output);
    (output, end)
}

// Each of these lines, after the header, is answered like this.
fn answers(rt: &impl Abort, alloc: Global, header: &str, turns: &[(&str, &str)]) {
    let mut script = Vec::new(alloc);
    let mut wanted = Vec::new(alloc);
    push_line(&mut script, "version 3");
    push_line(&mut script, header);
    for (line, answer) in turns {
        push_line(&mut script, line);
        push_line(&mut wanted, answer);
    }
    let (output, end) = written(alloc, script.as_slice());
    assert_eq!(rt; end, Ok(()));
    assert!(rt; output.as_slice() == wanted.as_slice());
}

fn ends(rt: &impl Abort, alloc: Global, script: &[u8], wanted: Fault) {
    let (_, end) = written(alloc, script);
    assert_eq!(rt; end, Err(wanted));
}

// A fault of line 3, the first one after the header.
fn is_fault(rt: &impl Abort, alloc: Global, line: &[u8], cause: Cause) {
    let mut script = Vec::new(alloc);
    let _ = script.extend_from_slice(b"version 3\nheap tiny 1 1 1\n");
    let _ = script.extend_from_slice(line);
    ends(rt, alloc, script.as_slice(), Fault::Script(3, cause));
}

#[test]
fn a_value_is_looked_at_and_taken(rt: HostRuntime) {
    let turns = [
        ("0 adopt 0", "0 adopt ok"),
        ("0 insert a 7", "0 insert 4096"),
        ("1 look a", "1 look 1 7"),
        ("1 take a", "1 take 1 7"),
        ("1 look a", "1 look refused 2 Gone"),
        ("1 take #4096", "1 take refused 2 Gone"),
    ];
    answers(&rt, rt.alloc(), "heap tiny 1 1 2", turns.as_slice());
}

#[test]
fn a_walk_meets_the_live_keys(rt: HostRuntime) {
    let turns = [
        ("0 adopt 0", "0 adopt ok"),
        ("0 insert a 7", "0 insert 4096"),
        ("0 insert b 8", "0 insert 4097"),
        ("0 walk", "0 walk 2 4096 4097"),
        ("0 next 0", "0 next 4096 then 1 1 7"),
        ("0 next 2", "0 next none"),
        ("0 hold 0", "0 hold 4096 then 1 held"),
    ];
    answers(&rt, rt.alloc(), "heap tiny 1 1 1", turns.as_slice());
}

#[test]
fn an_owner_collects_and_prepares(rt: HostRuntime) {
    let turns = [
        ("0 collect", "0 collect refused 10 NoShard"),
        ("0 prepare 1", "0 prepare refused 10 NoShard"),
        ("0 adopt 0", "0 adopt ok"),
        ("0 collect", "0 collect ok"),
        ("0 prepare 16", "0 prepare 0"),
        ("0 prepare 17", "0 prepare refused 6 TooLong"),
        ("0 leave", "0 leave ok"),
    ];
    answers(&rt, rt.alloc(), "heap deep 1 1 1", turns.as_slice());
}

#[test]
fn a_growing_heap_finds_its_shards(rt: HostRuntime) {
    let turns = [
        ("0 insert a 5", "0 insert 16777216"),
        ("1 get a", "1 get ok"),
        ("1 read a", "1 read 1 5"),
        ("1 release a", "1 release ok"),
        ("1 remove a", "1 remove ok"),
        ("1 adopt 0", "1 adopt refused 10 NoShard"),
        ("0 leave", "0 leave ok"),
    ];
    answers(&rt, rt.alloc(), "growing 1 1 1 2 2", turns.as_slice());
}

#[test]
fn a_name_whose_insert_was_refused_is_unbound(rt: HostRuntime) {
    let turns = [
        ("0 insert a 1", "0 insert refused 10 NoShard"),
        ("0 get a", "0 get unbound"),
    ];
    answers(&rt, rt.alloc(), "heap tiny 1 1 1", turns.as_slice());
}

#[test]
fn the_header_comes_after_the_version(rt: HostRuntime) {
    ends(&rt, rt.alloc(), b"", Fault::Script(1, Cause::Header));
    ends(
        &rt,
        rt.alloc(),
        b"heap tiny 1 1 1\n",
        Fault::Script(1, Cause::Header),
    );
    ends(
        &rt,
        rt.alloc(),
        b"version 3\n",
        Fault::Script(2, Cause::Header),
    );
    ends(
        &rt,
        rt.alloc(),
        b"version 3\nheap small 1 1 1\n",
        Fault::Script(2, Cause::Header),
    );
    ends(
        &rt,
        rt.alloc(),
        b"version 3\nheap tiny 1 1\n",
        Fault::Script(2, Cause::Header),
    );
    ends(
        &rt,
        rt.alloc(),
        b"version 3\nheap tiny 0 1 1\n",
        Fault::BadShape,
    );
    ends(
        &rt,
        rt.alloc(),
        b"version 3\ngrowing 1 1 1 2\n",
        Fault::Script(2, Cause::Header),
    );
    ends(
        &rt,
        rt.alloc(),
        b"version 3\ngrowing 1 1 1 0 1\n",
        Fault::BadShape,
    );
}

#[test]
fn a_line_is_a_call_of_a_pass(rt: HostRuntime) {
    is_fault(&rt, rt.alloc(), b"x walk\n", Cause::Number);
    is_fault(&rt, rt.alloc(), b"1 walk\n", Cause::Pass);
    is_fault(&rt, rt.alloc(), b"0\n", Cause::Count);
    is_fault(&rt, rt.alloc(), b"0 climb\n", Cause::Command);
    is_fault(&rt, rt.alloc(), b"0 walk 1\n", Cause::Count);
    is_fault(&rt, rt.alloc(), b"0 adopt\n", Cause::Count);
    is_fault(&rt, rt.alloc(), b"0 adopt a\n", Cause::Number);
    is_fault(&rt, rt.alloc(), b"0 insert A\n", Cause::Name);
    is_fault(&rt, rt.alloc(), b"0 get a\n", Cause::Unbound);
    is_fault(&rt, rt.alloc(), b"0 get #x\n", Cause::Number);
    is_fault(&rt, rt.alloc(), b"0 walk", Cause::Cut);
    is_fault(&rt, rt.alloc(), b"0\twalk\n", Cause::Byte);
}

#[test]
fn a_name_is_bound_once(rt: HostRuntime) {
    ends(
        &rt,
        rt.alloc(),
        b"version 3\nheap tiny 1 1 1\n; a comment\n\n0 insert a\n0 insert a\n",
        Fault::Script(6, Cause::Bound),
    );
}
