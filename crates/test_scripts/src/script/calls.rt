use crate::assertions::holds;
use sh_script::{Call, CallLine, Reference, parse_calls};

fn is_insert(line: &CallLine, pass: u32, value: &[u64]) -> bool {
    match &line.call {
        Call::Insert(numbers) => line.pass == pass && numbers.as_slice() == value,
        _ => false,
    }
}

fn is_get(line: &CallLine, pass: u32, reference: Reference) -> bool {
    match &line.call {
        Call::Get(r) => line.pass == pass && *r == reference,
        _ => false,
    }
}

fn is_read(line: &CallLine, pass: u32, reference: Reference) -> bool {
    match &line.call {
        Call::Read(r) => line.pass == pass && *r == reference,
        _ => false,
    }
}

fn is_remove(line: &CallLine, pass: u32, reference: Reference) -> bool {
    match &line.call {
        Call::Remove(r) => line.pass == pass && *r == reference,
        _ => false,
    }
}

fn is_release(line: &CallLine, pass: u32, reference: Reference) -> bool {
    match &line.call {
        Call::Release(r) => line.pass == pass && *r == reference,
        _ => false,
    }
}

fn is_wait(line: &CallLine, pass: u32, name: usize) -> bool {
    match &line.call {
        Call::Wait(n) => line.pass == pass && *n == name,
        _ => false,
    }
}

// Each command, among spaces, comments and blank lines. The names are b_9, c, p, a, d and e, in this order. The last
// line has as many words as there is room for, which are more than a value may have.
const EACH: &[u8] = b"\n; a heap\n  heap  tiny 4 2 64 \n   \n;x 0 get b\n\
    \x2063  insert  b_9 0 18446744073709551615\n0 insert c\n1 get #4096\n2 read c\n\
    1 post p\n0 wait p\n0 insert a\n0 wait a\n0 remove a\n1 release a\n0 remove #4096\n1 release #0\n0 leave\n\
    0 adopt 0\n0 insert d 7\n0 get d\n0 read d\n\
    0 insert e 1 1 1 1 1 1 1 1 1 1 1 1 1 1 1 1 1 1 1 1 1 1 1 1 1 1 1 1 1 1 1 1 1 1 1 1 1 1 1 1 1 1 1 1 1 1 1 1 1 1\
    \x201 1 1 1 1 1 1 1 1 1 1 1 1 1 1 1 1 1 1 1 1 1 1 1 1 1 1 1 1 1 1 1 1 1 1 1 1 1 1 1 1 1 1 1 1 1 1 1 1 1\
    \x201 1 1 1 1 1 1 1 1 1 1 1 1 1 1 1 1 1 1 1 1 1 1 1 1 1 1 1 1 1 1 1 1 1 1 1 1 1 1 1 1 1 1 1 1 1 1 1 1 1\
    \x201 1 1 1 1 1 1 1 1 1 1 1 1 1 1 1 1 1 1 1 1 1 1 1 1 1 1 1 1 1 1 1 1 1 1 1 1 1 1 1 1 1 1 1 1 1 1 1 1 1\
    \x201 1 1 1 1 1 1 1 1 1 1 1 1 1 1 1 1 1 1 1 1 1 1 1 1 1 1 1 1 1 1 1 1 1 1 1 1 1 1 1 1 1 1 1 1 1 1 1 1 1\
    \x201\n";

#[test]
fn each_command(rt: HostRuntime) {
    let calls = parse_calls(rt.alloc(), EACH).expect(&rt, "it is a script");
    assert_eq!(rt; calls.lines.len(), 18);
    holds(
        &rt,
        is_insert(&calls.lines[0], 63, &[0, 18446744073709551615]),
    );
    holds(&rt, is_insert(&calls.lines[1], 0, &[]));
    holds(&rt, is_get(&calls.lines[2], 1, Reference::Key(4096)));
    holds(&rt, is_read(&calls.lines[3], 2, Reference::Name(1)));
    holds(&rt, matches!(calls.lines[4].call, Call::Post));
    holds(&rt, is_wait(&calls.lines[5], 0, 2));
    holds(&rt, is_insert(&calls.lines[6], 0, &[]));
    holds(&rt, is_wait(&calls.lines[7], 0, 3));
    holds(&rt, is_remove(&calls.lines[8], 0, Reference::Name(3)));
    holds(&rt, is_release(&calls.lines[9], 1, Reference::Name(3)));
    holds(&rt, is_remove(&calls.lines[10], 0, Reference::Key(4096)));
    holds(&rt, is_release(&calls.lines[11], 1, Reference::Key(0)));
    holds(&rt, matches!(calls.lines[12].call, Call::Leave));
    holds(&rt, matches!(calls.lines[13].call, Call::Adopt(0)));
    holds(&rt, is_insert(&calls.lines[14], 0, &[7]));
    holds(&rt, is_get(&calls.lines[15], 0, Reference::Name(4)));
    holds(&rt, is_read(&calls.lines[16], 0, Reference::Name(4)));
    holds(&rt, is_insert(&calls.lines[17], 0, &[1; 251]));
}
