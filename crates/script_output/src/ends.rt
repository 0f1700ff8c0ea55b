//! Reading a script and writing an output, each by one call after the other. A call that returns an error ends the run,
//! even if it was only interrupted.
ghost use Rattle.std.specs.Prelude.{◌≡◌, ℕ, List, ◌<◌, ◌≤◌, OnOk, OnErr, IfOk, IfErr, Some, take};
ghost use Rattle.std.specs.Io.KnownBytes.{Appends, Consumes};
ghost use Rattle.script_output.specs.Ends.{IsEndFault, MovesPiece, ReadsAtMostBytes, WroteBeginning};

use sh_script::{Fault, SCRIPT_BYTES_MAX};
use std::alloc::Global;
use std::io::{Read, Write};

// One more byte than a script may have: longer texts are wrong too, so the rest is left unread.
const LIMIT: usize = SCRIPT_BYTES_MAX + 1;

// The number of bytes that one read asks for.
const PIECE: usize = 4096;

// Moves at most `most` bytes onto the end of `text`, by one read.
#[tactic(auto, using(crate::proofs::EndLemmas::reads_none, crate::proofs::EndLemmas::reads_piece))]
fn read_piece<R: Read>(reader: &mut R, text: &mut Vec<u8>, most: usize) -> Result<usize, Fault>
    requires some { 0 < most }
    requires few { most ≤ 4096 }
    ensures fault { IfErr result IsEndFault }
    ensures ok { IfOk result (λ n. MovesPiece (R.remaining reader.old) (R.remaining reader.new) text.old.items
        text.new.items n most) }
    ensures reads { ReadsAtMostBytes (R.remaining reader.old) (R.remaining reader.new) most }
{
    let mut piece = [0u8; PIECE];
    let Ok(n) = reader.read(&mut piece[..most]) else {
        return Err(Fault::Io);
    };
    match text.extend_from_slice(&piece[..n]) {
        Ok(()) => Ok(n),
        Err(_) => Err(Fault::Memory),
    }
}

/// All that a reader gives, up to one byte more than a script may have; the rest is left unread.
#[tactic(auto, using(crate::proofs::EndLemmas::reads_more, crate::proofs::EndLemmas::reads_done))]
pub fn read_text<R: Read>(alloc: Global, reader: &mut R) -> Result<Vec<u8>, Fault>
    ensures text { (input : List ℕ) → R.remaining reader.old ≡ Some input
        → IfOk result (λ text. text.items ≡ take 1048577 input) }
    ensures fault { IfErr result IsEndFault }
    ensures reads { ReadsAtMostBytes (R.remaining reader.old) (R.remaining reader.new) 1048577 }
{
    let mut text = Vec::new(alloc);
    while text.len() < LIMIT {
        let most = (LIMIT - text.len()).min(PIECE);
        if read_piece(reader, &mut text, most)? == 0 {
            return Ok(text);
        }
    }
    Ok(text)
}

/// Writes all bytes, by one write after the other. A write that takes no byte is a fault like one that fails. What was
/// written before the fault is a beginning of the bytes, and not all of them.
#[tactic(auto, using(crate::proofs::EndLemmas::writes_pieces))]
pub fn write_text<W: Write>(writer: &mut W, bytes: &[u8]) -> Result<(), Fault>
    ensures ok { OnOk result (Appends (W.contents writer.old) (W.contents writer.new) bytes.now) }
    ensures fault { IfErr result (λ fault. fault ≡ Fault.Io) }
    ensures beginning { OnErr result (WroteBeginning (W.contents writer.old) (W.contents writer.new) bytes.now) }
{
    let mut rest = bytes;
    while !rest.is_empty() {
        match writer.write(rest) {
            Ok(0) | Err(_) => return Err(Fault::Io),
            Ok(n) => (_, rest) = rest.split_at(n),
        }
    }
    Ok(())
}
