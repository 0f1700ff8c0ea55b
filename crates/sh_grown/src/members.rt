//! The places of a caller's members: one for each chunk, up to the last one that it has met.
ghost use Rattle.std.specs.Prelude.{◌≡◌, ℕ, ◌<◌, IfErr, IfOk, None, get_or, length};
ghost use Rattle.std.specs.Vec.{vec_capacity};
ghost use Rattle.sh_value.specs.declared.refusal.Refusal.TheVariants.{Memory};
ghost use Rattle.sh_grown.specs.Callers.{met_in};

use crate::chunk_member::ChunkMember;
use sh_value::Refusal;
use std::alloc::Global;

// Room for a member in each of this many chunks. The first one has its place, and none is met yet.
#[tactic(auto, using(crate::proofs::Meeting::none_more))]
pub(crate) fn no_members(alloc: Global, chunks: usize) -> Result<Vec<Option<ChunkMember>>, Refusal>
    ensures count { IfOk result (λ members. length members.items ≡ 1) }
    ensures none { IfOk result (λ members. (chunk : ℕ) → get_or members.items chunk None ≡ None) }
    ensures err { IfErr result (λ why. why ≡ Memory) }
{
    let Ok(mut members) = Vec::with_capacity(alloc, chunks) else {
        return Err(Refusal::Memory);
    };
    if members.push(None).is_err() {
        return Err(Refusal::Memory);
    }
    Ok(members)
}

// Puts what a caller has met in a chunk at its place. It takes no memory.
pub(crate) fn put_met(members: &mut Vec<Option<ChunkMember>>, chunk: usize, one: ChunkMember)
    requires { chunk < vec_capacity members.old }
    ensures { members.new.items ≡ met_in chunk one members.old.items }
{
    for _place in members.len()..chunk {
        if members.push(None).is_err() {
            unreachable!();
        }
    }
    if chunk < members.len() {
        members[chunk] = Some(one);
    } else if members.push(Some(one)).is_err() {
        unreachable!();
    }
}
