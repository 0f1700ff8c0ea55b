// What a try to store a value comes to, before all chunks were tried.
ghost use Rattle.std.specs.Prelude.{◌≡◌};
ghost use Rattle.sh_grown.specs.Inserts.{tried_after, tried_by};

use sh_value::Refusal;

/// What a try to store a value came to, if memory was not refused.
#[derive(Clone, Copy)]
pub(crate) enum Tried {
    /// It is stored under this key.
    Stored(u64),
    /// No shard had room for it. Whether the caller owned one of them, or had to keep another: if not, each has another
    /// owner.
    Refused(bool),
}

// What a try returns whose insert or move was refused.
pub(crate) fn tried_by(why: Refusal) -> Result<Tried, Refusal>
    ensures { result ≡ tried_by why }
{
    match why {
        Refusal::Memory => Err(Refusal::Memory),
        Refusal::Full | Refusal::Waiting => Ok(Tried::Refused(true)),
        _ => Ok(Tried::Refused(false)),
    }
}

// What this try and those before it return together, which stored nothing. Whether the caller owned a shard in one of
// those is said by `owned`.
#[inline(always)]
pub(crate) fn tried_after(owned: bool, tried: Result<Tried, Refusal>) -> Result<Tried, Refusal>
    ensures { result ≡ tried_after owned tried }
{
    match tried {
        Ok(Tried::Refused(here)) => Ok(Tried::Refused(owned || here)),
        Ok(Tried::Stored(key)) => Ok(Tried::Stored(key)),
        Err(why) => Err(why),
    }
}
