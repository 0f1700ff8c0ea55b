//! Keys as a script has them: with the tag of the header, if it has one.
ghost use Rattle.std.specs.Prelude.{◌≡◌, ◌^◌, ◌<◌, IfSome};
ghost use Rattle.script_output.specs.Keys.{shown, key_shown};

use sh_key::Tagged;

/// A key of the heap as a script has it: with the tag, if there is one.
pub fn shown(tag: Option<u8>, key: u64) -> u64
    requires { IfSome tag (λ _. key < 2 ^ 52) }
    ensures { result ≡ shown tag key }
{
    match tag {
        Some(tag) => Tagged::tag(key, tag),
        None => key,
    }
}

/// The key of the heap that is written as this number. With a tag, a number without it is no key.
#[tactic(auto, using(crate::proofs::KeyLemmas::untags, crate::proofs::KeyLemmas::untags_none))]
pub fn key_shown(tag: Option<u8>, number: u64) -> Option<u64>
    ensures { result ≡ key_shown tag number }
{
    let Some(tag) = tag else {
        return Some(number);
    };
    match Tagged::untag(number) {
        Some((found, key)) if found == tag => Some(key),
        _ => None,
    }
}
