ghost use Rattle.std.specs.Prelude.{◌≡◌, ◌++◌, ◌==◌, ◌^◌, ℕ, List, IfOk, IfSome, IfNone, position};
ghost use Rattle.fleet_base.specs.declared.order.PairId.{PairId};
ghost use Rattle.cert_tree.specs.Reading.{BeginsField, HasNoSpace, TakesNumber, ArePairFields, OnMalformed};

use crate::fault::LineFault;
use fleet_base::{PairId, PairList, read_number};
use std::alloc::Global;

/// What follows these bytes at the front of a text.
pub fn behind<'a>(text: &'a [u8], bytes: &[u8]) -> Option<&'a [u8]>
    ensures some { IfSome result (λ rest. text.now ≡ bytes.now ++ rest.now) }
    ensures none { IfNone result ((rest : List ℕ) → text.now ≡ bytes.now ++ rest → ⊥) }
{
    text.strip_prefix(bytes)
}

/// What stands before the first space of a text, and the rest.
fn word(text: &[u8]) -> (&[u8], &[u8])
    ensures parts { text.now ≡ result.0.now ++ result.1.now }
    ensures word { HasNoSpace result.0.now }
    ensures rest { BeginsField result.1.now }
{
    match first_space(text) {
        Some(end) => (&text[..end], &text[end..]),
        None => (text, &text[text.len()..]),
    }
}

fn first_space(text: &[u8]) -> Option<usize>
    ensures { result ≡ position (λ byte. byte == 32) text.now }
{
    text.iter().position(|byte| *byte == b' ')
}

/// The number behind the space that a text begins with, and the rest.
pub fn number(text: &[u8]) -> Option<(u64, &[u8])>
    ensures some { IfSome result (λ x. TakesNumber (2 ^ 64) text.now x.0 x.1.now) }
    ensures none { IfNone result ((n : ℕ) (rest : List ℕ) → TakesNumber (2 ^ 64) text.now n rest → ⊥) }
{
    let (digits, rest) = word(behind(text, b" ")?);
    Some((read_number(digits)?, rest))
}

/// The same for a number below 2^32.
pub fn small_number(text: &[u8]) -> Option<(u32, &[u8])>
    ensures some { IfSome result (λ x. TakesNumber (2 ^ 32) text.now x.0 x.1.now) }
    ensures none { IfNone result ((n : ℕ) (rest : List ℕ) → TakesNumber (2 ^ 32) text.now n rest → ⊥) }
{
    let (value, rest) = number(text)?;
    Some((u32::try_from(value).ok()?, rest))
}

/// The pairs whose count and numbers a text consists of, and which are so many at least.
pub fn pairs(alloc: Global, text: &[u8], least: usize) -> Result<PairList, LineFault>
    ensures read { IfOk result (ArePairFields least text.now) }
    ensures malformed { OnMalformed result ((pairs : List PairId) → ArePairFields least text.now pairs → ⊥) }
{
    let Some((count, mut rest)) = number(text) else {
        return Err(LineFault::Malformed);
    };
    let mut pairs = PairList::new(alloc);
    while !rest.is_empty() {
        let Some((pair, after)) = small_number(rest) else {
            return Err(LineFault::Malformed);
        };
        pairs.push(PairId(pair))?;
        rest = after;
    }
    let found = pairs.as_slice().len();
    if found as u64 == count && found >= least {
        Ok(pairs)
    } else {
        Err(LineFault::Malformed)
    }
}
