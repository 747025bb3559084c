ghost use Rattle.std.specs.Prelude.{◌≡◌, ◌++◌, ◌↔◌, ℕ, List, IsSome, IfSome, IfNone, IsTrue, OnOk, OnErr, decimal};
ghost use Rattle.fleet_base.specs.Bytes.{IsNumber, AppendsFront, HasSignOrLeadingZero, field, fields};

use crate::{Memory, Text};

/// Reads a number: decimal digits without a leading zero, with a value below 2^64.
pub fn read_number(text: &[u8]) -> Option<u64>
    ensures value { IfSome result (IsNumber text.now) }
    ensures none { IfNone result ((n : ℕ) → IsNumber text.now n → ⊥) }
{
    if has_sign_or_leading_zero(text) {
        return None;
    }
    match str::from_utf8(text) {
        Ok(digits) => match digits.parse() {
            Ok(value) => Some(value),
            Err(_) => None,
        },
        Err(_) => None,
    }
}

/// Whether the text begins with what the parser of std takes and a number has not.
fn has_sign_or_leading_zero(text: &[u8]) -> bool
    ensures { IsTrue result ↔ HasSignOrLeadingZero text.now }
{
    match text {
        [b'+', ..] | [b'0', _, ..] => true,
        _ => false,
    }
}

/// Appends the digits of a number; for want of memory some of them are missing at the end.
pub fn push_number(out: &mut Text, value: u64) -> Result<(), Memory>
    ensures ok { OnOk result (out.new ≡ out.old ++ decimal value) }
    ensures err { OnErr result (AppendsFront out.old out.new (decimal value)) }
{
    let digit = b'0' + (value % 10) as u8;
    if value < 10 {
        return out.push(digit);
    }
    push_number(out, value / 10)?;
    out.push(digit)
}

/// Appends a space and a number; for want of memory some of them is missing at the end.
pub fn push_field(out: &mut Text, value: u64) -> Result<(), Memory>
    ensures ok { OnOk result (out.new ≡ out.old ++ field value) }
    ensures err { OnErr result (AppendsFront out.old out.new (field value)) }
{
    out.push(b' ')?;
    push_number(out, value)
}

/// Appends numbers, each behind a space; for want of memory some of them are missing at the end.
pub fn push_fields(out: &mut Text, values: &[u64]) -> Result<(), Memory>
    ensures ok { OnOk result (out.new ≡ out.old ++ fields values.now) }
    ensures err { OnErr result (AppendsFront out.old out.new (fields values.now)) }
{
    for value in values {
        push_field(out, *value)?;
    }
    Ok(())
}
