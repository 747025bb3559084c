// The numbers of the header.
ghost use Rattle.std.specs.Prelude.{◌≡◌, ◌≢◌, ◌+◌, ℕ, min, IfSome, IfNone};
ghost use Rattle.fleet_base.specs.Bytes.{numeral};
ghost use Rattle.fleet_base.specs.Limits.{span_limit};

use fleet_base::limits::SPAN;

/// The number that digits without a leading zero stand for, or one more than the limit for each larger one.
pub fn capped_number(digits: &[u8]) -> Option<u32>
    ensures some { IfSome result (λ value.
        (n : ℕ) × (digits.now ≡ numeral n) × (value ≡ min n (span_limit + 1))) }
    ensures none { IfNone result ((n : ℕ) → digits.now ≢ numeral n) }
{
    if digits.is_empty() {
        return None;
    }
    if digits[0] == b'0' && digits.len() > 1 {
        return None;
    }
    let mut value = 0;
    for digit in digits {
        if !digit.is_ascii_digit() {
            return None;
        }
        value = (10 * value + u32::from(*digit - b'0')).min(SPAN + 1);
    }
    Some(value)
}
