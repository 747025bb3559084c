ghost use Rattle.std.specs.Prelude.{◌≡◌, [], ◌∷◌, ◌++◌, ◌<◌, ◌^◌, ℕ, List, IfOk, IfErr, IfSome, IfNone};
ghost use Rattle.fleet_base.specs.Bytes.{IsNumber};
ghost use Rattle.report_text.specs.Reading.{spelled, AllFit, IsSpelled, AllSmall, IsSpelledSmall, Stops, BreaksOff, TakesNumber, HasNoNumber, TakesField, LacksField, Spells};

/// The numbers of a line that is these words and `N` numbers, each behind a space. None exactly
/// where the line is not.
pub fn numbers<const N: usize>(line: &[u8], words: &[u8]) -> Option<[u64; N]>
    ensures some { IfSome result (λ ns. AllFit ns × (line.now ≡ spelled words.now ns)) }
    ensures none { IfNone result (IsSpelled words.now N line.now → ⊥) }
{
    numbers_or_left(line, words).ok()
}

/// The same for numbers below 2^32.
pub fn small_numbers<const N: usize>(line: &[u8], words: &[u8]) -> Option<[u32; N]>
    requires { N < 2 ^ 32 }
    ensures some { IfSome result (λ ns. AllSmall ns × (line.now ≡ spelled words.now ns)) }
    ensures none { IfNone result (IsSpelledSmall words.now N line.now → ⊥) }
{
    let numbers = numbers::<N>(line, words)?;
    let mut small = [0; N];
    for (at, number) in numbers.iter().enumerate() {
        small[at] = u32::try_from(*number).ok()?;
    }
    Some(small)
}

/// The same numbers, or what is left of the line behind its longest front that begins such a line.
pub fn numbers_or_left<'a, const N: usize>(
    line: &'a [u8],
    words: &[u8],
) -> Result<[u64; N], &'a [u8]>
    ensures ok { IfOk result (λ ns. AllFit ns × (line.now ≡ spelled words.now ns)) }
    ensures err { IfErr result (λ left. Stops (IsSpelled words.now N) line.now left.now) }
{
    let mut numbers = [0; N];
    let mut rest = word(line, words)?;
    for number in numbers.iter_mut() {
        let (value, after) = field(rest)?;
        *number = value;
        rest = after;
    }
    if rest.is_empty() {
        Ok(numbers)
    } else {
        Err(rest)
    }
}

/// Reads a space and a number.
fn field(text: &[u8]) -> Result<(u64, &[u8]), &[u8]>
    ensures ok { IfOk result (λ x. TakesField text.now x.0 x.1.now) }
    ensures err { IfErr result (λ left. LacksField text.now left.now) }
{
    let digits = word(text, b" ")?;
    number(digits).ok_or(digits)
}

/// Reads a word, and gives what follows it, or what is left where the text leaves the word.
fn word<'a>(text: &'a [u8], word: &[u8]) -> Result<&'a [u8], &'a [u8]>
    ensures ok { IfOk result (λ rest. text.now ≡ word.now ++ rest.now) }
    ensures err { IfErr result (λ left. BreaksOff word.now text.now left.now) }
{
    for (at, byte) in word.iter().enumerate() {
        if at == text.len() || text[at] != *byte {
            return Err(&text[at..]);
        }
    }
    Ok(&text[word.len()..])
}

/// Reads the longest front that is a number, and gives what follows it.
fn number(text: &[u8]) -> Option<(u64, &[u8])>
    ensures some { IfSome result (λ x. TakesNumber text.now x.0 x.1.now) }
    ensures none { IfNone result (HasNoNumber text.now) }
{
    let mut value = None;
    for (at, byte) in text.iter().enumerate() {
        match with_digit(value, *byte) {
            Some(more) => value = Some(more),
            None => return Some((value?, &text[at..])),
        }
    }
    Some((value?, &text[text.len()..]))
}

/// The number whose digits are those of `value` and this one.
fn with_digit(value: Option<u64>, byte: u8) -> Option<u64>
    ensures some { IfSome result (λ n. (digits : List ℕ) →
        Spells value digits → IsNumber (digits ++ byte ∷ []) n) }
    ensures none { IfNone result ((digits : List ℕ) (n : ℕ) →
        Spells value digits → IsNumber (digits ++ byte ∷ []) n → ⊥) }
{
    if !byte.is_ascii_digit() {
        return None;
    }
    let digit = u64::from(byte - b'0');
    match value {
        None => Some(digit),
        Some(0) => None,
        Some(value) => value.checked_mul(10)?.checked_add(digit),
    }
}
