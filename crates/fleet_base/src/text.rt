ghost use Rattle.std.specs.Prelude.{◌≡◌, ◌<◌, ◌≤◌, ◌==◌, ◌∷◌, ◌++◌, [], length, IfNone, IfSome, OnOk, OnErr};
ghost use Rattle.std.specs.List.{position, after_first};
ghost use Rattle.fleet_base.specs.Bytes.{AppendsFront, file_lines, without_cr};

use crate::{Memory, Text};

/// Appends bytes; for want of memory some of them are missing at the end.
pub fn push_bytes(out: &mut Text, bytes: &[u8]) -> Result<(), Memory>
    ensures ok { OnOk result (out.new ≡ out.old ++ bytes.now) }
    ensures err { OnErr result (AppendsFront out.old out.new bytes.now) }
{
    for byte in bytes {
        out.push(*byte)?;
    }
    Ok(())
}

/// The first line of a file, without its line end, and the text behind it. None where there is no line.
pub fn first_line(text: &[u8]) -> Option<(&[u8], &[u8])>
    ensures some { IfSome result (λ next. file_lines text.now ≡ next.0.now ∷ file_lines next.1.now) }
    ensures none { IfNone result (file_lines text.now ≡ []) }
    ensures line { IfSome result (λ next. length next.0.now ≤ length text.now) }
    ensures behind { IfSome result (λ next. next.1.now ≡ after_first (λ byte. byte == 10) text.now) }
    ensures rest { IfSome result (λ next. length next.1.now < length text.now) }
{
    if text.is_empty() {
        return None;
    }
    match line_end(text) {
        Some(end) => Some((without_return(&text[..end]), &text[end + 1..])),
        None => Some((without_return(text), &text[text.len()..])),
    }
}

/// Where the first LF of a text stands.
pub fn line_end(text: &[u8]) -> Option<usize>
    ensures { result ≡ position (λ byte. byte == 10) text.now }
{
    text.iter().position(|byte| *byte == b'\n')
}

/// A line without the CR at its end, if there is one.
pub fn without_return(line: &[u8]) -> &[u8]
    ensures { result.now ≡ without_cr line.now }
{
    match line.strip_suffix(b"\r") {
        Some(front) => front,
        None => line,
    }
}
