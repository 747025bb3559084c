ghost use Rattle.std.specs.Prelude.{◌≡◌, ◌<◌, ◌∷◌, [], length, IfNone, IfSome};
ghost use Rattle.fleet_base.specs.Bytes.{pieces_of, whole_lines, last_piece};

use fleet_base::{line_end, without_return};

/// The first line of a text, without its line end, and the text behind it. None where the text has no line end.
pub fn next_line(text: &[u8]) -> Option<(&[u8], &[u8])>
    ensures none { IfNone result (pieces_of text.now ≡ text.now ∷ []) }
    ensures lines { IfSome result (λ next. whole_lines text.now ≡ next.0.now ∷ whole_lines next.1.now) }
    ensures last { IfSome result (λ next. last_piece (pieces_of text.now) ≡ last_piece (pieces_of next.1.now)) }
    ensures rest { IfSome result (λ next. length next.1.now < length text.now) }
{
    match line_end(text) {
        Some(end) => Some((without_return(&text[..end]), &text[end + 1..])),
        None => None,
    }
}
