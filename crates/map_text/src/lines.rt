// The lines of a text, one after another.
ghost use Rattle.std.specs.Prelude.{◌≡◌, ◌≢◌, ◌∷◌, IfSome, IfNone, slice_get};
ghost use Rattle.fleet_base.specs.Bytes.{file_lines};

use fleet_base::first_line;

/// The text after the first line, if that line is this one.
pub fn skip_line<'a>(bytes: &'a [u8], wanted: &[u8]) -> Option<&'a [u8]>
    ensures some { IfSome result (λ rest. file_lines bytes.now ≡ wanted.now ∷ file_lines rest.now) }
    ensures none { IfNone result (slice_get (file_lines bytes.now) 0 ≢ Some wanted.now) }
{
    let (line, rest) = first_line(bytes)?;
    if line == wanted { Some(rest) } else { None }
}
