ghost use Rattle.std.specs.Prelude.{◌≡◌, [], ◌∷◌, ◌++◌, OnOk, OnErr};
ghost use Rattle.fleet_base.specs.Bytes.{AppendsFront};
ghost use Rattle.report_text.specs.Reading.{spelled};

use fleet_base::{Memory, Text, push_bytes, push_fields};

/// Appends the line of these words and numbers and its line end. For want of memory some of it is
/// missing at the end.
pub fn push_line(out: &mut Text, words: &[u8], numbers: &[u64]) -> Result<(), Memory>
    ensures ok { OnOk result (out.new ≡ out.old ++ (spelled words.now numbers.now ++ 10 ∷ [])) }
    ensures err { OnErr result
        (AppendsFront out.old out.new (spelled words.now numbers.now ++ 10 ∷ [])) }
{
    push_bytes(out, words)?;
    push_fields(out, numbers)?;
    out.push(b'\n')
}
