// The line that is being read.
ghost use Rattle.std.specs.Prelude.{◌≡◌, ◌∷◌, ◌++◌, ◌≤◌, [], ℕ, List, length, OnOk, OnErr};
ghost use Rattle.fleet_serve.specs.Reading.{kept_of};

use fleet_base::{Memory, Text};

/// How many bytes of a line are kept. No line of a report is so long, so what a longer line ends with does not matter.
const KEPT: usize = 258;

/// Appends a byte to the part of a line that is kept.
pub fn push_kept(kept: &mut Text, byte: u8) -> Result<(), Memory>
    ensures ok { (line : List ℕ) → kept.old ≡ kept_of line → OnOk result (kept.new ≡ kept_of (line ++ byte ∷ [])) }
    ensures err { OnErr result (kept.new ≡ kept.old) }
    ensures short { length kept.old ≤ 258 → length kept.new ≤ 258 }
{
    if kept.as_slice().len() < KEPT {
        kept.push(byte)
    } else {
        Ok(())
    }
}
