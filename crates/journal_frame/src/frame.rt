// Frames as they are written.
ghost use Rattle.std.specs.Prelude.{◌≡◌, ◌^◌, ◌<◌, length, IfOk};
ghost use Rattle.journal_frame.specs.Frames.{frame_text};

use crate::fields::{put, put_text};
use fleet_base::{Memory, Text};
use std::alloc::Global;

/// The text that one write puts for a payload: its length in four bytes, the payload, and one byte 0, which is the
/// closed gate of the next frame.
#[tactic(auto, unfolding(crate::specs::Frames::framed))]
pub fn framed(alloc: Global, payload: &Text) -> Result<Text, Memory>
    requires { length payload.now < 2 ^ 32 }
    ensures { IfOk result (λ text. text ≡ frame_text payload.now) }
{
    let mut out = Vec::new(alloc);
    put_text(&mut out, payload.as_slice())?;
    put(&mut out, &[0])?;
    Ok(Text::from_vec(out))
}
