// The fields of a payload: big-endian numbers, and texts behind their lengths.
ghost use Rattle.std.specs.Prelude.{◌≡◌, ◌^◌, ◌<◌, ◌++◌, length, OnOk};
ghost use Rattle.std.specs.Int.{w32, w64};
ghost use Rattle.journal_frame.specs.Texts.{sized};
ghost use Rattle.journal_frame.specs.Reading.{Reads, number_at, text_at};

use crate::FrameError;
use fleet_base::Memory;

/// The number of four bytes at the front, and the bytes after it.
pub fn u32_at(bytes: &[u8]) -> Result<(u32, &[u8]), FrameError>
    ensures { Reads (λ x. (x.0, x.1.now)) result (number_at w32 bytes.now) }
{
    if bytes.len() < 4 {
        return Err(FrameError::NotInGrammar);
    }
    let (front, rest) = bytes.split_at(4);
    let number = u32::from_be_bytes([front[0], front[1], front[2], front[3]]);
    Ok((number, rest))
}

/// The number of eight bytes at the front, and the bytes after it.
pub fn u64_at(bytes: &[u8]) -> Result<(u64, &[u8]), FrameError>
    ensures { Reads (λ x. (x.0, x.1.now)) result (number_at w64 bytes.now) }
{
    if bytes.len() < 8 {
        return Err(FrameError::NotInGrammar);
    }
    let (front, rest) = bytes.split_at(8);
    let number = u64::from_be_bytes([
        front[0], front[1], front[2], front[3], front[4], front[5], front[6], front[7],
    ]);
    Ok((number, rest))
}

/// The text at the front, behind its length, and the bytes after it.
#[tactic(auto, unfolding(crate::specs::Reading::text_at))]
pub fn text_at(bytes: &[u8]) -> Result<(&[u8], &[u8]), FrameError>
    ensures { Reads (λ x. (x.0.now, x.1.now)) result (text_at bytes.now) }
{
    let (len, rest) = u32_at(bytes)?;
    let len = len as usize;
    if rest.len() < len {
        return Err(FrameError::NotInGrammar);
    }
    Ok(rest.split_at(len))
}

/// Appends bytes.
pub fn put(out: &mut Vec<u8>, bytes: &[u8]) -> Result<(), Memory>
    ensures { OnOk result (out.new.items ≡ out.old.items ++ bytes.now) }
{
    match out.extend_from_slice(bytes) {
        Ok(()) => Ok(()),
        Err(_) => Err(Memory),
    }
}

/// Appends a text behind its length.
pub fn put_text(out: &mut Vec<u8>, text: &[u8]) -> Result<(), Memory>
    requires { length text.now < 2 ^ 32 }
    ensures { OnOk result (out.new.items ≡ out.old.items ++ sized text.now) }
{
    put(out, &(text.len() as u32).to_be_bytes())?;
    put(out, text)
}
