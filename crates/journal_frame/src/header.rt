// Headers: what a journal begins with.
ghost use Rattle.std.specs.Prelude.{◌≡◌, ◌^◌, ◌<◌, length, None, IfOk, MatchResult};
ghost use Rattle.journal_frame.specs.declared.header.HeaderParts.{HeaderParts as Parts};
ghost use Rattle.journal_frame.specs.Headers.{IsHeader, IsAllowed, parts_of};
ghost use Rattle.journal_frame.specs.Reading.{Reads, after_magic, header_of};

use crate::FrameError;
use crate::fields::{put, put_text, text_at, u64_at};
use fleet_base::{Fleet, Memory, Text};
use std::alloc::Global;

/// The first bytes of a header, and the version of its format.
const MAGIC: &[u8] = b"FLET\x01";

/// What a journal begins with: its generation, the map and the plan byte by byte, and the state of
/// the fleet if that is not the first one of the plan.
#[derive(Debug, Drop)]
pub struct Header<'a> {
    pub generation: u64,
    pub map: &'a [u8],
    pub plan: &'a [u8],
    pub summary: Option<&'a Fleet>,
}

/// A header that was read, with the bytes of its summary if it has one.
#[derive(Debug, Drop)]
pub struct HeaderParts {
    pub generation: u64,
    pub map: Text,
    pub plan: Text,
    pub summary: Option<Text>,
}

/// The payload of a header. All numbers in it are big-endian.
///
/// It is `FLET`, the version 1 as one byte, the generation in eight bytes, the length of the map in
/// four bytes, the map, the length of the plan in four bytes, the plan, and one byte 0.
pub fn header_bytes(alloc: Global, header: &Header<'_>) -> Result<Text, Memory>
    requires allowed { IsAllowed header.now.generation header.now.summary }
    requires map { length header.now.map.now < 2 ^ 32 }
    requires plan { length header.now.plan.now < 2 ^ 32 }
    ensures { IfOk result (λ text. IsHeader text (parts_of header.now)) }
{
    let mut out = Vec::new(alloc);
    put(&mut out, MAGIC)?;
    put(&mut out, &header.generation.to_be_bytes())?;
    put_text(&mut out, header.map)?;
    put_text(&mut out, header.plan)?;
    put(&mut out, &[0])?;
    Ok(Text::from_vec(out))
}

/// The header that has this payload.
pub fn read_header(alloc: Global, payload: &[u8]) -> Result<HeaderParts, FrameError>
    // What is read has this payload.
    ensures read { IfOk result (λ h. IsHeader payload.now h) }
    // What has this payload is read, unless memory runs out.
    ensures only { (h : Parts) → IsHeader payload.now h →
        MatchResult result (λ read. read ≡ h) (λ e. e ≡ FrameError.Memory) }
{
    let (generation, map, plan) = fields(payload)?;
    Ok(HeaderParts {
        generation,
        map: Text::from_slice(alloc, map)?,
        plan: Text::from_slice(alloc, plan)?,
        summary: None,
    })
}

/// Generation, map and plan of a header, all of the payload.
#[tactic(auto, unfolding(crate::specs::Reading::header_of))]
fn fields(payload: &[u8]) -> Result<(u64, &[u8], &[u8]), FrameError>
    ensures { Reads (λ x. record { generation = x.0; map = x.1.now; plan = x.2.now; summary = None }) result (header_of payload.now) }
{
    let rest = behind_magic(payload)?;
    let (generation, rest) = u64_at(rest)?;
    let (map, rest) = text_at(rest)?;
    let (plan, rest) = text_at(rest)?;
    if generation != 1 || rest.len() != 1 || rest[0] != 0 {
        return Err(FrameError::NotInGrammar);
    }
    Ok((generation, map, plan))
}

/// The bytes behind the magic ones.
#[tactic(auto, unfolding(crate::specs::Reading::after_magic))]
fn behind_magic(bytes: &[u8]) -> Result<&[u8], FrameError>
    ensures { Reads (λ x. x.now) result (after_magic bytes.now) }
{
    if !bytes.starts_with(MAGIC) {
        return Err(FrameError::NotInGrammar);
    }
    Ok(&bytes[MAGIC.len()..])
}
