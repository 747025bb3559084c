// A journal that is not opened.
ghost use Rattle.std.specs.Prelude.{◌≡◌, ◌∷◌, ◌++◌, [], IfOk};
ghost use Rattle.fleet_base.specs.Bytes.{field};
ghost use Rattle.station_api.specs.Causes.{Counted};
ghost use Rattle.station_api.specs.Disk.{IsSending};
ghost use Rattle.fleet_serve.specs.Spans.{span, sent_over};
ghost use Rattle.fleet_cli.specs.Runs.{HasFailed};
ghost use Rattle.fleet_cli.specs.Refusing.{SaysRefusal, IsRefusedSo, HasNoLine};

use crate::saying::say;
use fleet_base::{Memory, Status, Text, push_bytes, push_field};
use fleet_journal::JournalError;
use fleet_recovery::RecoverError;
use station_api::Station;
use std::alloc::Global;

/// Ends a run whose journal was not opened, with the line of a refusal if it has one.
pub fn refuse<T: Station>(alloc: Global, station: &mut T, error: &RecoverError) -> Status
    ensures refused { IsRefusedSo error.now (sent_over (span T.tells (T.clock station.old) (T.clock station.new))) (HasFailed (T.counts station.old) (T.counts station.new)) result }
    ensures sides { T.tells → IsSending (T.clock station.old) (T.clock station.new) }
    ensures silent { HasNoLine error.now → station.new ≡ station.old }
    ensures counted { Counted (T.counts station.old) (T.counts station.new) }
{
    match error {
        RecoverError::Journal(JournalError::NotJournal) => {
            say(station, b"fault journal\n", Status::Journal)
        }
        RecoverError::Journal(JournalError::BadRecord { number }) => {
            say_number(alloc, station, b"fault record", *number)
        }
        RecoverError::OtherPlan { at } => say_number(alloc, station, b"fault other", *at),
        RecoverError::Journal(JournalError::Station) => Status::StationFault,
        // A side has room for the header of every plan that is read.
        RecoverError::Journal(JournalError::Full { .. } | JournalError::Memory)
        | RecoverError::Memory => Status::Memory,
    }
}

/// Sends a line of words and a number, which refuses the journal.
fn say_number<T: Station>(alloc: Global, station: &mut T, words: &[u8], number: u64) -> Status
    ensures refused { SaysRefusal (words.now ++ field number ++ 10 ∷ []) (sent_over (span T.tells (T.clock station.old) (T.clock station.new))) (HasFailed (T.counts station.old) (T.counts station.new)) result }
    ensures sides { T.tells → IsSending (T.clock station.old) (T.clock station.new) }
    ensures counted { Counted (T.counts station.old) (T.counts station.new) }
{
    match number_text(alloc, words, number) {
        Ok(text) => say(station, text.as_slice(), Status::Journal),
        Err(_) => Status::Memory,
    }
}

/// A line of words and a number.
fn number_text(alloc: Global, words: &[u8], number: u64) -> Result<Text, Memory>
    ensures { IfOk result (λ text. text ≡ words.now ++ field number ++ 10 ∷ []) }
{
    let mut text = Text::new(alloc);
    push_bytes(&mut text, words)?;
    push_field(&mut text, number)?;
    text.push(b'\n')?;
    Ok(text)
}
