// Keeping an entry.
ghost use Rattle.std.specs.Prelude.{◌≡◌, ◌+◌, ◌<◌, ◌^◌, ℕ, List, length, IfErr, OnOk};
ghost use Rattle.fleet_base.specs.declared.geometry.PlannedVisit.{PlannedVisit};
ghost use Rattle.fleet_base.specs.Order.{Graph, graph_of};
ghost use Rattle.fleet_base.specs.State.{FleetState};
ghost use Rattle.fleet_base.specs.Rules.{IsFleetState};
ghost use Rattle.station_api.specs.Clock.{LeavesOnly};
ghost use Rattle.station_api.specs.Causes.{HasCause};
ghost use Rattle.journal_frame.specs.Frames.{frame_text};
ghost use Rattle.fleet_core.specs.Step.{Step};
ghost use Rattle.fleet_core.specs.Preparing.{IsPrepared};
ghost use Rattle.fleet_recovery.specs.Papers.{Papers};
ghost use Rattle.fleet_recovery.specs.Entries.{Enters};
ghost use Rattle.fleet_recovery.specs.Opening.{StandsWith, IsAtRest};
ghost use Rattle.fleet_serve.specs.Deciding.{HoldsEither};

use fleet_base::{Fleet, Text};
use fleet_core::{Entry, apply};
use fleet_journal::{Journal, JournalError};
use station_api::Station;

/// Appends the frame of an entry to the journal, and then makes the entry's step.
pub fn keep<T: Station>(
    fleet: &mut Fleet,
    journal: &mut Journal,
    station: &mut T,
    entry: &Entry,
    frame: &Text,
) -> Result<(), JournalError>
    requires entry { IsPrepared fleet.old entry.now }
    requires frame { (payload : List ℕ) × (frame.now ≡ frame_text payload) }
    requires few { length frame.now < 2 ^ 32 }
    requires room { journal.old.place + length frame.now + 1 < 2 ^ 64 }
    requires stands { T.tells → (routes : List (List PlannedVisit)) × (papers : Papers) × StandsWith routes papers journal.old fleet.old (T.clock station.old).seen }
    ensures steps { OnOk result ((g : Graph) (x' : FleetState) → IsFleetState g fleet.old → Step g fleet.old entry.now.report entry.now.switched entry.now.releases x' → fleet.new ≡ x') }
    ensures place { OnOk result (journal.new.place ≡ journal.old.place + length frame.now) }
    ensures stands { T.tells → OnOk result ((routes : List (List PlannedVisit)) (papers : Papers) (payload : List ℕ) (x' : FleetState) → frame.now ≡ frame_text payload → Enters (graph_of routes) fleet.old payload x' →
        StandsWith routes papers journal.old fleet.old (T.clock station.old).seen → StandsWith routes papers journal.new x' (T.clock station.new).seen) }
    ensures rests { T.tells → OnOk result ((routes : List (List PlannedVisit)) (papers : Papers) (payload : List ℕ) (x' : FleetState) → frame.now ≡ frame_text payload → Enters (graph_of routes) fleet.old payload x' →
        IsAtRest routes papers journal.old fleet.old (T.clock station.old) → IsAtRest routes papers journal.new x' (T.clock station.new)) }

    // At each moment a stop leaves sides that hold the state before the entry or after it.
    ensures any_moment { T.tells → (routes : List (List PlannedVisit)) (papers : Papers) (payload : List ℕ) (x' : FleetState) → frame.now ≡ frame_text payload → Enters (graph_of routes) fleet.old payload x' →
        IsAtRest routes papers journal.old fleet.old (T.clock station.old) → LeavesOnly (HoldsEither routes papers fleet.old x') (T.clock station.old) (T.clock station.new) }

    // Nothing is sent.
    ensures unsent { T.tells → (T.clock station.new).seen.sent ≡ (T.clock station.old).seen.sent }
    ensures same { IfErr result (λ _. fleet.new ≡ fleet.old) }
    ensures cause { HasCause (T.counts station.old) (T.counts station.new) result }
{
    journal.append(station, frame)?;
    apply(fleet, entry);
    Ok(())
}
