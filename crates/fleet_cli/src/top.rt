// The top call.
ghost use Rattle.std.specs.Prelude.{◌≡◌, ℕ, List, map, string_bytes};
ghost use Rattle.fleet_base.specs.declared.geometry.PlannedVisit.{PlannedVisit};
ghost use Rattle.station_api.specs.Causes.{Counted};
ghost use Rattle.fleet_recovery.specs.Papers.{Papers};
ghost use Rattle.fleet_serve.specs.Told.{told};
ghost use Rattle.fleet_serve.specs.Spans.{span};
ghost use Rattle.command_words.specs.declared.command.Command.{Command};
ghost use Rattle.fleet_cli.specs.Due.{IsAsked, IsMade};
ghost use Rattle.fleet_cli.specs.Ends.{call, EndsAs, MayOpen, IsSmooth, SendsIfMemory};
ghost use Rattle.fleet_cli.specs.Runs.{HasFailed, talk};
ghost use Rattle.fleet_cli.specs.Papers.{files_of, failed_at};

use crate::saying::say;
use crate::session::run;
use crate::task::{Task, task_of};
use fleet_base::Status;
use station_api::{Shelf, Source, Station};
use std::alloc::Global;

/// All that the program does. `check MAP PLAN` sends `sound ROBOTS VISITS PAIRS` if the plan can be carried out on the map.
/// `run MAP PLAN JOURNAL [--budget N] [--quiet]`, with N from 0 to 4,096 and usually 128, carries it out: it opens the journal, or makes it, sends `ready N` and every release that has not
/// arrived, and answers each report line. A plan that cannot be carried out has the line of its first fault, a journal that is
/// not one of this plan the line that says so, and other words have `fault usage`.
///
/// `gen SEED [--plan]` sends the canonical text of the map of a generated fleet, or of its plan. `plan MAP SCEN [--robots N]
/// [--horizon H]`, with N from 1 to 256 and usually 32, and H from 1 to 4,096 and usually 1,024, sends that of the plan in turn for
/// the first N tasks of the scenario, or the line that says why there is none.
///
/// The words do not contain the program's own name. The answer is how the program ends.
pub fn fleet_main<H: Shelf, S: Source, T: Station>(
    alloc: Global,
    words: &[String],
    shelf: &mut H,
    source: &mut S,
    station: &mut T,
) -> Status
    // How the call ends, what it has taken and what it has sent, and what a stop at each moment of it leaves.
    ensures ends { EndsAs (call (map (λ w. string_bytes w) words.now) (files_of H.tells (H.file shelf.old)) (failed_at H.tells (H.asked shelf.new) (HasFailed (H.counts shelf.old) (H.counts shelf.new)))
        (talk (told S.tells (S.left source.old) (S.left source.new)) (S.last source.new) (HasFailed (S.counts source.old) (S.counts source.new))
        (span T.tells (T.clock station.old) (T.clock station.new)) (HasFailed (T.counts station.old) (T.counts station.new)))) result }

    // A command on a sound plan, over a shelf that tells its files, is not refused where nothing fails, nor is its journal if
    // the sides stand for a state.
    ensures complete { (command : Command) (papers : Papers) (routes : List (List PlannedVisit)) → H.tells → IsAsked (files_of H.tells (H.file shelf.old)) (map (λ w. string_bytes w) words.now) command papers routes
        → MayOpen command routes papers T.tells (T.clock station.old).seen
        → (HasFailed (H.counts shelf.old) (H.counts shelf.new) → ⊥) → (HasFailed (S.counts source.old) (S.counts source.new) → ⊥) → (HasFailed (T.counts station.old) (T.counts station.new) → ⊥)
        → IsSmooth command result }

    // Where the words and the files, which the shelf tells, ask for a text, and nothing fails, that text is sent, unless memory runs out.
    ensures made { (text : List ℕ) → H.tells → IsMade (files_of H.tells (H.file shelf.old)) (map (λ w. string_bytes w) words.now) text
        → (HasFailed (H.counts shelf.old) (H.counts shelf.new) → ⊥) → (HasFailed (T.counts station.old) (T.counts station.new) → ⊥)
        → SendsIfMemory (span T.tells (T.clock station.old) (T.clock station.new)) text result }

    // The counts never fall.
    ensures shelf { Counted (H.counts shelf.old) (H.counts shelf.new) }
    ensures source { Counted (S.counts source.old) (S.counts source.new) }
    ensures station { Counted (T.counts station.old) (T.counts station.new) }
{
    match task_of(alloc, words, shelf) {
        Ok(Task::Say(reply)) => say(station, reply.text.as_slice(), reply.status),
        Ok(
            Task::Serve {
                papers,
                journal,
                budget,
                quiet,
            },
        ) => run(alloc, &papers, journal, budget, quiet, source, station),
        Err(_) => Status::Memory,
    }
}
