// Laws over the definitions. Each function does nothing: its contract is the law.
ghost use Rattle.std.specs.Prelude.{ℕ, List, [], Option, ◌≡◌, ◌⊎◌, ◌<◌, ◌^◌, ◌∷◌, Contains};
ghost use Rattle.fleet_base.specs.declared.geometry.PlannedVisit.{PlannedVisit};
ghost use Rattle.fleet_cli.specs.declared.fault.Fault.{Fault};
ghost use Rattle.command_words.specs.declared.command.Command.{Command};
ghost use Rattle.fleet_cli.specs.Causes.{IsCause};
ghost use Rattle.fleet_cli.specs.Due.{IsAsked, IsMade, IsDue};
ghost use Rattle.fleet_base.specs.Plan.{AreRoutes};
ghost use Rattle.fleet_base.specs.World.{World, Event, Run, NoCollision};
ghost use Rattle.journal_frame.specs.Entries.{Accepted};
ghost use Rattle.fleet_serve.specs.declared.session.Settings.{Settings};
ghost use Rattle.fleet_base.specs.Bytes.{whole_lines, text_of_lines};
ghost use Rattle.fleet_base.specs.Order.{graph_of};
ghost use Rattle.fleet_base.specs.Release.{IsFirstStateAhead};
ghost use Rattle.fleet_base.specs.State.{FleetState, IsWindow};
ghost use Rattle.report_text.specs.declared.answer.Answer.TheVariants.{Done};
ghost use Rattle.report_text.specs.AnswerLine.{answer_line};
ghost use Rattle.fleet_serve.specs.Lines.{greeting_of};
ghost use Rattle.fleet_cli.specs.Lives.{SessionMade, MayBegin, IsLife, IsBeside, IsAnswered, IsEverAnswered, HoldsAs, IsStateOf, IsStateAfter, AreAmong, sent_of};
ghost use Rattle.fleet_recovery.specs.Papers.{Papers};
ghost use Rattle.fleet_base.specs.declared.status.Status.{Status};
ghost use Rattle.station_api.specs.Disk.{IsSending};
ghost use Rattle.fleet_recovery.specs.Image.{Image, IsImage, StandsFor};
ghost use Rattle.fleet_serve.specs.Told.{told, Takes};
ghost use Rattle.fleet_serve.specs.Spans.{span};
ghost use Rattle.fleet_cli.specs.Runs.{HasFailed, HasMeaning, talk, RunEnds, IsRefusal};
ghost use Rattle.fleet_cli.specs.Ends.{call, IsTextCall, EndsAs};
ghost use Rattle.fleet_cli.specs.Papers.{files_of, failed_at, nowhere};
ghost use Rattle.fleet_cli.specs.Sessions.{IsSession, IsAnotherCommand, AllStand, KeepsSides, IsSeen, AreSeen, MayGoOn, HasEmptySides, Joins, session_of};

use station_api::{Shelf, Source, Station};

/// Over files that are told, a plan that is sound is not refused, unless the shelf failed.
pub fn a_sound_plan_is_not_refused()
    ensures { (file : List ℕ → Option (List ℕ)) (words : List (List ℕ)) (command : Command) (papers : Papers) (routes : List (List PlannedVisit)) (fault : Fault) →
        IsAsked (files_of (Unit {0}) file) words command papers routes → IsCause (files_of (Unit {0}) file) nowhere words fault → ⊥ }
{}

/// Over files that are told, words that ask for the text of a generated fleet or of a plan are not refused, unless the shelf
/// failed.
pub fn what_is_made_is_not_refused()
    ensures { (file : List ℕ → Option (List ℕ)) (words : List (List ℕ)) (text : List ℕ) (fault : Fault) →
        IsMade (files_of (Unit {0}) file) words text → IsCause (files_of (Unit {0}) file) nowhere words fault → ⊥ }
{}

/// Over files that are told, words ask for one text at most.
pub fn words_ask_for_one_text()
    ensures { (file : List ℕ → Option (List ℕ)) (words : List (List ℕ)) (text other : List ℕ) →
        IsMade (files_of (Unit {0}) file) words text → IsMade (files_of (Unit {0}) file) words other → text ≡ other }
{}

/// A new journal opens: for each window there is a life of one session that has sent the greeting of the first state.
pub fn a_new_journal_opens()
    ensures { (routes : List (List PlannedVisit)) (settings : Settings) (window : ℕ) (x : FleetState) → IsWindow window → IsFirstStateAhead (graph_of routes) window x → (s : SessionMade) × (s.settings ≡ settings) × IsLife routes (s ∷ []) × (sent_of s ≡ text_of_lines (greeting_of routes x)) }
{}

/// In every world beside a life whose reports are true, no two robots occupy one cell, at any point. A life may end at any event,
/// so this holds of each moment of each of its sessions.
pub fn no_collision_beside_a_life()
    ensures { (routes : List (List PlannedVisit)) → AreRoutes routes → (s : SessionMade) (earlier : List SessionMade) → IsLife routes (s ∷ earlier) → (w : World) → IsBeside routes (s ∷ earlier) w → NoCollision routes w }
{}

/// Where a session may begin, each report that was ever answered is held, as the number that the answer gave it and with the pairs
/// that were switched for it.
pub fn what_was_answered_is_held()
    ensures { (routes : List (List PlannedVisit)) → AreRoutes routes → (life : List SessionMade) → IsLife routes life → (x : FleetState) (held : List Accepted) → MayBegin routes life x held
        → (n : ℕ) (accepted : Accepted) → IsEverAnswered life n accepted → HoldsAs held n accepted }
{}

/// A session begins in a state of the session before, or in one in which that session might have begun.
pub fn a_session_begins_where_the_last_stood()
    ensures { (routes : List (List PlannedVisit)) (s : SessionMade) (before : SessionMade) (earlier : List SessionMade) → IsLife routes (s ∷ before ∷ earlier)
        → IsStateOf before s.start.state s.held ⊎ MayBegin routes earlier s.start.state s.held }
{}

/// Each `ok` line that a session sends answers a report that it accepted.
pub fn an_ok_line_answers_a_report()
    ensures { (routes : List (List PlannedVisit)) → AreRoutes routes → (s : SessionMade) (earlier : List SessionMade) → IsLife routes (s ∷ earlier)
        → (n : ℕ) → n < 2 ^ 64 → Contains (whole_lines (sent_of s)) (answer_line (Done n)) → (accepted : Accepted) × IsAnswered s n accepted }
{}

/// Where a session may begin, the state is the one to which the entries that it holds lead from the first state of the plan.
pub fn a_state_is_that_of_its_entries()
    ensures { (routes : List (List PlannedVisit)) (life : List SessionMade) → IsLife routes life → (x : FleetState) (held : List Accepted) → MayBegin routes life x held → IsStateAfter routes held x }
{}

/// Robots that also read texts of other commands, which begin no line with `release`, move as if they had not. So a life goes on
/// across a call of another command: what such a call sends stands in no mark, since a mark has the bytes of its own session alone.
pub fn other_commands_move_no_robot()
    ensures { (routes : List (List PlannedVisit)) (texts more : List (List ℕ)) → AreAmong more texts → (w : World) (es : List Event) (w' : World) → Run routes more w es w' → Run routes texts w es w' }
{}

/// A run over sides that stand for a state is a session, whatever its status: over the first whole lines of what it has taken.
pub fn a_run_is_a_session<S: Source, T: Station>(
    source: &S,
    source_then: &S,
    station: &T,
    station_then: &T,
)
    ensures { (routes : List (List PlannedVisit)) → AreRoutes routes → (papers : Papers) (settings : Settings) (end : Status) → RunEnds routes papers settings (talk (told S.tells (S.left source.now) (S.left source_then.now)) (S.last source_then.now) (HasFailed (S.counts source.now) (S.counts source_then.now))
        (span T.tells (T.clock station.now) (T.clock station_then.now)) (HasFailed (T.counts station.now) (T.counts station_then.now))) end
        → T.tells → (x : FleetState) → StandsFor routes papers (T.clock station.now).seen x → (taken : List ℕ) × Takes (told S.tells (S.left source.now) (S.left source_then.now)) taken × IsSession routes papers settings (span T.tells (T.clock station.now) (T.clock station_then.now)) taken }
{}

/// A run over sides that mean a refusal leaves both as they are, for a stop too, whatever its status.
pub fn a_refused_journal_stays<S: Source, T: Station>(
    source: &S,
    source_then: &S,
    station: &T,
    station_then: &T,
)
    ensures { (routes : List (List PlannedVisit)) → AreRoutes routes → (papers : Papers) (settings : Settings) (end : Status) → RunEnds routes papers settings (talk (told S.tells (S.left source.now) (S.left source_then.now)) (S.last source_then.now) (HasFailed (S.counts source.now) (S.counts source_then.now))
        (span T.tells (T.clock station.now) (T.clock station_then.now)) (HasFailed (T.counts station.now) (T.counts station_then.now))) end
        → T.tells → (image : Image) → IsRefusal image → IsImage routes papers (T.clock station.now).seen image → IsSending (T.clock station.now) (T.clock station_then.now) }
{}

/// A call that says one text keeps the sides, so it is one of another command in a life, and what it sends begins no line with
/// `release`.
pub fn a_call_with_one_text_is_another_command<H: Shelf, S: Source, T: Station>(
    shelf: &H,
    shelf_then: &H,
    source: &S,
    source_then: &S,
    station: &T,
    station_then: &T,
)
    ensures { (words : List (List ℕ)) (end : Status) → IsTextCall (call words (files_of H.tells (H.file shelf.now)) (failed_at H.tells (H.asked shelf_then.now) (HasFailed (H.counts shelf.now) (H.counts shelf_then.now))) (talk (told S.tells (S.left source.now) (S.left source_then.now)) (S.last source_then.now) (HasFailed (S.counts source.now) (S.counts source_then.now))
        (span T.tells (T.clock station.now) (T.clock station_then.now)) (HasFailed (T.counts station.now) (T.counts station_then.now)))) end
        → T.tells → IsAnotherCommand (T.clock station.now) (T.clock station_then.now) }
{}

/// Every call is a session or one of another command: a run over sides that stand for a state is a session over what it has taken, and
/// one over sides that mean a refusal says at most one line, as every call does that is no run.
pub fn a_call_is_a_session_or_another_command<H: Shelf, S: Source, T: Station>(
    shelf: &H,
    shelf_then: &H,
    source: &S,
    source_then: &S,
    station: &T,
    station_then: &T,
)
    ensures { (words : List (List ℕ)) (end : Status) → EndsAs (call words (files_of H.tells (H.file shelf.now)) (failed_at H.tells (H.asked shelf_then.now) (HasFailed (H.counts shelf.now) (H.counts shelf_then.now))) (talk (told S.tells (S.left source.now) (S.left source_then.now)) (S.last source_then.now) (HasFailed (S.counts source.now) (S.counts source_then.now))
        (span T.tells (T.clock station.now) (T.clock station_then.now)) (HasFailed (T.counts station.now) (T.counts station_then.now)))) end
        → T.tells → ((command : Command) (papers : Papers) (routes : List (List PlannedVisit)) → IsAsked (files_of H.tells (H.file shelf.now)) words command papers routes → HasMeaning routes papers (T.clock station.now).seen)
        → ((papers : Papers) × (routes : List (List PlannedVisit)) × (settings : Settings) × (taken : List ℕ) × Takes (told S.tells (S.left source.now) (S.left source_then.now)) taken × IsSession routes papers settings (span T.tells (T.clock station.now) (T.clock station_then.now)) taken)
        ⊎ IsAnotherCommand (T.clock station.now) (T.clock station_then.now) }
{}

/// Two empty sides begin a life.
pub fn empty_sides_begin_a_life()
    ensures { (routes : List (List PlannedVisit)) (papers : Papers) → MayGoOn routes papers [] HasEmptySides }
{}

/// A call that is a session, on what a life may have left, is the next session of that life, with any marks of what stops in it
/// may have left; and what it leaves may begin the session after it.
pub fn a_call_joins_a_life<T: Station>(old: &T, new: &T)
    ensures { (routes : List (List PlannedVisit)) → AreRoutes routes → (papers : Papers) (settings : Settings) (bytes : List ℕ) (call : IsSession routes papers settings (span T.tells (T.clock old.now) (T.clock new.now)) bytes)
        → T.tells → (earlier : List SessionMade) → MayGoOn routes papers earlier (T.clock old.now).may_leave
        → (first : FleetState) (events : List Event) → IsSeen routes papers (T.clock old.now) (T.clock new.now) (record { state = first; sent = [] }) → AreSeen routes papers (T.clock old.now) (T.clock new.now) [] events
        → (held : List Accepted) × Joins routes papers (T.clock old.now) (T.clock new.now) earlier (session_of settings call.start call.turns held first events) }
{}

/// At each moment of a session the sides stand for a state, if they did as it began.
pub fn a_session_keeps_a_state<T: Station>(old: &T, new: &T)
    ensures { (routes : List (List PlannedVisit)) (papers : Papers) (settings : Settings) (bytes : List ℕ) → IsSession routes papers settings (span T.tells (T.clock old.now) (T.clock new.now)) bytes
        → T.tells → AllStand routes papers (T.clock old.now).may_leave → AllStand routes papers ((T.clock new.now).left_since (T.clock old.now).moment) }
{}

/// A life goes on across a call of another command, ended or stopped at any moment: it keeps the sides.
pub fn a_life_goes_on_across_another_command<T: Station>(old: &T, new: &T)
    ensures { (routes : List (List PlannedVisit)) (papers : Papers) (life : List SessionMade) → KeepsSides (T.clock old.now) (T.clock new.now)
        → MayGoOn routes papers life (T.clock old.now).may_leave → MayGoOn routes papers life ((T.clock new.now).left_since (T.clock old.now).moment) }
{}

/// Over files that are told, two causes of refusals exclude one another, unless the shelf failed.
pub fn a_refusal_has_one_cause()
    ensures { (file : List ℕ → Option (List ℕ)) (words : List (List ℕ)) (fault other : Fault) → IsCause (files_of (Unit {0}) file) nowhere words fault → IsCause (files_of (Unit {0}) file) nowhere words other → fault ≡ other }
{}

/// Over files that are told, a call has one line that is due, with one status, unless the shelf failed.
pub fn one_line_is_due()
    ensures { (file : List ℕ → Option (List ℕ)) (words : List (List ℕ)) (end other : Status) (text more : List ℕ) → IsDue (files_of (Unit {0}) file) nowhere words end text → IsDue (files_of (Unit {0}) file) nowhere words other more → (end ≡ other) × (text ≡ more) }
{}
