// What is to be done for some words, once the files are read.
ghost use Rattle.std.specs.Prelude.{◌≡◌, ◌∷◌, ◌++◌, [], ℕ, List, map, string_bytes, codes, IfOk, IfErr};
ghost use Rattle.station_api.specs.Causes.{Counted};
ghost use Rattle.fleet_cli.specs.Runs.{HasFailed};
ghost use Rattle.fleet_cli.specs.Papers.{files_of, failed_at};
ghost use Rattle.fleet_base.specs.declared.status.Status.TheVariants.{Done};
ghost use Rattle.fleet_base.specs.Bytes.{fields};
ghost use Rattle.fleet_cli.specs.declared.task.Task.TheVariants.{Say};
ghost use Rattle.fleet_cli.specs.Tasks.{IsCalledFor, IsTask};
ghost use Rattle.fleet_cli.specs.Lines.{fault_line};

use crate::fault::{Fault, Refusal};
use crate::generating::fleet_text;
use crate::lines::push_fault;
use crate::papers::{CheckedPapers, Sound, read_papers, sound_of};
use crate::planning::plan_for;
use command_words::{Command, read_words};
use fleet_base::{Memory, Status, Text, push_bytes, push_fields};
use station_api::Shelf;
use std::alloc::Global;

/// A text, and the status of a command that answers it.
#[derive(Debug, Drop)]
pub struct Reply {
    pub status: Status,
    pub text: Text,
}

/// What is left to do.
#[derive(Drop)]
pub enum Task<'w> {
    /// A text is to be said.
    Say(Reply),
    /// A plan is to be run, with the journal of this name, this budget and this flag.
    Serve {
        papers: CheckedPapers,
        journal: &'w str,
        budget: u64,
        quiet: bool,
    },
}

/// What is to be done for these words.
pub fn task_of<'w, H: Shelf>(
    alloc: Global,
    words: &'w [String],
    shelf: &mut H,
) -> Result<Task<'w>, Memory>
    ensures task { IfOk result (IsTask (files_of H.tells (H.file shelf.old)) (failed_at H.tells (H.asked shelf.new) (HasFailed (H.counts shelf.old) (H.counts shelf.new))) (map (λ w. string_bytes w) words.now)) }
    ensures counted { Counted (H.counts shelf.old) (H.counts shelf.new) }
{
    match task_for(alloc, words, shelf) {
        Ok(task) => Ok(task),
        Err(Refusal::Fault(fault)) => {
            let text = fault_text(alloc, &fault)?;
            Ok(Task::Say(Reply {
                status: fault.status(),
                text,
            }))
        }
        Err(Refusal::Memory) => Err(Memory),
    }
}

/// What is to be done for these words, if they are not refused.
fn task_for<'w, H: Shelf>(
    alloc: Global,
    words: &'w [String],
    shelf: &mut H,
) -> Result<Task<'w>, Refusal>
    ensures task { IfOk result (IsTask (files_of H.tells (H.file shelf.old)) (failed_at H.tells (H.asked shelf.new) (HasFailed (H.counts shelf.old) (H.counts shelf.new))) (map (λ w. string_bytes w) words.now)) }
    ensures refused { IfErr result (IsCalledFor (files_of H.tells (H.file shelf.old)) (failed_at H.tells (H.asked shelf.new) (HasFailed (H.counts shelf.old) (H.counts shelf.new))) (map (λ w. string_bytes w) words.now)) }
    ensures counted { Counted (H.counts shelf.old) (H.counts shelf.new) }
{
    match read_words(alloc, words)? {
        Command::Check { map, plan } => {
            let papers = read_papers(alloc, shelf, map, plan)?;
            Ok(said(sound_text(alloc, sound_of(&papers))?))
        }
        Command::Run {
            map,
            plan,
            journal,
            budget,
            quiet,
        } => {
            let papers = read_papers(alloc, shelf, map, plan)?;
            Ok(Task::Serve {
                papers,
                journal,
                budget,
                quiet,
            })
        }
        Command::Gen { seed, plan } => Ok(said(fleet_text(alloc, seed, plan)?)),
        Command::Plan {
            map,
            scen,
            robots,
            horizon,
        } => Ok(said(plan_for(alloc, shelf, map, scen, robots, horizon)?)),
    }
}

/// The text of a command that ends well.
fn said<'w>(text: Text) -> Task<'w>
    ensures { result ≡ Say (record { status = Done; text = text }) }
{
    Task::Say(Reply {
        status: Status::Done,
        text,
    })
}

/// The line of a plan that is sound.
fn sound_text(alloc: Global, sound: Sound) -> Result<Text, Memory>
    ensures { IfOk result (λ text. text ≡ (codes "sound" ++ fields (sound.robots ∷ sound.visits ∷ sound.pairs ∷ [])) ++ 10 ∷ []) }
{
    let mut text = Text::new(alloc);
    push_bytes(&mut text, b"sound")?;
    push_fields(&mut text, &[sound.robots, sound.visits, sound.pairs])?;
    text.push(b'\n')?;
    Ok(text)
}

/// The line of a refusal.
fn fault_text(alloc: Global, fault: &Fault) -> Result<Text, Memory>
    ensures { IfOk result (λ text. text ≡ fault_line fault.now ++ 10 ∷ []) }
{
    let mut text = Text::new(alloc);
    push_fault(&mut text, fault)?;
    text.push(b'\n')?;
    Ok(text)
}
