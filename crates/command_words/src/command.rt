// A command, and why words are none.
use std::alloc::AllocError;
use thiserror::Error;

/// What the program is to do.
#[derive(Clone, Copy, Debug)]
pub enum Command<'w> {
    /// It says whether the plan can be carried out.
    Check {
        map: &'w str,
        plan: &'w str,
    },
    /// It carries the plan out with robots that report, and keeps its state in this journal.
    Run {
        map: &'w str,
        plan: &'w str,
        journal: &'w str,
        /// How many nodes a search for a cheaper order may expand.
        budget: u64,
        /// That certificates are not sent.
        quiet: bool,
    },
    /// It sends the map or the plan of a generated fleet.
    Gen {
        seed: u64,
        /// That the plan is sent, in place of the map.
        plan: bool,
    },
    /// It plans paths on the map for the tasks of the scenario.
    Plan {
        map: &'w str,
        scen: &'w str,
        /// How many of the tasks are taken, if there are as many.
        robots: u64,
        /// The last tick at which a robot may arrive.
        horizon: u64,
    },
}

/// Why words are not read.
#[derive(Clone, Copy, Debug, PartialEq, Eq, Error)]
pub enum WordsError {
    /// The words are those of no command.
    #[error("the words are those of no command")]
    Usage,
    /// There was no memory.
    #[error("out of memory")]
    Memory,
}

impl From<AllocError> for WordsError {
    ghost use Rattle.std.specs.Prelude.{◌≡◌};
    ghost use Rattle.command_words.specs.declared.command.WordsError.TheVariants as words_error;

    ghost from_gives = { λ _ e. e ≡ words_error.Memory };

    fn from(_error: AllocError) -> WordsError {
        WordsError::Memory
    }
}
