// The words of a command, read by `clap`.
ghost use Rattle.std.specs.Prelude.{◌≡◌, ◌≢◌, ℕ, List, [], ◌∷◌, IfOk, IfErr, map, true, string_bytes};
ghost use Rattle.clap.specs.Words.{app_of, fault_of, is_simple, is_simple_and_free, matches_of, rows_of, found_of};
ghost use Rattle.command_words.specs.declared.command.WordsError.TheVariants.{Usage};

use crate::command::WordsError;
use clap::error::ErrorKind;
use clap::{ArgMatches, Command};

/// What the words give, of which the first is the command's own.
pub fn parse<'w>(command: Command<'w>, words: &'w [String]) -> Result<ArgMatches<'w>, WordsError>
    requires simple { is_simple (app_of command) ≡ true }
    requires free { is_simple_and_free (app_of command) ≡ true }
    ensures taken { IfOk result (λ _. fault_of (app_of command.entry) (map (λ w. string_bytes w) words.now) ≡ []) }
    ensures matches { IfOk result (λ m. rows_of (found_of m) ≡ matches_of (app_of command.entry) (map (λ w. string_bytes w) words.now)) }
    ensures refused { IfErr result (λ e. e ≡ Usage → fault_of (app_of command.entry) (map (λ w. string_bytes w) words.now) ≢ []) }
{
    match command.try_get_matches_from(words) {
        Ok(matches) => Ok(matches),
        Err(error) => match error.kind() {
            ErrorKind::OutOfMemory => Err(WordsError::Memory),
            _ => Err(WordsError::Usage),
        },
    }
}
