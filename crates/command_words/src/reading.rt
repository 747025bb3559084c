// The words of the command line, command by command.
ghost use Rattle.std.specs.Prelude.{◌≡◌, ◌≢◌, ℕ, List, map, string_bytes, slice_get, Some, IfOk, IfErr, IfSome, IfNone, codes};
ghost use Rattle.command_words.specs.declared.command.WordsError.TheVariants.{Usage};
ghost use Rattle.clap.specs.Words.{app_of, first_value, found_of};
ghost use Rattle.command_words.specs.Arguments.{BeginsWith, IsFoundCheck, IsFoundRun, check_app, run_app};
ghost use Rattle.command_words.specs.Commands.{IsCommand, IsUsage};
ghost use Rattle.command_words.specs.Grammar.{IsNumberOr};
ghost use Rattle.fleet_base.specs.Limits.{budget_limit};

use crate::command::{Command, WordsError};
use crate::keys::{Keys, are_known};
use crate::making::{gen_words, plan_words};
use crate::numbers::number_or;
use crate::parsing::parse;
use clap::{Arg, ArgAction, ArgMatches};
use fleet_base::limits;
use std::alloc::{AllocError, Global};

/// `check` has no options.
const CHECK: Keys = Keys {
    options: &[],
    flags: &[],
};

/// `run` has `--budget N` and `--quiet`.
const RUN: Keys = Keys {
    options: &["budget"],
    flags: &["quiet"],
};

/// The command of these words, which do not contain the program's own name.
pub fn read_words(alloc: Global, words: &[String]) -> Result<Command<'_>, WordsError>
    ensures command { IfOk result (IsCommand (map (λ w. string_bytes w) words.now)) }
    ensures usage { IfErr result (λ e. e ≡ Usage → IsUsage (map (λ w. string_bytes w) words.now)) }
{
    let Some(first) = words.first() else {
        return Err(WordsError::Usage);
    };
    let word = first.as_str();
    if word == "check" {
        check_words(alloc, words)
    } else if word == "run" {
        run_words(alloc, words)
    } else if word == "gen" {
        gen_words(alloc, words)
    } else if word == "plan" {
        plan_words(alloc, words)
    } else {
        Err(WordsError::Usage)
    }
}

/// The words `check MAP PLAN`.
fn check_words(alloc: Global, words: &[String]) -> Result<Command<'_>, WordsError>
    requires { BeginsWith (codes "check") (map (λ w. string_bytes w) words.now) }
    ensures command { IfOk result (IsCommand (map (λ w. string_bytes w) words.now)) }
    ensures usage { IfErr result (λ e. e ≡ Usage → IsUsage (map (λ w. string_bytes w) words.now)) }
{
    if !are_known(&words[1..], &CHECK) {
        return Err(WordsError::Usage);
    }
    let matches = parse(check_command(alloc)?, words)?;
    match check_of(&matches) {
        Some(command) => Ok(command),
        None => Err(WordsError::Usage),
    }
}

/// What was found in the words of `check`.
fn check_of<'w>(matches: &ArgMatches<'w>) -> Option<Command<'w>>
    ensures some { IfSome result (IsFoundCheck (found_of matches.now)) }
    ensures none { IfNone result ((m p : List ℕ) → first_value (found_of matches.now) (codes "map") ≡ Some m → first_value (found_of matches.now) (codes "plan") ≡ Some p → ⊥) }
{
    match (matches.get_str("map"), matches.get_str("plan")) {
        (Some(map), Some(plan)) => Some(Command::Check { map, plan }),
        _ => None,
    }
}

/// The words `run MAP PLAN JOURNAL [--budget N] [--quiet]`.
fn run_words(alloc: Global, words: &[String]) -> Result<Command<'_>, WordsError>
    requires { BeginsWith (codes "run") (map (λ w. string_bytes w) words.now) }
    ensures command { IfOk result (IsCommand (map (λ w. string_bytes w) words.now)) }
    ensures usage { IfErr result (λ e. e ≡ Usage → IsUsage (map (λ w. string_bytes w) words.now)) }
{
    if !are_known(&words[1..], &RUN) {
        return Err(WordsError::Usage);
    }
    let matches = parse(run_command(alloc)?, words)?;
    match run_of(&matches) {
        Some(command) => Ok(command),
        None => Err(WordsError::Usage),
    }
}

/// What was found in the words of `run`.
fn run_of<'w>(matches: &ArgMatches<'w>) -> Option<Command<'w>>
    ensures some { IfSome result (IsFoundRun (found_of matches.now)) }
    ensures none { IfNone result ((m p j : List ℕ) (n : ℕ) → first_value (found_of matches.now) (codes "map") ≡ Some m → first_value (found_of matches.now) (codes "plan") ≡ Some p → first_value (found_of matches.now) (codes "journal") ≡ Some j
        → IsNumberOr 128 0 budget_limit (first_value (found_of matches.now) (codes "budget")) n → ⊥) }
{
    let map = matches.get_str("map")?;
    let plan = matches.get_str("plan")?;
    let journal = matches.get_str("journal")?;
    let budget = number_or(matches.get_str("budget"), 128, 0, limits::BUDGET.into())?;
    let quiet = matches.get_flag("quiet");
    Some(Command::Run {
        map,
        plan,
        journal,
        budget,
        quiet,
    })
}

/// What `check` takes.
fn check_command<'w>(alloc: Global) -> Result<clap::Command<'w>, AllocError>
    ensures { IfOk result (λ c. app_of c ≡ check_app) }
{
    let begun = clap::Command::new(alloc, "check").disable_help_flag(true);
    let map = Arg::new(alloc, "map");
    let plan = Arg::new(alloc, "plan");
    let command = begun.arg(map)?.arg(plan)?;
    Ok(command)
}

/// What `run` takes.
fn run_command<'w>(alloc: Global) -> Result<clap::Command<'w>, AllocError>
    ensures { IfOk result (λ c. app_of c ≡ run_app) }
{
    let begun = clap::Command::new(alloc, "run").disable_help_flag(true);
    let budget = Arg::new(alloc, "budget").long("budget");
    let quiet = Arg::new(alloc, "quiet")
        .long("quiet")
        .action(ArgAction::SetTrue);
    let map = Arg::new(alloc, "map");
    let plan = Arg::new(alloc, "plan");
    let journal = Arg::new(alloc, "journal");
    let command = begun
        .arg(budget)?
        .arg(quiet)?
        .arg(map)?
        .arg(plan)?
        .arg(journal)?;
    Ok(command)
}
