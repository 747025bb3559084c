// The words of the commands that make a fleet or a plan.
ghost use Rattle.std.specs.Prelude.{◌≡◌, ◌≢◌, ℕ, List, map, string_bytes, Some, IfOk, IfErr, IfSome, IfNone, codes};
ghost use Rattle.fleet_base.specs.Bytes.{IsNumber};
ghost use Rattle.fleet_base.specs.Limits.{robot_limit, tick_limit};
ghost use Rattle.command_words.specs.declared.command.WordsError.TheVariants.{Usage};
ghost use Rattle.clap.specs.Words.{app_of, first_value, found_of};
ghost use Rattle.command_words.specs.Arguments.{BeginsWith, IsFoundGen, IsFoundPlan, gen_app, plan_app};
ghost use Rattle.command_words.specs.Commands.{IsCommand, IsUsage};
ghost use Rattle.command_words.specs.Grammar.{IsNumberOr};

use crate::command::{Command, WordsError};
use crate::keys::{Keys, are_known};
use crate::numbers::number_or;
use crate::parsing::parse;
use clap::{Arg, ArgAction, ArgMatches};
use fleet_base::{limits, read_number};
use std::alloc::{AllocError, Global};

/// `gen` has `--plan`.
const GEN: Keys = Keys {
    options: &[],
    flags: &["plan"],
};

/// `plan` has `--robots N` and `--horizon H`.
const PLAN: Keys = Keys {
    options: &["robots", "horizon"],
    flags: &[],
};

/// The words `gen SEED [--plan]`.
pub fn gen_words(alloc: Global, words: &[String]) -> Result<Command<'_>, WordsError>
    requires { BeginsWith (codes "gen") (map (λ w. string_bytes w) words.now) }
    ensures command { IfOk result (IsCommand (map (λ w. string_bytes w) words.now)) }
    ensures usage { IfErr result (λ e. e ≡ Usage → IsUsage (map (λ w. string_bytes w) words.now)) }
{
    if !are_known(&words[1..], &GEN) {
        return Err(WordsError::Usage);
    }
    let matches = parse(gen_command(alloc)?, words)?;
    match gen_of(&matches) {
        Some(command) => Ok(command),
        None => Err(WordsError::Usage),
    }
}

/// What was found in the words of `gen`.
fn gen_of<'w>(matches: &ArgMatches<'w>) -> Option<Command<'w>>
    ensures some { IfSome result (IsFoundGen (found_of matches.now)) }
    ensures none { IfNone result ((name : List ℕ) (n : ℕ) → first_value (found_of matches.now) (codes "seed") ≡ Some name → IsNumber name n → ⊥) }
{
    let seed = read_number(matches.get_str("seed")?.as_bytes())?;
    let plan = matches.get_flag("plan");
    Some(Command::Gen { seed, plan })
}

/// The words `plan MAP SCEN [--robots N] [--horizon H]`.
pub fn plan_words(alloc: Global, words: &[String]) -> Result<Command<'_>, WordsError>
    requires { BeginsWith (codes "plan") (map (λ w. string_bytes w) words.now) }
    ensures command { IfOk result (IsCommand (map (λ w. string_bytes w) words.now)) }
    ensures usage { IfErr result (λ e. e ≡ Usage → IsUsage (map (λ w. string_bytes w) words.now)) }
{
    if !are_known(&words[1..], &PLAN) {
        return Err(WordsError::Usage);
    }
    let matches = parse(plan_command(alloc)?, words)?;
    match plan_of(&matches) {
        Some(command) => Ok(command),
        None => Err(WordsError::Usage),
    }
}

/// What was found in the words of `plan`.
fn plan_of<'w>(matches: &ArgMatches<'w>) -> Option<Command<'w>>
    ensures some { IfSome result (IsFoundPlan (found_of matches.now)) }
    ensures none { IfNone result ((m s : List ℕ) (n h : ℕ) → first_value (found_of matches.now) (codes "map") ≡ Some m → first_value (found_of matches.now) (codes "scen") ≡ Some s
        → IsNumberOr 32 1 robot_limit (first_value (found_of matches.now) (codes "robots")) n → IsNumberOr 1024 1 tick_limit (first_value (found_of matches.now) (codes "horizon")) h → ⊥) }
{
    let map = matches.get_str("map")?;
    let scen = matches.get_str("scen")?;
    let robots = number_or(matches.get_str("robots"), 32, 1, limits::ROBOTS.into())?;
    let horizon = number_or(
        matches.get_str("horizon"),
        1024,
        1,
        limits::LAST_TICK.into(),
    )?;
    Some(Command::Plan {
        map,
        scen,
        robots,
        horizon,
    })
}

/// What `gen` takes.
fn gen_command<'w>(alloc: Global) -> Result<clap::Command<'w>, AllocError>
    ensures { IfOk result (λ c. app_of c ≡ gen_app) }
{
    let begun = clap::Command::new(alloc, "gen").disable_help_flag(true);
    let plan = Arg::new(alloc, "plan")
        .long("plan")
        .action(ArgAction::SetTrue);
    let seed = Arg::new(alloc, "seed");
    let command = begun.arg(plan)?.arg(seed)?;
    Ok(command)
}

/// What `plan` takes.
fn plan_command<'w>(alloc: Global) -> Result<clap::Command<'w>, AllocError>
    ensures { IfOk result (λ c. app_of c ≡ plan_app) }
{
    let begun = clap::Command::new(alloc, "plan").disable_help_flag(true);
    let robots = Arg::new(alloc, "robots").long("robots");
    let horizon = Arg::new(alloc, "horizon").long("horizon");
    let map = Arg::new(alloc, "map");
    let scen = Arg::new(alloc, "scen");
    let command = begun.arg(robots)?.arg(horizon)?.arg(map)?.arg(scen)?;
    Ok(command)
}
