// The number that an option gives.
ghost use Rattle.std.specs.Prelude.{◌≡◌, ℕ, IfSome, IfNone, option_map};
ghost use Rattle.command_words.specs.Grammar.{IsNumberOr};

use fleet_base::read_number;

/// The number that is given, if it is in the range; without one, the usual number.
pub fn number_or(given: Option<&str>, usual: u64, least: u64, most: u64) -> Option<u64>
    ensures some { IfSome result (IsNumberOr usual least most (option_map (λ t. t.now) given.entry)) }
    ensures none { IfNone result ((n : ℕ) → IsNumberOr usual least most (option_map (λ t. t.now) given.entry) n → ⊥) }
{
    match given {
        None => Some(usual),
        Some(text) => match read_number(text.as_bytes()) {
            Some(number) if least <= number && number <= most => Some(number),
            _ => None,
        },
    }
}
