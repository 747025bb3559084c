// The options and the flags of a command, and what a word is by itself.
ghost use Rattle.std.specs.Prelude.{◌≡◌, ◌⊎◌, ◌↔◌, ℕ, List, All, Any, IsTrue, map, string_bytes};
ghost use Rattle.command_words.specs.Grammar.{IsName};
ghost use Rattle.command_words.specs.Telling.{IsKey, IsKnown, IsValue, UsesOption, grammar_of};

/// The options and the flags of a command, without their hyphens.
#[derive(Clone, Copy)]
pub struct Keys {
    pub options: &'static [&'static str],
    pub flags: &'static [&'static str],
}

/// Whether each word is a name, or a flag or an option of the command, with its value or without it.
pub fn are_known(words: &[String], keys: &Keys) -> bool
    ensures { IsTrue result ↔ All (λ w. IsKnown (grammar_of keys.now) (string_bytes w)) words.now }
{
    for word in words {
        if !is_known(word, keys) {
            return false;
        }
    }
    true
}

/// Whether a word is a name, or a flag or an option of the command, with its value or without it.
fn is_known(word: &str, keys: &Keys) -> bool
    ensures { IsTrue result ↔ IsKnown (grammar_of keys.now) word.now }
{
    let bytes = word.as_bytes();
    match bytes.strip_prefix(b"--") {
        Some(rest) => is_key(rest, keys),
        None => is_name(bytes),
    }
}

/// Whether this is one of the flags, or one of the options, with its value or without it.
fn is_key(rest: &[u8], keys: &Keys) -> bool
    ensures { IsTrue result ↔ IsKey keys.now rest.now }
{
    is_flag(rest, keys.flags) || is_option(rest, keys.options)
}

/// Whether this is one of the flags.
fn is_flag(rest: &[u8], flags: &[&str]) -> bool
    ensures { IsTrue result ↔ Any (λ flag. rest.now ≡ flag.now) flags.now }
{
    flags.iter().any(|flag| rest == flag.as_bytes())
}

/// Whether this is one of the options, with its value or without it.
fn is_option(rest: &[u8], options: &[&str]) -> bool
    ensures { IsTrue result ↔ Any (λ option. UsesOption rest.now option.now) options.now }
{
    options
        .iter()
        .any(|option| uses_option(rest, option.as_bytes()))
}

/// Whether this is the option, with its value or without it.
fn uses_option(rest: &[u8], option: &[u8]) -> bool
    ensures { IsTrue result ↔ UsesOption rest.now option.now }
{
    match rest.strip_prefix(option) {
        Some(value) => is_value(value),
        None => false,
    }
}

/// Whether this may follow the name of an option in its word.
fn is_value(text: &[u8]) -> bool
    ensures { IsTrue result ↔ IsValue text.now }
{
    match text {
        [] => true,
        [first, value @ ..] => *first == b'=' && is_name(value),
    }
}

/// Whether a word is a name: it is not empty, and does not begin with `-`.
fn is_name(word: &[u8]) -> bool
    ensures { IsTrue result ↔ IsName word.now }
{
    match word {
        [] => false,
        [first, ..] => *first != b'-',
    }
}
