// Laws over the definitions. Each function does nothing: its contract is the law.
ghost use Rattle.std.specs.Prelude.{ℕ, List};
ghost use Rattle.command_words.specs.declared.command.Command.{Command};
ghost use Rattle.command_words.specs.Commands.{IsCommand, AreOne};

/// Words are those of one command at most.
pub fn words_are_of_one_command()
    ensures { (words : List (List ℕ)) (a b : Command) → IsCommand words a → IsCommand words b → AreOne a b }
{}
