//! What follows from the definitions alone. Each function is a law, and does nothing.
ghost use Rattle.std.specs.Prelude.{◌≡◌, ℕ, List};
ghost use Rattle.fk_words.specs.declared.command.Command.{Command};
ghost use Rattle.fk_words.specs.declared.command_option.TheConstants.{GREATEST_LIMIT};
ghost use Rattle.fk_words.specs.declared.operand.TheConstants.{GREATEST_COUNT};
ghost use Rattle.fk_words.specs.declared.tool.Tool.{Tool};
ghost use Rattle.fk_words.specs.declared.tool.Tool.TheVariants.{Client, Daemon, Fko};
ghost use Rattle.fk_words.specs.CommandOf.{AskAlike, IsCommandOf};
ghost use Rattle.fk_words.specs.DaemonCommands.{IsForDaemon};
ghost use Rattle.fk_words.specs.ReadsWords.{ReadsWords};

/// The words of a program ask for a command of it.
pub fn words_ask_for_their_program()
    ensures { (tool : Tool) (words : List (List ℕ)) (asked : Command) → ReadsWords tool words asked → IsCommandOf tool asked }
{}

/// Where the words of a client ask for a packet, they ask for one.
pub fn client_words_ask_for_one_packet()
    ensures { (words : List (List ℕ)) (a b : Command) → ReadsWords Client words a → ReadsWords Client words b → AskAlike a b }
{}

/// Words of the daemon ask for one command at most, and it is one of the daemon's.
pub fn daemon_words_ask_for_one_command()
    ensures own { (words : List (List ℕ)) (asked : Command) → ReadsWords Daemon words asked → IsForDaemon asked }
    ensures one { (words : List (List ℕ)) (a b : Command) → ReadsWords Daemon words a → ReadsWords Daemon words b → a ≡ b }
{}

/// Words of the tool ask for one command at most.
pub fn tool_words_ask_for_one_command()
    ensures { (words : List (List ℕ)) (a b : Command) → ReadsWords Fko words a → ReadsWords Fko words b → a ≡ b }
{}

/// The greatest limit on the datagrams or the turns of a run, and how many lines are generated at most.
pub fn limits_have_their_numbers()
    ensures limit { GREATEST_LIMIT ≡ 1000000000 }
    ensures count { GREATEST_COUNT ≡ 100000 }
{}
