ghost use Rattle.std.specs.Prelude.{◌≡◌, ◌||◌, find, not};
ghost use Rattle.std.specs.List.{list_all};
ghost use Rattle.std.specs.Str.{bytes_eq};
ghost use Rattle.fk_words.specs.CommandOptions.{options_of};
ghost use Rattle.fk_words.specs.Operands.{command_word, fko_commands, operands_of};
ghost use Rattle.fk_words.specs.OptionSets.{fits, is_among, is_in_set, set_of, stands};

use crate::Tool;
use crate::command_option::CommandOption;
use crate::operand::Operand;
use crate::word_places::is_in;
use fk_base::Words;

/// What the words of a command line make together.
#[derive(Clone, Copy, Debug, PartialEq, Eq)]
pub(crate) enum OptionSet {
    Serve,
    Trial,
    List,
    SendForAddress,
    SendForSource,
    KeyGen,
    Encode,
    Decode,
    Journal,
    Generate,
    Help,
    Version,
}

static SERVE: [CommandOption; 3] = [
    CommandOption::Foreground,
    CommandOption::ConfFile,
    CommandOption::AccessFile,
];

static SERVE_TOO: [CommandOption; 3] = [
    CommandOption::PacketLimit,
    CommandOption::TurnLimit,
    CommandOption::Verbose,
];

static TRIAL: [CommandOption; 3] = [
    CommandOption::Trial,
    CommandOption::ConfFile,
    CommandOption::AccessFile,
];

static TRIAL_TOO: [CommandOption; 2] = [CommandOption::Quiet, CommandOption::Verbose];

static LIST: [CommandOption; 1] = [CommandOption::FwList];

static ADDRESS_TOO: [CommandOption; 8] = [
    CommandOption::StanzaName,
    CommandOption::RcFileName,
    CommandOption::PairList,
    CommandOption::Server,
    CommandOption::ServerPort,
    CommandOption::Seconds,
    CommandOption::Print,
    CommandOption::Address,
];

static SOURCE_TOO: [CommandOption; 8] = [
    CommandOption::StanzaName,
    CommandOption::RcFileName,
    CommandOption::PairList,
    CommandOption::Server,
    CommandOption::ServerPort,
    CommandOption::Seconds,
    CommandOption::Print,
    CommandOption::PacketSource,
];

static KEY_GEN: [CommandOption; 1] = [CommandOption::NewKeys];

static NONE: [CommandOption; 0] = [];

static FKO_COMMANDS: [OptionSet; 5] = [
    OptionSet::Encode,
    OptionSet::Decode,
    OptionSet::KeyGen,
    OptionSet::Journal,
    OptionSet::Generate,
];

static FILE_AND_STANZA: [Operand; 2] = [Operand::Name, Operand::Name];

static COUNT: [Operand; 1] = [Operand::Count];

static NO_OPERANDS: [Operand; 0] = [];

impl OptionSet {
    /// The options that have to be there.
    fn required(self) -> &'static [CommandOption]
        ensures { result.now ≡ (set_of self).required }
    {
        match self {
            OptionSet::Serve => &SERVE,
            OptionSet::Trial => &TRIAL,
            OptionSet::List => &LIST,
            OptionSet::KeyGen => &KEY_GEN,
            _ => &NONE,
        }
    }

    /// The options that may be there too.
    fn allowed(self) -> &'static [CommandOption]
        ensures { result.now ≡ (set_of self).allowed }
    {
        match self {
            OptionSet::Serve => &SERVE_TOO,
            OptionSet::Trial => &TRIAL_TOO,
            OptionSet::SendForAddress => &ADDRESS_TOO,
            OptionSet::SendForSource => &SOURCE_TOO,
            _ => &NONE,
        }
    }

    /// The command of `fko` that a word is.
    pub(crate) fn of_command(word: &[u8]) -> Option<Self>
        ensures { result ≡ find (λ command. bytes_eq (command_word command) word.now) fko_commands }
    {
        FKO_COMMANDS
            .iter()
            .copied()
            .find(|command| command.command_word() == word)
    }

    fn command_word(self) -> &'static [u8]
        ensures { result.now ≡ command_word self }
    {
        match self {
            OptionSet::Encode => b"encode",
            OptionSet::Decode => b"decode",
            OptionSet::KeyGen => b"keygen",
            OptionSet::Journal => b"journal",
            OptionSet::Generate => b"generate",
            _ => b"",
        }
    }

    /// What the words behind the command are.
    pub(crate) fn operands(self) -> &'static [Operand]
        ensures { result.now ≡ operands_of self }
    {
        match self {
            OptionSet::Encode | OptionSet::Decode => &FILE_AND_STANZA,
            OptionSet::Generate => &COUNT,
            _ => &NO_OPERANDS,
        }
    }

    /// Whether the options in these words make this set.
    pub(crate) fn fits(self, tool: Tool, words: &Words) -> bool
        ensures { result ≡ fits tool words.now self }
    {
        self.has_required(words) && self.has_no_other(tool, words)
    }

    fn has_required(self, words: &Words) -> bool
        ensures { result ≡ list_all (λ option. stands option words.now) (set_of self).required }
    {
        self.required()
            .iter()
            .all(|option| is_in(words, option.word()))
    }

    fn has_no_other(self, tool: Tool, words: &Words) -> bool
        ensures { result ≡ list_all (λ option. not (stands option words.now) || is_in_set option self) (options_of tool) }
    {
        tool.options()
            .iter()
            .all(|option| !is_in(words, option.word()) || self.has(*option))
    }

    fn has(self, option: CommandOption) -> bool
        ensures { result ≡ is_in_set option self }
    {
        is_among(self.required(), option) || is_among(self.allowed(), option)
    }
}

fn is_among(options: &[CommandOption], option: CommandOption) -> bool
    ensures { result ≡ is_among option options.now }
{
    options.iter().any(|other| other.word() == option.word())
}
