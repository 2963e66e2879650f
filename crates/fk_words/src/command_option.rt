ghost use Rattle.std.specs.Prelude.{◌≡◌, find};
ghost use Rattle.std.specs.Str.{bytes_eq, is_utf8};
ghost use Rattle.fk_words.specs.CommandOptions.{option_rule, options_of, pairs_unbroken};

use crate::Tool;
use fk_base::{LONGEST_TIME, Pairs, find_ip};
use fk_values::{is_host, is_unbroken, read_number, read_pairs};

/// The most packets or turns that a command line can limit a run to.
pub(crate) const GREATEST_LIMIT: u64 = 1_000_000_000;

/// An option of a command line.
#[derive(Clone, Copy)]
pub(crate) enum CommandOption {
    Foreground,
    ConfFile,
    AccessFile,
    PacketLimit,
    TurnLimit,
    Verbose,
    Trial,
    Quiet,
    FwList,
    StanzaName,
    RcFileName,
    PairList,
    Address,
    PacketSource,
    Server,
    ServerPort,
    Seconds,
    Print,
    NewKeys,
}

impl CommandOption {
    /// The option of this tool that a word is.
    pub(crate) fn of(tool: Tool, word: &[u8]) -> Option<Self>
        ensures { result ≡ find (λ option. bytes_eq (option_rule option).word word.now) (options_of tool) }
    {
        tool.options()
            .iter()
            .copied()
            .find(|option| option.word() == word)
    }

    pub(crate) fn word(self) -> &'static [u8]
        ensures { result.now ≡ (option_rule self).word }
    {
        match self {
            CommandOption::Foreground => b"-f",
            CommandOption::ConfFile => b"-c",
            CommandOption::AccessFile => b"-a",
            CommandOption::PacketLimit => b"-C",
            CommandOption::TurnLimit => b"--turns",
            CommandOption::Verbose => b"-v",
            CommandOption::Trial => b"--trial",
            CommandOption::Quiet => b"-q",
            CommandOption::FwList => b"--fw-list",
            CommandOption::StanzaName => b"-n",
            CommandOption::RcFileName => b"--rc-file",
            CommandOption::PairList => b"-A",
            CommandOption::Address => b"-a",
            CommandOption::PacketSource => b"-s",
            CommandOption::Server => b"-D",
            CommandOption::ServerPort => b"-p",
            CommandOption::Seconds => b"-f",
            CommandOption::Print => b"-T",
            CommandOption::NewKeys => b"-k",
        }
    }

    /// Whether a value follows it.
    pub(crate) fn has_value(self) -> bool
        ensures { result ≡ (option_rule self).has_value }
    {
        match self {
            CommandOption::Foreground
            | CommandOption::Verbose
            | CommandOption::Trial
            | CommandOption::Quiet
            | CommandOption::FwList
            | CommandOption::PacketSource
            | CommandOption::Print
            | CommandOption::NewKeys => false,
            _ => true,
        }
    }

    /// Whether this can be its value. It takes no memory.
    pub(crate) fn is_value(self, value: &[u8]) -> bool
        ensures { result ≡ (option_rule self).is_value value.now }
    {
        match self {
            CommandOption::ConfFile
            | CommandOption::AccessFile
            | CommandOption::StanzaName
            | CommandOption::RcFileName => is_name(value),
            CommandOption::PacketLimit | CommandOption::TurnLimit => {
                read_number(value, 1, GREATEST_LIMIT).is_some()
            }
            CommandOption::PairList => read_unbroken_pairs(value).is_some(),
            CommandOption::Address => find_ip(value).is_some(),
            CommandOption::Server => is_host(value) && is_name(value),
            CommandOption::ServerPort => read_number(value, 1, 65_535).is_some(),
            CommandOption::Seconds => read_number(value, 1, LONGEST_TIME).is_some(),
            CommandOption::Foreground
            | CommandOption::Verbose
            | CommandOption::Trial
            | CommandOption::Quiet
            | CommandOption::FwList
            | CommandOption::PacketSource
            | CommandOption::Print
            | CommandOption::NewKeys => false,
        }
    }
}

/// Whether the value is text.
pub(crate) fn is_name(value: &[u8]) -> bool
    ensures { result ≡ is_utf8 value.now }
{
    match str::from_utf8(value) {
        Ok(_) => true,
        Err(_) => false,
    }
}

/// The pairs of a list in which no blank stands.
pub(crate) fn read_unbroken_pairs(value: &[u8]) -> Option<Pairs>
    ensures { result ≡ pairs_unbroken value.now }
{
    if is_unbroken(value) {
        read_pairs(value)
    } else {
        None
    }
}
