ghost use Rattle.std.specs.Prelude.{◌≡◌};
ghost use Rattle.fk_words.specs.CommandOptions.{options_of};
ghost use Rattle.fk_words.specs.OptionSets.{sets_of};

use crate::command_option::CommandOption;
use crate::option_set::OptionSet;

/// Whose command line is read.
#[derive(Clone, Copy, Debug, PartialEq, Eq)]
pub enum Tool {
    Daemon,
    Client,
    /// The tool `fko`, whose words stand at fixed places.
    Fko,
}

static DAEMON_OPTIONS: [CommandOption; 9] = [
    CommandOption::Foreground,
    CommandOption::ConfFile,
    CommandOption::AccessFile,
    CommandOption::PacketLimit,
    CommandOption::TurnLimit,
    CommandOption::Verbose,
    CommandOption::Trial,
    CommandOption::Quiet,
    CommandOption::FwList,
];

static CLIENT_OPTIONS: [CommandOption; 10] = [
    CommandOption::StanzaName,
    CommandOption::RcFileName,
    CommandOption::PairList,
    CommandOption::Address,
    CommandOption::PacketSource,
    CommandOption::Server,
    CommandOption::ServerPort,
    CommandOption::Seconds,
    CommandOption::Print,
    CommandOption::NewKeys,
];

static DAEMON_SETS: [OptionSet; 3] = [OptionSet::Serve, OptionSet::Trial, OptionSet::List];

static CLIENT_SETS: [OptionSet; 3] = [
    OptionSet::SendForAddress,
    OptionSet::SendForSource,
    OptionSet::KeyGen,
];

static NO_OPTIONS: [CommandOption; 0] = [];

static NO_SETS: [OptionSet; 0] = [];

impl Tool {
    /// The options that it has.
    pub(crate) fn options(self) -> &'static [CommandOption]
        ensures { result.now ≡ options_of self }
    {
        match self {
            Tool::Daemon => &DAEMON_OPTIONS,
            Tool::Client => &CLIENT_OPTIONS,
            Tool::Fko => &NO_OPTIONS,
        }
    }

    /// The sets that its options may make.
    pub(crate) fn sets(self) -> &'static [OptionSet]
        ensures { result.now ≡ sets_of self }
    {
        match self {
            Tool::Daemon => &DAEMON_SETS,
            Tool::Client => &CLIENT_SETS,
            Tool::Fko => &NO_SETS,
        }
    }
}
