//! The table of the commands: how each is written, and which options it has.

ghost use Rattle.std.specs.Prelude.{◌≡◌};
ghost use Rattle.cmp_cli.specs.Words.{command_word, option_word, is_same, rows, row_among};

/// A command.
#[derive(Debug, Clone, Copy, PartialEq, Eq)]
pub enum Command {
    /// Whether the protocol is inductive.
    Check,
}

/// An option.
#[derive(Debug, Clone, Copy, PartialEq, Eq)]
pub enum OptionName {
    /// The file of the protocol.
    Protocol,
}

/// The values that an option takes.
#[derive(Debug, Clone, Copy, PartialEq, Eq)]
pub enum Takes {
    /// A text that is not empty.
    Text,
    /// A number from `least` to `greatest`, in decimal, with no sign and no zero in front.
    Number { least: u32, greatest: u32 },
}

/// What a command says of one of its options.
#[derive(Debug, Clone, Copy, PartialEq, Eq)]
pub struct Row {
    pub option: OptionName,
    pub required: bool,
    pub takes: Takes,
}

impl Command {
    /// How the command is written.
    pub fn word(self) -> &'static str
        ensures { result.now ≡ command_word self }
    {
        match self {
            Command::Check => "check",
        }
    }

    /// What the command says of an option, if it has it.
    pub fn row(self, option: OptionName) -> Option<Row>
        ensures { result ≡ row_among (rows self) option }
    {
        match (self, option) {
            (Command::Check, OptionName::Protocol) => Some(Row {
                option,
                required: true,
                takes: Takes::Text,
            }),
        }
    }
}

impl OptionName {
    /// How the option is written, before its value.
    pub fn word(self) -> &'static str
        ensures { result.now ≡ option_word self }
    {
        match self {
            OptionName::Protocol => "--protocol",
        }
    }

    /// Whether the two are one option.
    pub fn is(self, other: OptionName) -> bool
        ensures { result ≡ is_same self other }
    {
        self.word() == other.word()
    }
}
