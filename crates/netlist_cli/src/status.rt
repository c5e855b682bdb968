ghost use Rattle.std.specs.Prelude.{◌≡◌};
ghost use Rattle.netlist_cli.specs.Statuses.{number_of};

/// How a run ended.
#[derive(Clone, Copy, PartialEq, Eq)]
pub enum Status {
    /// The work was done.
    Done,
    /// The input is no text of the language.
    TextFault,
    /// The input is a text of the language, and a rule of the command is broken.
    Refused,
    /// The input failed.
    ReadFault,
    /// The output failed.
    WriteFault,
    /// The words are no command.
    Usage,
    /// Memory ran out.
    NoMemory,
    /// The input is longer than is read, or the design larger than is kept or than the command takes.
    Limit,
}

impl Status {
    /// The number with which the program ends.
    pub fn number(&self) -> u8
        ensures { result ≡ number_of self.now }
    {
        match self {
            Status::Done => 0,
            Status::TextFault => 1,
            Status::Refused => 2,
            Status::ReadFault => 3,
            Status::WriteFault => 4,
            Status::Usage => 5,
            Status::NoMemory => 6,
            Status::Limit => 7,
        }
    }
}
