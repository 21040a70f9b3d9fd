// The answers of the top call.
ghost use Rattle.std.specs.Prelude.{◌≡◌};
ghost use Rattle.reports.specs.Statuses.{number};

/// What the call answers.
#[derive(Clone, Copy, Debug, PartialEq, Eq)]
pub enum Status {
    /// The files keep the rules; after `check` and `trial` the certificates are written.
    Accepted,
    /// The report names what is at fault.
    Rejected,
    /// The report names what could not be decided.
    Undecided,
    /// The model has a fault.
    ModelRefused,
    /// The words are no command.
    Usage,
    /// A file could not be read.
    ReadFault,
    /// A file or the report could not be written.
    WriteFault,
    /// A file or an area is larger than its limit.
    OverLimit,
    /// Out of memory. Nothing was written.
    Memory,
    /// The certificates do not prove the areas.
    NotProved,
}

impl Status {
    /// The exit status of the program, from 0 to 9 in the order of the variants.
    pub fn number(self) -> u8
        ensures { result ≡ number self }
    {
        match self {
            Status::Accepted => 0,
            Status::Rejected => 1,
            Status::Undecided => 2,
            Status::ModelRefused => 3,
            Status::Usage => 4,
            Status::ReadFault => 5,
            Status::WriteFault => 6,
            Status::OverLimit => 7,
            Status::Memory => 8,
            Status::NotProved => 9,
        }
    }
}
