ghost use Rattle.std.specs.Prelude.{◌≡◌};
ghost use Rattle.dm_outside.specs.Exits.{exit_code};

/// How a run ended.
#[derive(Clone, Copy, Debug, PartialEq, Eq)]
pub enum Status {
    /// The implementations were written, or the lines of a sample.
    Done,
    /// The derive refused the declaration, and the refusal's line was written.
    Refused,
    /// There were more than 1,048,576 bytes, or no trait's name and declaration.
    BadInput,
    /// The source failed.
    ReadFault,
    /// The sink failed.
    WriteFault,
    /// There was no memory.
    NoMemory,
    /// The words are no words of this program.
    Usage,
}

impl Status {
    /// The exit code of a process that ends so.
    pub fn code(self) -> u8
        ensures { result ≡ exit_code self }
    {
        match self {
            Status::Done => 0,
            Status::Refused => 1,
            Status::BadInput => 2,
            Status::ReadFault => 3,
            Status::WriteFault => 4,
            Status::NoMemory => 5,
            Status::Usage => 6,
        }
    }
}
