//! How a call ends.

ghost use Rattle.std.specs.Prelude.{◌≡◌};
ghost use Rattle.command_line.specs.Codes.{exit_code};

/// How a call ended, which is the program's exit status.
#[derive(Clone, Copy, Debug, PartialEq, Eq)]
pub enum Status {
    /// The work was done: each query was answered, the answer is fixed or within its guarantee, the table was made, or the links were served.
    Done = 0,
    /// All was written, and a query was refused, or the certificate was, or the answer is beaten, or a node found no list of its name.
    Partial = 1,
    /// The words are no command.
    BadWords = 2,
    /// The catalog's text is none.
    BadCatalog = 3,
    /// A read of the input failed.
    ReadFault = 4,
    /// A write failed.
    WriteFault = 5,
    /// The catalog couldn't be read.
    OpenFault = 6,
    /// A port failed to listen, or to give a connection.
    PortFault = 7,
    /// No memory was left.
    Memory = 8,
    /// The input has more bytes than the limit.
    LongInput = 9,
    /// The input is no bundle.
    BadInput = 10,
}

impl Status {
    /// The exit status of the program.
    pub fn code(self) -> u8
        ensures { result ≡ exit_code self }
    {
        self as u8
    }
}
