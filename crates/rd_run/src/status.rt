//! How a run ends.

ghost use Rattle.std.specs.Prelude.{◌≡◌};
ghost use Rattle.rd_run.specs.Endings as ends;

use rd_scene::{Place, Why};

/// The end of a run.
#[derive(Clone, Copy, Debug, PartialEq, Eq)]
pub enum Status {
    /// The whole text was written.
    Done,
    /// The words are of no form.
    Usage,
    /// The input is no JSON.
    NotJson,
    /// The input is JSON, and no script: the first rule of the format that it breaks, and where.
    Form { place: Place, why: Why },
    /// The source failed.
    ReadFault,
    /// The sink failed.
    WriteFault,
    /// There was no memory.
    NoMemory,
    /// The input is longer than the limit.
    TooLarge,
    /// The input is the spelling of no wire.
    BadWire,
    /// The bytes before the script are no dump.
    BadDump,
}

impl Status {
    /// The exit status.
    pub fn number(self) -> u8
        ensures { result ≡ ends.number self }
    {
        match self {
            Status::Done => 0,
            Status::Usage => 1,
            Status::NotJson => 2,
            Status::Form { .. } => 3,
            Status::ReadFault => 4,
            Status::WriteFault => 5,
            Status::NoMemory => 6,
            Status::TooLarge => 7,
            Status::BadWire => 8,
            Status::BadDump => 9,
        }
    }
}
