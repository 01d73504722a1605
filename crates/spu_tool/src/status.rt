//! How a call of the tool ended.

ghost use Rattle.std.specs.Prelude.{◌≡◌};
ghost use Rattle.spu_tool.specs.Statuses.{number_of};

/// How a call of the tool ended.
#[derive(Clone, Copy, PartialEq, Eq, Debug)]
pub enum Status {
    /// The command was done; a run ended with a stop instruction.
    Ok,
    /// The input has a fault.
    Refused,
    /// The words aren't a command.
    Words,
    /// An input could not be read.
    ReadFault,
    /// The output could not be written, or the text could not be put.
    WriteFault,
    /// Memory ran out.
    OutOfMemory,
    /// A run ended in another way than by a stop instruction.
    Ended,
    /// A run made its steps and hasn't ended.
    Running,
}

/// The number that a status is for the system, 0 to 7 in order.
pub fn status_number(s: Status) -> u8
    ensures { result ≡ number_of s }
{
    match s {
        Status::Ok => 0,
        Status::Refused => 1,
        Status::Words => 2,
        Status::ReadFault => 3,
        Status::WriteFault => 4,
        Status::OutOfMemory => 5,
        Status::Ended => 6,
        Status::Running => 7,
    }
}
