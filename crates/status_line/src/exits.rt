ghost use Rattle.std.specs.Prelude.{◌≡◌};
ghost use Rattle.status_line.specs.Exits.{exit_number};

use run_model::Status;

/// The exit status of the program.
pub fn exit_of(status: &Status) -> u8
    ensures { result ≡ exit_number status.now }
{
    match status {
        Status::Done => 0,
        Status::Bad { .. } => 1,
        Status::Usage(_) => 2,
        Status::BadInput { .. } => 3,
        Status::TooLong => 4,
        Status::ReadFault => 5,
        Status::WriteFault => 6,
        Status::JournalFault { .. } => 7,
        Status::Full { .. } => 8,
        Status::NoMemory => 9,
        Status::JournalForeign { .. } => 10,
    }
}
