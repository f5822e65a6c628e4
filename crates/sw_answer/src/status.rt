//! How a command ended.

ghost use Rattle.std.specs.Prelude.{◌≡◌};
ghost use Rattle.sw_answer.specs.Statuses.{status_number};

use sw_base::Name;
use sw_settings::SettingsFault;

/// How a command ended.
#[derive(Drop, Debug)]
pub enum Status {
    /// The command's output was written.
    Ok,
    /// The line of this number, from 1, is the input's first that isn't in the grammar.
    BadLine(u64),
    /// Each line is in the grammar, and the settings are refused for this reason, the first that applies.
    Settings(SettingsFault),
    /// More than 67,108,864 bytes came.
    InputLong,
    /// The trace's least place that is missing, doubled, has another reply than the Table's definition gives, or stands behind
    /// a greater place of the same caller.
    No(u64),
    /// Each line is in the grammar, and the one of this number, from 1, is the first whose row the new columns refuse; the name is
    /// that of the first column for which they do.
    Unfit(u64, Name),
    /// The words name no command.
    Usage,
    /// A read of the source failed.
    ReadFault,
    /// A write of the sink failed, and a beginning of what was to be written was.
    WriteFault,
    /// Memory ran out.
    OutOfMemory,
}

impl Status {
    /// The number that the program ends with.
    pub fn number(&self) -> u8
        ensures { result ≡ status_number self.now }
    {
        match self {
            Status::Ok => 0,
            Status::BadLine(_) => 1,
            Status::Settings(_) => 1,
            Status::InputLong => 1,
            Status::No(_) => 1,
            Status::Unfit(_, _) => 1,
            Status::Usage => 2,
            Status::ReadFault => 3,
            Status::WriteFault => 4,
            Status::OutOfMemory => 5,
        }
    }
}
