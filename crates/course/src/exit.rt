//! How a run ends.
ghost use Rattle.std.specs.Prelude.{◌≡◌};
ghost use Rattle.course.specs.Course.{verdict_status, status_of};

use crate::{Halt, Verdict};
use outside::Stop;

/// The status of a run. Its number, from 0 in this order, is the exit status of the program.
#[derive(Clone, Copy, Debug, PartialEq, Eq)]
pub enum Status {
    /// All was done.
    Done,
    /// All was done, and some line of the input was refused.
    SomeRefused,
    /// The words are none of the forms.
    Usage,
    /// The definition is missing or was refused, or two views of a stack have one view database.
    BadDefinition,
    /// The source relations were refused; or in `apply` the folder or a line, or in `journal` the journal.
    BadCatalogue,
    /// The view was refused, or its folder differs.
    NoView,
    /// A call that reads failed.
    ReadFault,
    /// A call that writes failed.
    WriteFault,
    /// No memory was left.
    NoMemory,
    /// The input is too long.
    TooLong,
    /// The disk failed on which accepted changes are kept.
    DiskFault,
    /// No more changes can be kept.
    JournalFull,
}

impl Status {
    ghost use Rattle.course.specs.Exit.{exit_number};

    /// The exit status of the program.
    pub fn number(self) -> u8
        ensures { result ≡ exit_number self }
    {
        match self {
            Status::Done => 0,
            Status::SomeRefused => 1,
            Status::Usage => 2,
            Status::BadDefinition => 3,
            Status::BadCatalogue => 4,
            Status::NoView => 5,
            Status::ReadFault => 6,
            Status::WriteFault => 7,
            Status::NoMemory => 8,
            Status::TooLong => 9,
            Status::DiskFault => 10,
            Status::JournalFull => 11,
        }
    }
}

// The status of a verdict.
fn status_of_verdict(verdict: Verdict) -> Status
    ensures { result ≡ verdict_status verdict }
{
    match verdict {
        Verdict::Done => Status::Done,
        Verdict::SomeRefused => Status::SomeRefused,
        Verdict::Usage => Status::Usage,
        Verdict::BadDefinition => Status::BadDefinition,
        Verdict::BadCatalogue => Status::BadCatalogue,
        Verdict::NoView => Status::NoView,
        Verdict::JournalFull => Status::JournalFull,
    }
}

/// The status of an ending.
pub fn status_of_ending(ending: Result<Verdict, Halt>) -> Status
    ensures { result ≡ status_of ending }
{
    match ending {
        Ok(verdict) => status_of_verdict(verdict),
        Err(Halt::InputFault) => Status::ReadFault,
        Err(Halt::TooLong) => Status::TooLong,
        Err(Halt::DiskFault) => Status::DiskFault,
        Err(Halt::Stopped(Stop::ReadFault)) => Status::ReadFault,
        Err(Halt::Stopped(Stop::WriteFault)) => Status::WriteFault,
        Err(Halt::Stopped(Stop::NoMemory)) => Status::NoMemory,
    }
}
