//! Changes are appended to a journal.
ghost use Rattle.std.specs.Prelude.{◌≡◌, ◌⊎◌, ◌<◌, List, length, false, not, IfOk, IfErr, OnOk, IsTrue};
ghost use Rattle.std.specs.List.{AllByRecursion};
ghost use Rattle.schema_model.specs.Changes.{is_well_formed};
ghost use Rattle.course.specs.Keeping.{Entry, LeavesNow, LineBlamesDisk};
ghost use Rattle.change_journal.specs.Lines.{lines_in};
ghost use Rattle.journal_log.specs.Room.{appended_to, lacks_room, grown};
ghost use Rattle.journal_log.specs.Logs.{log_of, IsReady, KeepsFirst};

use change_journal::{Journal, JournalFault};
use course::LineStop;
use disk::Disk;
use outside::Stop;
use schema_model::Change;
use std::alloc::Global;

/// Keeps changes as one entry, and answers true; or false where the journal has no room, and then nothing is written. Without
/// changes it answers true and adds nothing. After `DiskFault` the journal is shut.
pub fn append<D: Disk>(
    alloc: Global,
    journal: &mut Journal,
    disk: &mut D,
    group: &[Change],
) -> Result<bool, LineStop>
    requires well_formed { AllByRecursion (λ g. IsTrue (is_well_formed g)) group.now }
    requires ready { IsReady journal.old (D.state disk.old) }
    ensures room { IfOk result (λ has_room. not has_room ≡ lacks_room journal.old.end group.now) }
    ensures journal { IfOk result (λ has_room. IsTrue has_room → journal.new ≡ grown group.now journal.old) }
    ensures full { IfOk result (λ has_room. has_room ≡ false → journal.new ≡ journal.old) }
    ensures unwritten { IfOk result (λ has_room. has_room ≡ false → disk.new ≡ disk.old) }
    ensures keeps { (es : List Entry) → LeavesNow (log_of D.state D.left_since) es disk.old
        → KeepsFirst (log_of D.state D.left_since) es (lines_in (appended_to journal.old.end group.now)) disk.old disk.new result }
    ensures ready { OnOk result (IsReady journal.new (D.state disk.new)) }
    ensures disk { LineBlamesDisk ((D.state disk.old).faults) ((D.state disk.new).faults) result }
    ensures only { IfErr result (λ e. (e ≡ LineStop.DiskFault) ⊎ (e ≡ LineStop.Stopped Stop.NoMemory)) }
{
    if group.is_empty() {
        return Ok(true);
    }
    append_some(alloc, journal, disk, group)
}

// The same for one change or more.
fn append_some<D: Disk>(
    alloc: Global,
    journal: &mut Journal,
    disk: &mut D,
    group: &[Change],
) -> Result<bool, LineStop>
    requires some { 0 < length group.now }
    requires well_formed { AllByRecursion (λ g. IsTrue (is_well_formed g)) group.now }
    requires ready { IsReady journal.old (D.state disk.old) }
    ensures room { IfOk result (λ has_room. not has_room ≡ lacks_room journal.old.end group.now) }
    ensures journal { IfOk result (λ has_room. IsTrue has_room → journal.new ≡ grown group.now journal.old) }
    ensures full { IfOk result (λ has_room. has_room ≡ false → journal.new ≡ journal.old) }
    ensures unwritten { IfOk result (λ has_room. has_room ≡ false → disk.new ≡ disk.old) }
    ensures keeps { (es : List Entry) → LeavesNow (log_of D.state D.left_since) es disk.old
        → KeepsFirst (log_of D.state D.left_since) es (lines_in (appended_to journal.old.end group.now)) disk.old disk.new result }
    ensures ready { OnOk result (IsReady journal.new (D.state disk.new)) }
    ensures disk { LineBlamesDisk ((D.state disk.old).faults) ((D.state disk.new).faults) result }
    ensures only { IfErr result (λ e. (e ≡ LineStop.DiskFault) ⊎ (e ≡ LineStop.Stopped Stop.NoMemory)) }
{
    match journal.append(alloc, disk, group) {
        Ok(()) => Ok(true),
        Err(JournalFault::Full) => Ok(false),
        Err(JournalFault::DiskFault) => Err(LineStop::DiskFault),
        Err(JournalFault::NoMemory) => Err(LineStop::Stopped(Stop::NoMemory)),
        Err(JournalFault::Shut) => unreachable!(),
        Err(JournalFault::BadJournal { .. }) => unreachable!(),
    }
}
