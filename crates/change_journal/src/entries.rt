//! The entries of a journal, one after another.
ghost use Rattle.std.specs.Prelude.{◌≡◌, ◌⊎◌, ◌+◌, ◌<◌, ◌≤◌, List, [], Some, length, IfOk, IfErr, IsErrOf, OnErr};
ghost use Rattle.outside.specs.Counts.{Rose};
ghost use Rattle.disk.specs.Disk.{Content};
ghost use Rattle.disk.specs.Moments.{Elapses};
ghost use Rattle.change_journal.specs.Spelled.{Group};
ghost use Rattle.change_journal.specs.Opening.{IsReading, IsNextOf, GoesOn, IsFormed, HasRead, ReadsOn, read_at};

use crate::mark::Mark;
use crate::reading::read_group;
use crate::window::Window;
use crate::{Journal, JournalFault};
use disk::Disk;
use schema_model::Change;
use std::alloc::Global;
use std::marker::Model;

/// What is read next.
#[derive(Drop)]
pub enum NextEntry {
    /// The changes of an entry, in order.
    Entry(Vec<Change>),
    /// No entry is left: the journal, to which more can be added.
    End(Journal),
}

/// A reader of the entries of a journal, in one pass. It holds a piece of the disk and one entry, and writes nothing.
#[derive(Drop)]
pub struct Entries {
    window: Window,
}

impl Model for Entries {
    ghost use Rattle.change_journal.specs.States.{WindowState};

    ghost Value = { WindowState };

    ghost view = { λ e. e.window };
}

impl Entries {
    /// A reader at the first byte of a disk.
    pub(crate) fn of<D: Disk>(alloc: Global, disk: &mut D) -> Result<Entries, JournalFault>
        ensures reading { IfOk result (λ entries. IsReading entries ((D.state disk.new).content)) }
        ensures read { IfOk result (λ entries. HasRead [] entries ((D.state disk.new).content)) }
        ensures content { (D.state disk.new).content ≡ (D.state disk.old).content }
        ensures time { Elapses (D.state disk.old) (D.state disk.new) (D.left_since disk.old) (D.left_since disk.new) }
        ensures only { IfErr result (λ e. e ≡ JournalFault.DiskFault) }
        ensures failed { OnErr result (Rose ((D.state disk.old).faults) ((D.state disk.new).faults)) }
        ensures steady { (D.state disk.old).faults ≤ (D.state disk.new).faults }
    {
        let size = disk.size()?;
        Ok(Entries {
            window: Window::of(alloc, size),
        })
    }

    /// The next entry, or the end. `BadJournal` has the place, from 0, at which neither stands. After an error the reader
    /// stands where it stood.
    pub fn next<D: Disk>(&mut self, alloc: Global, disk: &mut D) -> Result<NextEntry, JournalFault>
        requires { IsReading self.old ((D.state disk.old).content) }
        ensures read { (groups : List Group) → HasRead groups self.old ((D.state disk.old).content) → ReadsOn groups self.new ((D.state disk.new).content) result }
        ensures reading { IsReading self.new ((D.state disk.new).content) }
        ensures goes_on { GoesOn self.old self.new result }
        ensures formed { IfOk result IsFormed }
        ensures size { self.new.size ≡ self.old.size }
        ensures content { (D.state disk.new).content ≡ (D.state disk.old).content }
        ensures time { Elapses (D.state disk.old) (D.state disk.new) (D.left_since disk.old) (D.left_since disk.new) }
        ensures no_other { ¬ (IsErrOf result JournalFault.Full) × ¬ (IsErrOf result JournalFault.Shut) }
        ensures failed { IsErrOf result JournalFault.DiskFault → Rose ((D.state disk.old).faults) ((D.state disk.new).faults) }
        ensures steady { (D.state disk.old).faults ≤ (D.state disk.new).faults }
    {
        read_next(alloc, &mut self.window, disk)
    }
}

// The entry or the end that stands at the place of a window.
fn read_next<D: Disk>(
    alloc: Global,
    window: &mut Window,
    disk: &mut D,
) -> Result<NextEntry, JournalFault>
    requires { IsReading window.old ((D.state disk.old).content) }
    ensures next { (held : Content) → (D.state disk.old).content ≡ Some held → IsNextOf (read_at window.old.place held.bytes) (read_at window.new.place held.bytes) result }
    ensures reading { IsReading window.new ((D.state disk.new).content) }
    ensures goes_on { GoesOn window.old window.new result }
    ensures formed { IfOk result IsFormed }
    ensures size { window.new.size ≡ window.old.size }
    ensures content { (D.state disk.new).content ≡ (D.state disk.old).content }
    ensures time { Elapses (D.state disk.old) (D.state disk.new) (D.left_since disk.old) (D.left_since disk.new) }
    ensures no_other { ¬ (IsErrOf result JournalFault.Full) × ¬ (IsErrOf result JournalFault.Shut) }
    ensures failed { IsErrOf result JournalFault.DiskFault → Rose ((D.state disk.old).faults) ((D.state disk.new).faults) }
    ensures steady { (D.state disk.old).faults ≤ (D.state disk.new).faults }
{
    let at = window.place();
    let left = window.left();
    window.fill(alloc, disk, left.min(5))?;
    match Mark::of(window.ahead()) {
        Mark::End => Ok(NextEntry::End(Journal::ended_at(at))),
        Mark::Nothing => Err(JournalFault::BadJournal { at }),
        Mark::Sized(n) => {
            if left < 5 + n {
                return Err(JournalFault::BadJournal { at });
            }
            window.fill(alloc, disk, 5 + n)?;
            match read_group(alloc, &window.ahead()[5..5 + n as usize])? {
                Some(group) => {
                    window.pass(5 + n);
                    Ok(NextEntry::Entry(group))
                }
                None => Err(JournalFault::BadJournal { at }),
            }
        }
    }
}
