//! A journal of groups of changes on a disk.
ghost use Rattle.std.specs.Prelude.{◌≡◌, ◌↔◌, Some, ◌+◌, ◌<◌, ◌≤◌, ◌^◌, ◌∷◌, ◌++◌, ◌||◌, nat_le, ℕ, [], List, true, false, length, IfOk, IfErr, OnOk, OnErr, IsErrOf, option_map};
ghost use Rattle.outside.specs.Counts.{Rose};
ghost use Rattle.disk.specs.Disk.{Content, MayLeave, overwritten, stable};
ghost use Rattle.disk.specs.Moments.{Elapses, LeavesOnly};
ghost use Rattle.change_journal.specs.Spelled.{Group, IsSpellable};
ghost use Rattle.change_journal.specs.Opening.{IsReading, HasRead};
ghost use Rattle.change_journal.specs.Journals.{IsOpenAt, AllHave, Has, HasFront, IsBeforeOrAfter, MayHaveWritten, IsEntryOf, doubted, is_full, after_append};

use crate::JournalFault;
use crate::entries::Entries;
use crate::text::{entry_of, text_of};
use disk::Disk;
use outside::{Failed, StoreFault};
use schema_model::Change;
use std::alloc::Global;
use std::marker::Model;

// A journal ends before this place, and the text of a group has fewer bytes than that.
const MOST: u64 = 1 << 62;

const MOST_TEXT: u64 = 1 << 32;

/// A journal, which contracts see as the place of the byte 0 at its end and whether it is shut.
#[derive(Drop)]
pub struct Journal {
    end: u64,
    is_shut: bool,
}

impl Model for Journal {
    ghost use Rattle.change_journal.specs.States.{JournalState};

    ghost Value = { JournalState };

    ghost view = { λ j. record { end = j.end; is_shut = j.is_shut } };
}

impl Journal {
    /// The journal whose end is the byte 0 at a place.
    pub(crate) fn ended_at(end: u64) -> Journal
        ensures { result ≡ record { end = end; is_shut = false } }
    {
        Journal {
            end,
            is_shut: false,
        }
    }

    /// A reader of the journal of a disk, from its first byte on, which hands on the entries and then the journal. It writes
    /// nothing.
    pub fn open<D: Disk>(alloc: Global, disk: &mut D) -> Result<Entries, JournalFault>
        ensures reading { IfOk result (λ entries. IsReading entries ((D.state disk.new).content)) }
        ensures read { IfOk result (λ entries. HasRead [] entries ((D.state disk.new).content)) }
        ensures content { (D.state disk.new).content ≡ (D.state disk.old).content }
        ensures time { Elapses (D.state disk.old) (D.state disk.new) (D.left_since disk.old) (D.left_since disk.new) }
        ensures only { IfErr result (λ e. e ≡ JournalFault.DiskFault) }
        ensures failed { OnErr result (Rose ((D.state disk.old).faults) ((D.state disk.new).faults)) }
        ensures steady { (D.state disk.old).faults ≤ (D.state disk.new).faults }
    {
        Entries::of(alloc, disk)
    }

    /// Adds a group of changes. From `Ok` on every crash leaves an image that has it. After `DiskFault` the journal is shut.
    /// After `Full` and `Shut` the disk was not called. After `NoMemory` the group is not there, and can be added again.
    pub fn append<D: Disk>(
        &mut self,
        alloc: Global,
        disk: &mut D,
        group: &[Change],
    ) -> Result<(), JournalFault>
        requires spellable { IsSpellable group.now }

        // The disk is the one that was opened.
        requires opened { self.old.is_shut ≡ false → IsOpenAt self.old.end ((D.state disk.old).content) }

        ensures journal { self.new ≡ after_append result group.now self.old }
        ensures opened { self.new.is_shut ≡ false → IsOpenAt self.new.end ((D.state disk.new).content) }

        // A crash at any moment of the call leaves the entries from before it, with the group or without; where it found no
        // memory or did not call the disk, without.
        ensures any_moment { (groups : List Group) → AllHave groups ((D.state disk.old).content)
            → LeavesOnly (D.state disk.old) (D.state disk.new) (D.left_since disk.old) (D.left_since disk.new) (HasFront groups (doubted result group.now)) }
        ensures acknowledged { OnOk result ((groups : List Group) → AllHave groups ((D.state disk.old).content) → AllHave (groups ++ group.now ∷ []) ((D.state disk.new).content)) }
        ensures no_memory { IsErrOf result JournalFault.NoMemory → (groups : List Group) → AllHave groups ((D.state disk.old).content) → AllHave groups ((D.state disk.new).content) }

        // It gives up only where it must.
        ensures shut { IsErrOf result JournalFault.Shut ↔ (self.old.is_shut ≡ true) }
        ensures full { IsErrOf result JournalFault.Full → is_full self.old.end group.now ≡ true }
        ensures room { OnOk result (is_full self.old.end group.now ≡ false) }
        ensures room_fault { IsErrOf result JournalFault.DiskFault → is_full self.old.end group.now ≡ false }
        ensures idle_shut { IsErrOf result JournalFault.Shut → disk.new ≡ disk.old }
        ensures idle_full { IsErrOf result JournalFault.Full → disk.new ≡ disk.old }
        ensures not_bad { (at : ℕ) → ¬ (IsErrOf result (JournalFault.BadJournal at)) }
        ensures failed { IsErrOf result JournalFault.DiskFault → Rose ((D.state disk.old).faults) ((D.state disk.new).faults) }
        ensures steady { (D.state disk.old).faults ≤ (D.state disk.new).faults }
    {
        if self.is_shut {
            return Err(JournalFault::Shut);
        }
        let Ok(text) = text_of(alloc, group) else {
            return Err(JournalFault::NoMemory);
        };
        if is_full(self.end, text.len() as u64) {
            return Err(JournalFault::Full);
        }
        let Ok(entry) = entry_of(alloc, text.as_slice()) else {
            return Err(JournalFault::NoMemory);
        };
        match put_entry(alloc, disk, self.end, entry.as_slice()) {
            Ok(()) => {
                self.end += entry.len() as u64;
                Ok(())
            }
            Err(StoreFault::Failed) => {
                self.is_shut = true;
                Err(JournalFault::DiskFault)
            }
            Err(StoreFault::NoMemory) => Err(JournalFault::NoMemory),
        }
    }
}

// Whether a journal that ends at a place has no room for a text of so many bytes.
fn is_full(end: u64, len: u64) -> bool
    ensures { result ≡ (nat_le (2 ^ 62) (end + 6 + len) || nat_le (2 ^ 32) len) }
{
    len >= MOST_TEXT || end >= MOST - 6 - len
}

// Writes an entry behind the byte at the end of a journal, and then opens it.
fn put_entry<D: Disk>(alloc: Global, disk: &mut D, end: u64, entry: &[u8]) -> Result<(), StoreFault>
    requires fits { end + 1 + length entry.now < 2 ^ 62 }
    requires some { 0 < length entry.now }
    requires opened { IsOpenAt end ((D.state disk.old).content) }
    ensures opened { (group : Group) → IsEntryOf group entry.now → OnOk result (IsOpenAt (end + length entry.now) ((D.state disk.new).content)) }
    ensures still_opened { IsErrOf result StoreFault.NoMemory → IsOpenAt end ((D.state disk.new).content) }
    ensures any_moment { (group : Group) (groups : List Group) → IsEntryOf group entry.now → AllHave groups ((D.state disk.old).content)
        → LeavesOnly (D.state disk.old) (D.state disk.new) (D.left_since disk.old) (D.left_since disk.new) (IsBeforeOrAfter groups group) }
    ensures still { (groups : List Group) → IsErrOf result StoreFault.NoMemory → AllHave groups ((D.state disk.old).content)
        → LeavesOnly (D.state disk.old) (D.state disk.new) (D.left_since disk.old) (D.left_since disk.new) (Has groups) }
    ensures acknowledged { (group : Group) (groups : List Group) → IsEntryOf group entry.now
        → OnOk result (AllHave groups ((D.state disk.old).content) → AllHave (groups ++ group ∷ []) ((D.state disk.new).content)) }
    ensures no_memory { (groups : List Group) → IsErrOf result StoreFault.NoMemory → AllHave groups ((D.state disk.old).content) → AllHave groups ((D.state disk.new).content) }
    ensures failed { IsErrOf result StoreFault.Failed → Rose ((D.state disk.old).faults) ((D.state disk.new).faults) }
    ensures steady { (D.state disk.old).faults ≤ (D.state disk.new).faults }
{
    // The entry has to be stable first: behind a byte that is opened, what is there counts.
    match write_stable(alloc, disk, end + 1, entry) {
        Ok(()) => write_stable(alloc, disk, end, &[1]),
        Err(fault) => Err(fault),
    }
}

// Writes bytes and makes them stable.
fn write_stable<D: Disk>(
    alloc: Global,
    disk: &mut D,
    at: u64,
    bytes: &[u8],
) -> Result<(), StoreFault>
    requires within { (held : Content) → (D.state disk.old).content ≡ Some held → at ≤ length held.bytes }
    requires fits { at + length bytes.now < 2 ^ 62 }
    ensures ok { OnOk result ((D.state disk.new).content ≡ option_map (λ held. stable (overwritten at bytes.now held.bytes)) ((D.state disk.old).content)) }
    ensures no_memory { IsErrOf result StoreFault.NoMemory → (D.state disk.new).content ≡ (D.state disk.old).content }
    ensures any_moment { LeavesOnly (D.state disk.old) (D.state disk.new) (D.left_since disk.old) (D.left_since disk.new) (MayHaveWritten at (length bytes.now) ((D.state disk.old).content)) }
    ensures still { IsErrOf result StoreFault.NoMemory → LeavesOnly (D.state disk.old) (D.state disk.new) (D.left_since disk.old) (D.left_since disk.new) (MayLeave ((D.state disk.old).content)) }
    ensures failed { IsErrOf result StoreFault.Failed → Rose ((D.state disk.old).faults) ((D.state disk.new).faults) }
    ensures steady { (D.state disk.old).faults ≤ (D.state disk.new).faults }
{
    disk.write_at(alloc, at, bytes)?;
    match disk.sync() {
        Ok(()) => Ok(()),
        Err(Failed) => Err(StoreFault::Failed),
    }
}
