//! A catalogue after the entries of a journal.
ghost use Rattle.std.specs.Prelude.{◌≡◌, ◌≤◌, ◌<◌, ◌+◌, ◌++◌, ◌∷◌, List, [], Some, Ok, None, is_some, not, true, false, IfOk, IfErr, IsErrOf, IsTrue};
ghost use Rattle.std.specs.List.{AllByRecursion};
ghost use Rattle.outside.specs.Counts.{Rose};
ghost use Rattle.disk.specs.Disk.{Content};
ghost use Rattle.disk.specs.Moments.{Elapses};
ghost use Rattle.schema_model.specs.Changes.{after, after_all, is_well_formed};
ghost use Rattle.schema_model.specs.Refusals.{fault, group_fault};
ghost use Rattle.change_journal.specs.Spelled.{Group};
ghost use Rattle.change_journal.specs.Opening.{IsReading, GoesOn, IsFormed, HasRead};
ghost use Rattle.journal_log.specs.Logs.{IsReady};
ghost use Rattle.journal_log.specs.Replay.{replayed, Replays, ReadsNext, ReadsOut};

use crate::{JournalRefusal, ReplayFault};
use change_journal::{Entries, Journal, JournalFault, NextEntry};
use disk::Disk;
use schema_model::{Catalogue, Change};
use ss_text::NoMemory;
use std::alloc::Global;

/// Makes the changes of the journal of a disk, entry by entry, and opens the journal. The whole journal is read before it is
/// refused for a change. It writes nothing. After a fault nothing is said of the catalogue.
pub fn replay<D: Disk>(
    alloc: Global,
    disk: &mut D,
    catalogue: &mut Catalogue,
) -> Result<Journal, ReplayFault>
    ensures told { (held : Content) → (D.state disk.old).content ≡ Some held → Replays (replayed catalogue.old.databases held.bytes) catalogue.new.databases result }
    ensures ready { IfOk result (λ journal. IsReady journal (D.state disk.new)) }
    ensures content { (D.state disk.new).content ≡ (D.state disk.old).content }
    ensures time { Elapses (D.state disk.old) (D.state disk.new) (D.left_since disk.old) (D.left_since disk.new) }
    ensures failed { IsErrOf result ReplayFault.DiskFault → Rose ((D.state disk.old).faults) ((D.state disk.new).faults) }
    ensures steady { (D.state disk.old).faults ≤ (D.state disk.new).faults }
{
    let mut entries = opened(alloc, disk)?;
    let mut count = 0;
    'replaying: loop {
        match next(alloc, &mut entries, disk)? {
            NextEntry::End(journal) => return Ok(journal),
            NextEntry::Entry(group) => {
                let number = one_more(count)?;
                if !make_all(catalogue, &group)? {
                    read_out(alloc, &mut entries, disk)?;
                    return Err(ReplayFault::Refused(JournalRefusal::Stale { number }));
                }
                count = number;
            }
        }
    }
}

// The next number. More entries than can be counted are no memory.
fn one_more(count: u64) -> Result<u64, NoMemory>
    ensures { IfOk result (λ number. number ≡ count + 1) }
{
    match count.checked_add(1) {
        Some(number) => Ok(number),
        None => Err(NoMemory),
    }
}

// A reader of the journal of a disk.
fn opened<D: Disk>(alloc: Global, disk: &mut D) -> Result<Entries, ReplayFault>
    ensures reading { IfOk result (λ entries. IsReading entries ((D.state disk.new).content)) }
    ensures read { IfOk result (λ entries. HasRead [] entries ((D.state disk.new).content)) }
    ensures content { (D.state disk.new).content ≡ (D.state disk.old).content }
    ensures time { Elapses (D.state disk.old) (D.state disk.new) (D.left_since disk.old) (D.left_since disk.new) }
    ensures only { IfErr result (λ e. e ≡ ReplayFault.DiskFault) }
    ensures failed { IsErrOf result ReplayFault.DiskFault → Rose ((D.state disk.old).faults) ((D.state disk.new).faults) }
    ensures steady { (D.state disk.old).faults ≤ (D.state disk.new).faults }
{
    match Journal::open(alloc, disk) {
        Ok(entries) => Ok(entries),
        Err(_) => Err(ReplayFault::DiskFault),
    }
}

// What is read next.
fn next<D: Disk>(
    alloc: Global,
    entries: &mut Entries,
    disk: &mut D,
) -> Result<NextEntry, ReplayFault>
    requires { IsReading entries.old ((D.state disk.old).content) }
    ensures read { (groups : List Group) → HasRead groups entries.old ((D.state disk.old).content) → ReadsNext groups entries.new ((D.state disk.new).content) result }
    ensures reading { IsReading entries.new ((D.state disk.new).content) }
    ensures goes_on { IfOk result (λ next. GoesOn entries.old entries.new (Ok next)) }
    ensures formed { IfOk result IsFormed }
    ensures size { entries.new.size ≡ entries.old.size }
    ensures content { (D.state disk.new).content ≡ (D.state disk.old).content }
    ensures time { Elapses (D.state disk.old) (D.state disk.new) (D.left_since disk.old) (D.left_since disk.new) }
    ensures not_stale { (n : _) → ¬ (IsErrOf result (ReplayFault.Refused (JournalRefusal.Stale n))) }
    ensures failed { IsErrOf result ReplayFault.DiskFault → Rose ((D.state disk.old).faults) ((D.state disk.new).faults) }
    ensures steady { (D.state disk.old).faults ≤ (D.state disk.new).faults }
{
    match entries.next(alloc, disk) {
        Ok(next) => Ok(next),
        Err(JournalFault::BadJournal { at }) => Err(ReplayFault::Refused(
            JournalRefusal::BadJournal { at },
        )),
        Err(JournalFault::DiskFault) => Err(ReplayFault::DiskFault),
        Err(JournalFault::NoMemory) => Err(ReplayFault::NoMemory),
        Err(JournalFault::Full) => unreachable!(),
        Err(JournalFault::Shut) => unreachable!(),
    }
}

// Reads a journal to its end.
fn read_out<D: Disk>(alloc: Global, entries: &mut Entries, disk: &mut D) -> Result<(), ReplayFault>
    requires { IsReading entries.old ((D.state disk.old).content) }
    ensures read { (groups : List Group) → HasRead groups entries.old ((D.state disk.old).content) → ReadsOut groups ((D.state disk.new).content) result }
    ensures content { (D.state disk.new).content ≡ (D.state disk.old).content }
    ensures time { Elapses (D.state disk.old) (D.state disk.new) (D.left_since disk.old) (D.left_since disk.new) }
    ensures not_stale { (n : _) → ¬ (IsErrOf result (ReplayFault.Refused (JournalRefusal.Stale n))) }
    ensures failed { IsErrOf result ReplayFault.DiskFault → Rose ((D.state disk.old).faults) ((D.state disk.new).faults) }
    ensures steady { (D.state disk.old).faults ≤ (D.state disk.new).faults }
{
    'reading: loop {
        match next(alloc, entries, disk)? {
            NextEntry::End(_) => return Ok(()),
            NextEntry::Entry(_) => {}
        }
    }
}

// Makes changes one after another, and answers whether none of them was refused.
fn make_all(catalogue: &mut Catalogue, changes: &[Change]) -> Result<bool, NoMemory>
    requires { AllByRecursion (λ g. IsTrue (is_well_formed g)) changes.now }
    ensures refused { IfOk result (λ all_made. not all_made ≡ is_some (group_fault catalogue.old.databases changes.now)) }
    ensures made { IfOk result (λ all_made. IsTrue all_made → catalogue.new.databases ≡ after_all catalogue.old.databases changes.now) }
{
    for change in changes {
        if !make(catalogue, change)? {
            return Ok(false);
        }
    }
    Ok(true)
}

// Makes a change, and answers whether it was not refused.
fn make(catalogue: &mut Catalogue, change: &Change) -> Result<bool, NoMemory>
    requires { IsTrue (is_well_formed change.now) }
    ensures refused { IfOk result (λ made. not made ≡ is_some (fault catalogue.old.databases change.now)) }
    ensures made { IfOk result (λ made. IsTrue made → catalogue.new.databases ≡ after catalogue.old.databases change.now) }
{
    catalogue.link(change)?;
    if catalogue.judge(change).is_some() {
        return Ok(false);
    }
    let ready = catalogue.reserve(change)?;
    catalogue.commit(ready);
    Ok(true)
}
