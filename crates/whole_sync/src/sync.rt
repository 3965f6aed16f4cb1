//! The making of edits, and what the next program does where one was stopped.
ghost use Rattle.std.specs.Prelude.{◌≡◌, ◌⊎◌, ◌≤◌, [], ◌∷◌, ◌++◌, map, true, IfOk, OnOk, OnErr, IsErrOf, None, Some, option_map};
ghost use Rattle.outside.specs.Counts.{Rose};
ghost use Rattle.whole_sync.specs.Disks.{Known, Do, DropList, Off, DoesAll, with_done};
ghost use Rattle.whole_sync.specs.Listing.{CanBeListed};
ghost use Rattle.whole_sync.specs.Protocol.{picked, finishing, edited};
ghost use Rattle.whole_sync.specs.Replacing.{Aside, PutAll, Prepared, TakenBack, Unprepared, Dropped, Replaced, HasNoMoves, ListFinished};
ghost use Rattle.whole_sync.specs.Stops.{Unchanged, Recovered, WholeAtEachStop, SameAtEachStop};

use crate::moves::moves_of;
use crate::words::{list_text, read_list};
use crate::{FileCalls, Move};
use outside::{Edit, StoreFault};
use ss_text::Text;
use std::alloc::Global;

/// Makes all of these edits, in order but that what is removed is so last, or none. Where it fails, none is made, or a
/// list is there by which `recover` makes all. It fails for want of memory only where none is made and no list is there. It
/// answers `Failed` only where a call failed, or the edits cannot be on one list.
pub fn replace<D: FileCalls>(alloc: Global, disk: &mut D, edits: &[Edit]) -> Result<(), StoreFault>
    ensures ok { OnOk result (Replaced edits.now (D.known disk.old) (D.known disk.new)) }
    ensures made { OnOk result ((k n : Known) → D.known disk.old ≡ Some k → D.known disk.new ≡ Some n → n.held.files ≡ edited edits.now k.held.files) }
    ensures whole { (k n : Known) → D.known disk.old ≡ Some k → D.known disk.new ≡ Some n → k.held.list ≡ None → WholeAtEachStop edits.now k n }
    ensures no_memory { IsErrOf result StoreFault.NoMemory → Unchanged (D.known disk.old) (D.known disk.new) }
    ensures failed { IsErrOf result StoreFault.Failed → CanBeListed edits.now → Rose (D.faults disk.old) (D.faults disk.new) }
    ensures steady { D.faults disk.old ≤ D.faults disk.new }
{
    let mut beside = Vec::new(alloc);
    match prepare(alloc, disk, edits, &mut beside) {
        Ok(moves) => {
            let listed = moves.as_slice();
            match finish(alloc, disk, listed) {
                Ok(()) => Ok(()),
                Err(_) => Err(StoreFault::Failed),
            }
        }
        Err(fault) => {
            let names = beside.as_slice();
            drop_all(alloc, disk, names);
            Err(fault)
        }
    }
}

// Puts what is written beside its places, and then the list. Where it fails, no list is there, or what was put beside
// places is no longer named, since the list needs it. Where a list may be there, it does not fail for want of memory.
fn prepare<D: FileCalls>(
    alloc: Global,
    disk: &mut D,
    edits: &[Edit],
    beside: &mut Vec<Text>,
) -> Result<Vec<Move>, StoreFault>
    requires { beside.old.items ≡ [] }
    ensures ok { IfOk result (λ moves. Prepared edits.now moves.items beside.new.items (D.known disk.old) (D.known disk.new)) }
    ensures err { OnErr result (Unprepared edits.now beside.new.items (D.known disk.old) (D.known disk.new)) }
    ensures no_memory { IsErrOf result StoreFault.NoMemory → Unchanged (D.known disk.old) (D.known disk.new) }
    ensures failed { IsErrOf result StoreFault.Failed → CanBeListed edits.now → Rose (D.faults disk.old) (D.faults disk.new) }
    ensures steady { D.faults disk.old ≤ D.faults disk.new }
{
    put_all(alloc, disk, edits, beside)?;
    let names = beside.as_slice();
    let moves = moves_of(alloc, edits, names)?;
    let listed = moves.as_slice();
    let list = list_text(alloc, listed)?;
    let text = list.as_slice();
    match disk.put_list(alloc, text) {
        Ok(()) => Ok(moves),
        Err(fault) => {
            if take_back(alloc, disk, beside) {
                Err(fault)
            } else {
                Err(StoreFault::Failed)
            }
        }
    }
}

// Takes a list away, and answers whether it is gone. Where that fails, it may be there.
fn take_back<D: FileCalls>(alloc: Global, disk: &mut D, beside: &mut Vec<Text>) -> bool
    ensures taken { TakenBack beside.new.items (D.known disk.old) (D.known disk.new) }
    ensures gone { result ≡ true → D.known disk.new ≡ option_map (with_done DropList) (D.known disk.old) }
    ensures steady { D.faults disk.old ≤ D.faults disk.new }
{
    match disk.drop_list(alloc) {
        Ok(()) => true,
        Err(_) => {
            beside.clear();
            false
        }
    }
}

fn put_all<D: FileCalls>(
    alloc: Global,
    disk: &mut D,
    edits: &[Edit],
    beside: &mut Vec<Text>,
) -> Result<(), StoreFault>
    requires { beside.old.items ≡ [] }
    ensures ok { OnOk result (PutAll edits.now beside.new.items (D.known disk.old) (D.known disk.new)) }
    ensures err { OnErr result (Aside (D.known disk.old) (D.known disk.new)) }
    ensures failed { IsErrOf result StoreFault.Failed → Rose (D.faults disk.old) (D.faults disk.new) }
    ensures steady { D.faults disk.old ≤ D.faults disk.new }
{
    for edit in edits {
        put_one(alloc, disk, edit, beside)?;
    }
    Ok(())
}

fn put_one<D: FileCalls>(
    alloc: Global,
    disk: &mut D,
    edit: &Edit,
    beside: &mut Vec<Text>,
) -> Result<(), StoreFault>
    ensures ok { OnOk result ((names : _) × (beside.new.items ≡ beside.old.items ++ names) × PutAll (edit.now ∷ []) names (D.known disk.old) (D.known disk.new)) }
    ensures err { OnErr result (Aside (D.known disk.old) (D.known disk.new)) }
    ensures failed { IsErrOf result StoreFault.Failed → Rose (D.faults disk.old) (D.faults disk.new) }
    ensures steady { D.faults disk.old ≤ D.faults disk.new }
{
    match edit {
        Edit::Write {
            folder,
            file,
            bytes,
        } => {
            let name = disk.put_beside(alloc, folder, file, bytes.as_slice())?;
            beside.push(name)?;
            Ok(())
        }
        Edit::MakeFolder { .. } => Ok(()),
        Edit::Remove { .. } => Ok(()),
        Edit::RemoveFolder { .. } => Ok(()),
    }
}

// Takes away what was put beside places. What cannot be taken away is left to `clean`.
fn drop_all<D: FileCalls>(alloc: Global, disk: &mut D, beside: &[Text])
    ensures dropped { Dropped beside.now (D.known disk.old) (D.known disk.new) }
    ensures steady { D.faults disk.old ≤ D.faults disk.new }
{
    for name in beside {
        let _ = disk.drop_beside(alloc, name);
    }
}

// Does all that a list names, and takes the list away.
fn finish<D: FileCalls>(alloc: Global, disk: &mut D, moves: &[Move]) -> Result<(), StoreFault>
    ensures done { DoesAll (finishing moves.now) result (D.known disk.old) (D.known disk.new) }
    ensures failed { OnErr result (Rose (D.faults disk.old) (D.faults disk.new)) }
    ensures steady { D.faults disk.old ≤ D.faults disk.new }
{
    do_all(alloc, disk, moves, true)?;
    disk.sync(alloc)?;
    do_all(alloc, disk, moves, false)?;
    disk.sync(alloc)?;
    disk.drop_list(alloc)
}

// Does those of these moves that make something, or the others.
fn do_all<D: FileCalls>(
    alloc: Global,
    disk: &mut D,
    moves: &[Move],
    making: bool,
) -> Result<(), StoreFault>
    ensures done { DoesAll (map Do (picked making moves.now)) result (D.known disk.old) (D.known disk.new) }
    ensures failed { OnErr result (Rose (D.faults disk.old) (D.faults disk.new)) }
    ensures steady { D.faults disk.old ≤ D.faults disk.new }
{
    for one in moves {
        do_due(alloc, disk, one, making)?;
    }
    Ok(())
}

fn do_due<D: FileCalls>(
    alloc: Global,
    disk: &mut D,
    one: &Move,
    making: bool,
) -> Result<(), StoreFault>
    ensures done { DoesAll (map Do (picked making (one.now ∷ []))) result (D.known disk.old) (D.known disk.new) }
    ensures failed { OnErr result (Rose (D.faults disk.old) (D.faults disk.new)) }
    ensures steady { D.faults disk.old ≤ D.faults disk.new }
{
    if one.is_due(making) {
        do_move(alloc, disk, one)
    } else {
        Ok(())
    }
}

fn do_move<D: FileCalls>(alloc: Global, disk: &mut D, one: &Move) -> Result<(), StoreFault>
    ensures ok { OnOk result (D.known disk.new ≡ option_map (with_done (Do one.now)) (D.known disk.old)) }
    ensures err { OnErr result (Off (Do one.now) (D.known disk.old) (D.known disk.new)) }
    ensures failed { OnErr result (Rose (D.faults disk.old) (D.faults disk.new)) }
    ensures steady { D.faults disk.old ≤ D.faults disk.new }
{
    match one {
        Move::MakeFolder { folder } => disk.make_folder(alloc, folder),
        Move::TakePlace {
            beside,
            folder,
            file,
        } => disk.take_place(alloc, beside, folder, file),
        Move::Remove { folder, file } => disk.remove(alloc, folder, file),
        Move::RemoveFolder { folder } => disk.remove_folder(alloc, folder),
    }
}

/// Does what the list of an earlier program says, where one is there, and takes away what lies beside places. To be
/// called before anything is read. Where it fails, for want of memory too, a part of it may be done, and nothing is to be
/// read: `recover` can be called again. It answers `Failed` only where a call failed, or the list that is there is the text
/// of no moves.
pub fn recover<D: FileCalls>(alloc: Global, disk: &mut D) -> Result<(), StoreFault>
    ensures ok { OnOk result ((k n : Known) → D.known disk.old ≡ Some k → D.known disk.new ≡ Some n → Recovered k.held n.held) }
    ensures stops { (k n : Known) → D.known disk.old ≡ Some k → D.known disk.new ≡ Some n → SameAtEachStop k n }
    ensures failed { IsErrOf result StoreFault.Failed → Rose (D.faults disk.old) (D.faults disk.new) ⊎ HasNoMoves (D.known disk.old) }
    ensures steady { D.faults disk.old ≤ D.faults disk.new }
{
    finish_list(alloc, disk)?;
    disk.clean(alloc)
}

// Does what the list of an earlier program says, where one is there.
fn finish_list<D: FileCalls>(alloc: Global, disk: &mut D) -> Result<(), StoreFault>
    ensures finished { ListFinished result (D.known disk.old) (D.known disk.new) }
    ensures failed { IsErrOf result StoreFault.Failed → Rose (D.faults disk.old) (D.faults disk.new) ⊎ HasNoMoves (D.known disk.old) }
    ensures steady { D.faults disk.old ≤ D.faults disk.new }
{
    match disk.list(alloc)? {
        None => Ok(()),
        Some(text) => {
            let bytes = text.as_slice();
            let found = read_list(alloc, bytes)?;
            let listed = found.as_slice();
            finish(alloc, disk, listed)
        }
    }
}
