//! A sync that is stopped at each of its calls, or of which each call fails in turn, for want of memory too, on files in
//! memory.
ghost use Rattle.std.specs.Prelude.{◌≡◌, ◌≤◌, IfOk, OnErr};
ghost use Rattle.outside.specs.Counts.{Rose};
ghost use Rattle.whole_sync.specs.Lists.{IsWord};

use outside::{Edit, StoreFault};
use ss_text::Text;
use std::alloc::Global;
use std::collections::{BTreeMap, BTreeSet};
use whole_sync::{FileCalls, recover, replace};

// More calls than one sync makes.
const MOST: u64 = 40;

// What happens at the call that goes wrong, and behind it.
#[derive(Clone, Copy, PartialEq, Eq)]
enum Wrong {
    // It does nothing, and neither does any later one.
    StopsBefore,
    // It does its work, and no later one does.
    StopsBehind,
    // It does nothing, and the later ones go on.
    FailsBefore,
    // It does its work and fails, and the later ones go on.
    FailsBehind,
}

// Files in memory, of which the call with this number goes wrong, counted from 1.
#[derive(Drop)]
struct MemDisk {
    alloc: Global,
    files: BTreeMap<(Text, Text), Text>,
    folders: BTreeSet<Text>,
    list: Option<Text>,
    next: u8,
    calls: u64,
    wrong_at: u64,
    wrong: Wrong,
    // What a call answers that goes wrong.
    fault: StoreFault,
}

impl MemDisk {
    // Whether the next call is to do its work, and whether it is to succeed.
    fn call(&mut self) -> (bool, bool) {
        self.calls = self.calls.saturating_add(1);
        if self.calls < self.wrong_at {
            return (true, true);
        }
        let here = self.calls == self.wrong_at;
        match self.wrong {
            Wrong::StopsBefore => (false, false),
            Wrong::StopsBehind => (here, false),
            Wrong::FailsBefore => (!here, !here),
            Wrong::FailsBehind => (true, !here),
        }
    }

    fn end(&self, succeeds: bool) -> Result<(), StoreFault> {
        if succeeds { Ok(()) } else { Err(self.fault) }
    }

    // Moves what lies beside a place there, if it still does.
    fn place(&mut self, beside: &Text, folder: &Text, file: &Text) -> Result<(), StoreFault> {
        let from = (folder.copy()?, beside.copy()?);
        if let Some(bytes) = self.files.remove(&from) {
            self.files.insert((folder.copy()?, file.copy()?), bytes)?;
        }
        Ok(())
    }

    fn put(&mut self, folder: &Text, file: &Text, bytes: &[u8]) -> Result<(), StoreFault> {
        let text = Text::of(self.alloc, bytes)?;
        self.files.insert((folder.copy()?, file.copy()?), text)?;
        Ok(())
    }

    fn is_empty(&self, folder: &Text) -> bool {
        self.files.keys().all(|place| place.0 != *folder)
    }

    fn list(&mut self) -> Result<Option<Text>, StoreFault> {
        let (_, succeeds) = self.call();
        self.end(succeeds)?;
        match &self.list {
            Some(list) => Ok(Some(list.copy()?)),
            None => Ok(None),
        }
    }

    // A call that goes wrong leaves half of the bytes.
    fn put_beside(&mut self, folder: &Text, bytes: &[u8]) -> Result<Text, StoreFault>
        ensures { IfOk result (λ name. IsWord name) }
    {
        let (does, succeeds) = self.call();
        self.next = self.next.saturating_add(1);
        let name = name_of(self.alloc, self.next)?;
        if does {
            self.put(folder, &name, bytes)?;
        } else {
            self.put(folder, &name, &bytes[..bytes.len() / 2])?;
        }
        self.end(succeeds)?;
        Ok(name)
    }

    fn drop_beside(&mut self, beside: &Text) -> Result<(), StoreFault> {
        let (does, succeeds) = self.call();
        if does {
            let kept = |place: &(Text, Text), _: &mut Text| place.1 != *beside;
            self.files.retain(kept);
        }
        self.end(succeeds)
    }

    fn put_list(&mut self, list: &[u8]) -> Result<(), StoreFault> {
        let (does, succeeds) = self.call();
        if does {
            self.list = Some(Text::of(self.alloc, list)?);
        }
        self.end(succeeds)
    }

    fn drop_list(&mut self) -> Result<(), StoreFault> {
        let (does, succeeds) = self.call();
        if does {
            self.list = None;
        }
        self.end(succeeds)
    }

    fn make_folder(&mut self, folder: &Text) -> Result<(), StoreFault> {
        let (does, succeeds) = self.call();
        if does {
            self.folders.insert(folder.copy()?)?;
        }
        self.end(succeeds)
    }

    fn take_place(&mut self, beside: &Text, folder: &Text, file: &Text) -> Result<(), StoreFault> {
        let (does, succeeds) = self.call();
        if does {
            self.place(beside, folder, file)?;
        }
        self.end(succeeds)
    }

    fn remove(&mut self, folder: &Text, file: &Text) -> Result<(), StoreFault> {
        let (does, succeeds) = self.call();
        if does {
            self.files.remove(&(folder.copy()?, file.copy()?));
        }
        self.end(succeeds)
    }

    fn remove_folder(&mut self, folder: &Text) -> Result<(), StoreFault> {
        let (does, succeeds) = self.call();
        if does && self.is_empty(folder) {
            self.folders.remove(folder);
        }
        self.end(succeeds)
    }

    fn sync(&mut self) -> Result<(), StoreFault> {
        let (_, succeeds) = self.call();
        self.end(succeeds)
    }

    fn clean(&mut self) -> Result<(), StoreFault> {
        let (does, succeeds) = self.call();
        if does {
            let kept = |place: &(Text, Text), _: &mut Text| !is_beside(&place.1);
            self.files.retain(kept);
        }
        self.end(succeeds)
    }
}

// The same disk, of which each call that fails is counted.
#[derive(Drop)]
struct CountedDisk {
    disk: MemDisk,
    faults: u64,
}

impl FileCalls for CountedDisk {
    ghost use Rattle.std.specs.Prelude.{None};

    ghost known = { λ _. None };

    ghost faults = { λ s. s.faults };

    fn list(&mut self, _alloc: Global) -> Result<Option<Text>, StoreFault> {
        counted(self.disk.list(), &mut self.faults)
    }

    fn put_beside(
        &mut self,
        _alloc: Global,
        folder: &Text,
        _file: &Text,
        bytes: &[u8],
    ) -> Result<Text, StoreFault> {
        counted(self.disk.put_beside(folder, bytes), &mut self.faults)
    }

    fn drop_beside(&mut self, _alloc: Global, beside: &Text) -> Result<(), StoreFault> {
        counted(self.disk.drop_beside(beside), &mut self.faults)
    }

    fn put_list(&mut self, _alloc: Global, list: &[u8]) -> Result<(), StoreFault> {
        counted(self.disk.put_list(list), &mut self.faults)
    }

    fn drop_list(&mut self, _alloc: Global) -> Result<(), StoreFault> {
        counted(self.disk.drop_list(), &mut self.faults)
    }

    fn make_folder(&mut self, _alloc: Global, folder: &Text) -> Result<(), StoreFault> {
        counted(self.disk.make_folder(folder), &mut self.faults)
    }

    fn take_place(
        &mut self,
        _alloc: Global,
        beside: &Text,
        folder: &Text,
        file: &Text,
    ) -> Result<(), StoreFault> {
        counted(self.disk.take_place(beside, folder, file), &mut self.faults)
    }

    fn remove(&mut self, _alloc: Global, folder: &Text, file: &Text) -> Result<(), StoreFault> {
        counted(self.disk.remove(folder, file), &mut self.faults)
    }

    fn remove_folder(&mut self, _alloc: Global, folder: &Text) -> Result<(), StoreFault> {
        counted(self.disk.remove_folder(folder), &mut self.faults)
    }

    fn sync(&mut self, _alloc: Global) -> Result<(), StoreFault> {
        counted(self.disk.sync(), &mut self.faults)
    }

    fn clean(&mut self, _alloc: Global) -> Result<(), StoreFault> {
        counted(self.disk.clean(), &mut self.faults)
    }
}

// What a call answers. One that fails is counted.
fn counted<T>(done: Result<T, StoreFault>, faults: &mut u64) -> Result<T, StoreFault>
    ensures same { result ≡ done }
    ensures failed { OnErr result (Rose faults.old faults.new) }
    ensures steady { faults.old ≤ faults.new }
{
    match done {
        Ok(value) => Ok(value),
        Err(fault) => {
            *faults = faults.saturating_add(1);
            Err(fault)
        }
    }
}

// The name beside a place that has this number, which is not 0.
fn name_of(alloc: Global, number: u8) -> Result<Text, StoreFault>
    ensures { IfOk result (λ name. IsWord name) }
{
    if number == 0 {
        return Err(StoreFault::Failed);
    }
    text(alloc, &[b'.', number])
}

fn is_beside(name: &Text) -> bool {
    matches!(name.as_slice(), [b'.', ..])
}

fn text(alloc: Global, bytes: &[u8]) -> Result<Text, StoreFault>
    ensures { IfOk result (λ text. text ≡ bytes.now) }
{
    Ok(Text::of(alloc, bytes)?)
}

// The files before: two of a database, and the only one of another.
fn disk_before(alloc: Global, wrong_at: u64, wrong: Wrong) -> Result<CountedDisk, StoreFault> {
    let mut disk = MemDisk {
        alloc,
        files: BTreeMap::new(alloc),
        folders: BTreeSet::new(alloc),
        list: None,
        next: 0,
        calls: 0,
        wrong_at,
        wrong,
        fault: StoreFault::Failed,
    };
    disk.folders.insert(text(alloc, b"d")?)?;
    disk.folders.insert(text(alloc, b"old")?)?;
    disk.put(&text(alloc, b"d")?, &text(alloc, b"a")?, b"rows of a")?;
    disk.put(&text(alloc, b"d")?, &text(alloc, b"b")?, b"rows of b")?;
    disk.put(&text(alloc, b"old")?, &text(alloc, b"x")?, b"rows of x")?;
    Ok(CountedDisk { disk, faults: 0 })
}

fn write_of(alloc: Global, folder: &[u8], file: &[u8], bytes: &[u8]) -> Result<Edit, StoreFault> {
    Ok(Edit::Write {
        folder: text(alloc, folder)?,
        file: text(alloc, file)?,
        bytes: text(alloc, bytes)?,
    })
}

fn removal_of(alloc: Global, folder: &[u8], file: &[u8]) -> Result<Edit, StoreFault> {
    Ok(Edit::Remove {
        folder: text(alloc, folder)?,
        file: text(alloc, file)?,
    })
}

// The database `old` becomes `new`, `a` becomes `c`, and `b` gets other rows.
fn edits_of(alloc: Global) -> Result<Vec<Edit>, StoreFault> {
    let mut edits = Vec::new(alloc);
    edits.push(Edit::MakeFolder {
        folder: text(alloc, b"new")?,
    })?;
    edits.push(removal_of(alloc, b"d", b"a")?)?;
    edits.push(write_of(alloc, b"d", b"b", b"other rows of b")?)?;
    edits.push(write_of(alloc, b"d", b"c", b"rows of a")?)?;
    edits.push(write_of(alloc, b"new", b"x", b"rows of x")?)?;
    edits.push(removal_of(alloc, b"old", b"x")?)?;
    edits.push(Edit::RemoveFolder {
        folder: text(alloc, b"old")?,
    })?;
    Ok(edits)
}

fn is_same(a: &MemDisk, b: &MemDisk) -> bool {
    a.files == b.files && a.folders == b.folders && a.list.is_none() && b.list.is_none()
}

// What is there before a sync and behind it, and the edits.
#[derive(Drop)]
struct Wanted {
    before: CountedDisk,
    after: CountedDisk,
    edits: Vec<Edit>,
}

fn wanted_of(alloc: Global) -> Result<Wanted, StoreFault> {
    let edits = edits_of(alloc)?;
    let before = disk_before(alloc, u64::MAX, Wrong::StopsBefore)?;
    let mut after = disk_before(alloc, u64::MAX, Wrong::StopsBefore)?;
    replace(alloc, &mut after, &edits)?;
    Ok(Wanted {
        before,
        after,
        edits,
    })
}

const WRONGS: &[Wrong] = &[
    Wrong::StopsBefore,
    Wrong::StopsBehind,
    Wrong::FailsBefore,
    Wrong::FailsBehind,
];

// Whether a sync in which this call goes wrong, and a recovery in which that one does, leave what was there before or
// what is to be there behind it, once another recovery was done. A sync that succeeds leaves the latter, and one that
// fails for want of memory the former.
fn holds(
    alloc: Global,
    wanted: &Wanted,
    wrong_at: u64,
    then_at: u64,
    wrong: Wrong,
    fault: StoreFault,
) -> Result<bool, StoreFault> {
    let mut disk = disk_before(alloc, wrong_at, wrong)?;
    disk.disk.fault = fault;
    let done = replace(alloc, &mut disk, &wanted.edits);
    disk.disk.calls = 0;
    disk.disk.wrong_at = then_at;
    let _ = recover(alloc, &mut disk);
    disk.disk.wrong_at = u64::MAX;
    recover(alloc, &mut disk)?;
    let is_after = is_same(&disk.disk, &wanted.after.disk);
    let is_before = is_same(&disk.disk, &wanted.before.disk);
    match done {
        Ok(()) => Ok(is_after),
        Err(StoreFault::NoMemory) => Ok(is_before),
        Err(StoreFault::Failed) => Ok(is_before || is_after),
    }
}

fn all_hold(alloc: Global, fault: StoreFault) -> Result<bool, StoreFault> {
    let wanted = wanted_of(alloc)?;
    for &wrong in WRONGS {
        for wrong_at in 1..MOST {
            for then_at in 1..MOST {
                if !holds(alloc, &wanted, wrong_at, then_at, wrong, fault)? {
                    return Ok(false);
                }
            }
        }
    }
    Ok(!is_same(&wanted.before.disk, &wanted.after.disk))
}

#[test]
fn each_call_goes_wrong(rt: HostRuntime) {
    assert!(rt; matches!(all_hold(rt.alloc(), StoreFault::Failed), Ok(true)));
}

#[test]
fn each_call_fails_for_want_of_memory(rt: HostRuntime) {
    assert!(rt; matches!(all_hold(rt.alloc(), StoreFault::NoMemory), Ok(true)));
}
