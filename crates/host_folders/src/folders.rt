//! Folders below the current one, which tell nothing of what they hold.
ghost use Rattle.std.specs.Prelude.{◌≡◌, ◌≤◌, None, if◌then◌else◌};
ghost use Rattle.outside.specs.Counts.{Rose, risen};

use crate::host::{Host, Writes};
use crate::listing::{Wanted, list_at};
use crate::paths::{file_path, folder_path};
use crate::reading::front_at;
use crate::writing::{Writing, make_folder_at, remove_folder_at};
use outside::{Edit, Folders, StoreFault};
use ss_text::{Seed, Text};
use std::alloc::Global;
use std::fs::File;
use std::io::{Error, ErrorKind};
use std::rt::Files;

/// Folders below the current one. A listing that meets a name which is not UTF-8, and a file of 2^32 bytes or more, are
/// failures. A file is written beside its place, and takes it when it is whole.
///
/// Who may change the sources holds a lock on their folder from its first call to its end, and who may change views one
/// on the file of each definition; where another program holds it, each call that reads is a failure. What an earlier
/// program that was stopped left to be done there is done before anything is read there.
#[derive(Drop)]
pub struct HostFolders<R: Files<File = File> + AllocGlobal + Clone + Drop> {
    host: Host<R>,
    seed: Seed,
    read_faults: u64,
    write_faults: u64,
    writes: u64,
}

impl<R: Files<File = File> + AllocGlobal + Clone + Drop> HostFolders<R> {
    /// The folders below the current one, on which no call has failed. What they hold is hashed by this seed.
    pub fn of(rt: R, may: Writes, seed: Seed) -> Self {
        HostFolders {
            host: Host::of(rt, may),
            seed,
            read_faults: 0,
            write_faults: 0,
            writes: 0,
        }
    }
}

// What a call answers that failed and changed nothing. It counts as a fault, unless it failed for want of memory.
fn fault_of(error: &Error, faults: &mut u64) -> StoreFault
    ensures failed { result ≡ StoreFault.Failed → Rose faults.old faults.new }
    ensures no_memory { result ≡ StoreFault.NoMemory → faults.new ≡ faults.old }
    ensures steady { faults.old ≤ faults.new }
{
    if error.kind() == ErrorKind::OutOfMemory {
        return StoreFault::NoMemory;
    }
    failed(faults)
}

// What a call answers that failed and may have changed something. It counts as a fault.
fn failed(faults: &mut u64) -> StoreFault
    ensures failed { result ≡ StoreFault.Failed }
    ensures rose { Rose faults.old faults.new }
    ensures steady { faults.old ≤ faults.new }
{
    *faults = faults.saturating_add(1);
    StoreFault::Failed
}

// The count after a call that did something or nothing.
fn counted(writes: u64, did: bool) -> u64
    ensures { result ≡ (if did then risen writes 1 else writes) }
{
    if did {
        writes.saturating_add(1)
    } else {
        writes
    }
}

impl<R: Files<File = File> + AllocGlobal + Clone + Drop> Folders for HostFolders<R> {
    ghost use Rattle.outside.specs.WholeLaw.{nothing_told};

    ghost whole = { λ s. nothing_told };

    ghost state = { λ s. record { tree = None; writes = s.writes; read_faults = s.read_faults; write_faults = s.write_faults } };

    fn seed(&self) -> Seed {
        self.seed
    }

    fn subfolders(&mut self, _alloc: Global, folder: &Text) -> Result<Vec<Text>, StoreFault> {
        if let Err(error) = self.host.begin(folder, None) {
            return Err(fault_of(&error, &mut self.read_faults));
        }
        match list_at(&self.host.rt, folder, Wanted::Folders) {
            Ok(names) => Ok(names),
            Err(error) => Err(fault_of(&error, &mut self.read_faults)),
        }
    }

    fn files(&mut self, _alloc: Global, folder: &Text) -> Result<Vec<Text>, StoreFault> {
        if let Err(error) = self.host.begin(folder, None) {
            return Err(fault_of(&error, &mut self.read_faults));
        }
        match list_at(&self.host.rt, folder, Wanted::Files) {
            Ok(names) => Ok(names),
            Err(error) => Err(fault_of(&error, &mut self.read_faults)),
        }
    }

    fn read(
        &mut self,
        _alloc: Global,
        folder: &Text,
        file: &Text,
    ) -> Result<Option<Text>, StoreFault> {
        match self.host.read_kept(folder, file) {
            Ok(bytes) => Ok(bytes),
            Err(error) => Err(fault_of(&error, &mut self.read_faults)),
        }
    }

    fn front(
        &mut self,
        _alloc: Global,
        folder: &Text,
        file: &Text,
        most: usize,
    ) -> Result<Option<Text>, StoreFault> {
        if let Err(error) = self.host.begin_part(folder, file) {
            return Err(fault_of(&error, &mut self.read_faults));
        }
        match front_at(&self.host.rt, folder, file, most) {
            Ok(bytes) => Ok(bytes),
            Err(error) => Err(fault_of(&error, &mut self.read_faults)),
        }
    }

    fn write(
        &mut self,
        _alloc: Global,
        folder: &Text,
        file: &Text,
        bytes: &[u8],
    ) -> Result<(), StoreFault> {
        let writing = match Writing::of(&self.host.rt, folder, file) {
            Ok(writing) => writing,
            Err(error) => return Err(fault_of(&error, &mut self.write_faults)),
        };
        if self.host.write(&writing, folder, bytes).is_err() {
            return Err(failed(&mut self.write_faults));
        }
        self.writes = counted(self.writes, true);
        Ok(())
    }

    fn remove(&mut self, _alloc: Global, folder: &Text, file: &Text) -> Result<bool, StoreFault> {
        let path = match file_path(self.host.rt.alloc(), folder, file) {
            Ok(path) => path,
            Err(error) => return Err(fault_of(&error, &mut self.write_faults)),
        };
        match self.host.remove_at(folder, path.as_str()) {
            Ok(was) => {
                self.writes = counted(self.writes, was);
                Ok(was)
            }
            Err(_) => Err(failed(&mut self.write_faults)),
        }
    }

    fn make_folder(&mut self, _alloc: Global, folder: &Text) -> Result<bool, StoreFault> {
        let Ok(path) = folder_path(folder) else {
            return Err(failed(&mut self.write_faults));
        };
        match make_folder_at(&self.host.rt, path) {
            Ok(made) => {
                self.writes = counted(self.writes, made);
                Ok(made)
            }
            Err(_) => Err(failed(&mut self.write_faults)),
        }
    }

    fn remove_folder(&mut self, _alloc: Global, folder: &Text) -> Result<bool, StoreFault> {
        let Ok(path) = folder_path(folder) else {
            return Err(failed(&mut self.write_faults));
        };
        match remove_folder_at(&self.host.rt, path) {
            Ok(was) => {
                self.writes = counted(self.writes, was);
                Ok(was)
            }
            Err(_) => Err(failed(&mut self.write_faults)),
        }
    }

    fn replace(&mut self, alloc: Global, edits: &[Edit]) -> Result<(), StoreFault> {
        let mut disk = match self.host.disk_of(edits) {
            Ok(Some(disk)) => disk,
            Ok(None) => return Ok(()),
            Err(error) => return Err(fault_of(&error, &mut self.write_faults)),
        };
        match whole_sync::replace(alloc, &mut disk, edits) {
            Ok(()) => {}
            Err(StoreFault::NoMemory) => return Err(StoreFault::NoMemory),
            Err(StoreFault::Failed) => return Err(failed(&mut self.write_faults)),
        }
        if self.host.keep_written(edits).is_err() {
            return Err(failed(&mut self.write_faults));
        }
        self.writes = self.writes.saturating_add(edits.len() as u64);
        Ok(())
    }
}
