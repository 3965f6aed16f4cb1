//! A journal in a file of the folder that the test runs in.
use crate::journals::{Lines, add, add_once, open};
use change_journal::JournalFault;
use disk::Disk;
use host_disk::HostDisk;
use outside::{Failed, StoreFault};
use std::fs::{self, File, Permissions};
use std::os::unix::fs::{PermissionsExt, symlink};
use std::test::Fail;

const FILE: &str = "schemasql.journal";

// The file before it is whole.
const NEW: &str = ".schemasql.journal.new";

// Where it is moved to.
const MOVED: &str = "moved.journal";

const LINES: Lines = ("drop-database\tz", None);

const HELD: &[u8] = b"\x01\x00\x00\x00\x0fdrop-database\tz\x00";

// The same without its last byte.
const CUT: &[u8] = b"\x01\x00\x00\x00\x0fdrop-database\tz";

#[test]
fn a_file_is_made_and_locked(rt: HostRuntime) -> Result<(), Fail> {
    let alloc = rt.alloc();
    let mut disk = HostDisk::of(rt);
    assert_eq!(rt; add_once(alloc, &mut disk, LINES)?, Ok(()));
    assert_eq!(rt; HostDisk::of(rt).size(), Err(Failed), "it is locked");
    drop(disk);
    let held = fs::read(&rt, FILE)?;
    assert!(rt; held.as_slice() == HELD);
    fs::remove_file(&rt, FILE)?;
    Ok(())
}

// What a program left that was stopped while it made the file is written over.
#[test]
fn a_file_is_made_whole(rt: HostRuntime) -> Result<(), Fail> {
    fs::write(&rt, NEW, b"left over")?;
    assert_eq!(rt; HostDisk::of(rt).size(), Ok(1));
    let held = fs::read(&rt, FILE)?;
    assert!(rt; held.as_slice() == [0].as_slice());
    assert!(rt; !fs::exists(&rt, NEW)?);
    fs::remove_file(&rt, FILE)?;
    Ok(())
}

// Nor is it made where another program makes it, or where something lies there that cannot be opened.
#[test]
fn a_file_is_not_made(rt: HostRuntime) -> Result<(), Fail> {
    fs::write(&rt, NEW, b"")?;
    let made = File::open(&rt, NEW)?;
    assert!(rt; made.try_lock().is_ok());
    assert_eq!(rt;
        HostDisk::of(rt).size(),
        Err(Failed),
        "another program makes it"
    );
    drop(made);
    symlink(&rt, "nowhere", FILE)?;
    assert_eq!(rt;
        HostDisk::of(rt).size(),
        Err(Failed),
        "a link leads nowhere"
    );
    assert!(rt; !fs::exists(&rt, NEW)?);
    fs::remove_file(&rt, FILE)?;
    Ok(())
}

#[test]
fn a_file_that_nobody_may_write_is_not_opened(rt: HostRuntime) -> Result<(), Fail> {
    fs::write(&rt, FILE, HELD)?;
    fs::set_permissions(&rt, FILE, Permissions::from_mode(0o444))?;
    assert_eq!(rt; HostDisk::of(rt).size(), Err(Failed));
    fs::remove_file(&rt, FILE)?;
    fs::create_dir(&rt, FILE)?;
    assert_eq!(rt; HostDisk::of(rt).size(), Err(Failed), "it is a folder");
    fs::remove_dir(&rt, FILE)?;
    Ok(())
}

#[test]
fn a_file_is_read(rt: HostRuntime) -> Result<(), Fail> {
    fs::write(&rt, FILE, HELD)?;
    let (said, _journal) = open(rt.alloc(), &mut HostDisk::of(rt))?;
    assert!(rt; said.as_slice() == b"drop-database\tz\t\n\n".as_slice());
    fs::write(&rt, FILE, CUT)?;
    let fault = open(rt.alloc(), &mut HostDisk::of(rt)).err();
    assert_eq!(rt; fault, Some(JournalFault::BadJournal { at: 20 }));
    fs::remove_file(&rt, FILE)?;
    Ok(())
}

// Nor is anything added to a file that was moved away, or that another one has taken the name of.
#[test]
fn a_file_that_was_moved_is_not_added_to(rt: HostRuntime) -> Result<(), Fail> {
    let alloc = rt.alloc();
    let mut disk = HostDisk::of(rt);
    let (_said, mut journal) = open(alloc, &mut disk)?;
    assert_eq!(rt; add(alloc, &mut journal, &mut disk, LINES)?, Ok(()));
    fs::rename(&rt, FILE, MOVED)?;
    let fault = add(alloc, &mut journal, &mut disk, LINES)?;
    assert_eq!(rt; fault, Err(JournalFault::DiskFault), "it is gone");
    fs::write(&rt, FILE, HELD)?;
    assert_eq!(rt;
        disk.write_at(alloc, 0, b"x"),
        Err(StoreFault::Failed),
        "it is another"
    );
    assert_eq!(rt; disk.sync(), Err(Failed));
    let held = fs::read(&rt, MOVED)?;
    assert!(rt; held.as_slice() == HELD);
    fs::remove_file(&rt, FILE)?;
    fs::remove_file(&rt, MOVED)?;
    Ok(())
}
