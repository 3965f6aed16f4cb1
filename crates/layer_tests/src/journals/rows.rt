//! The bytes of journals.
use crate::journals::{Lines, add, add_once, add_twice, disk_of, open};
use change_journal::JournalFault;
use disk::MemDisk;
use std::alloc::Global;
use std::test::Fail;

const PHYSICS: Lines = ("insert\tuniv-A\tsalInfo\tProf\tphysics\t70000", None);

const TWO: Lines = ("create-database\tzoo", Some("drop-database\tzoo"));

// The length of the line of `PHYSICS` is 40, which is 28 in base 16.
const ONE_ENTRY: &[u8] = b"\x01\x00\x00\x00\x28insert\tuniv-A\tsalInfo\tProf\tphysics\t70000\x00";

const TWO_ENTRIES: &[u8] =
    b"\x01\x00\x00\x00\x28insert\tuniv-A\tsalInfo\tProf\tphysics\t70000\x01\x00\x00\x00\x25create-database\tzoo\ndrop-database\tzoo\x00";

const SAID: &[u8] =
    b"insert\tuniv-A\tsalInfo\tProf\tphysics\t70000\t\n\ncreate-database\tzoo\t\ndrop-database\tzoo\t\n\n";

// A disk whose fresh journal took one group.
fn one_entry(alloc: Global) -> Result<MemDisk, Fail> {
    let mut disk = disk_of(alloc, &[0], 0)?;
    let _answer = add_once(alloc, &mut disk, PHYSICS)?;
    Ok(disk)
}

// A disk whose fresh journal took two groups.
fn two_entries(alloc: Global) -> Result<MemDisk, Fail> {
    let mut disk = disk_of(alloc, &[0], 0)?;
    let _answers = add_twice(alloc, &mut disk, PHYSICS, TWO)?;
    Ok(disk)
}

#[test]
fn an_entry_is_a_byte_a_length_and_the_lines(rt: HostRuntime) -> Result<(), Fail> {
    let one = one_entry(rt.alloc())?;
    assert_eq!(rt; one.bytes().len(), 46);
    assert!(rt; one.bytes() == ONE_ENTRY);
    Ok(())
}

#[test]
fn entries_stand_one_behind_another(rt: HostRuntime) -> Result<(), Fail> {
    let mut two = two_entries(rt.alloc())?;
    assert!(rt; two.bytes() == TWO_ENTRIES);
    let (said, _journal) = open(rt.alloc(), &mut two)?;
    assert!(rt; said.as_slice() == SAID);
    Ok(())
}

// Why the journal of these bytes cannot be opened, if it cannot.
fn fault_of(alloc: Global, bytes: &[u8]) -> Result<Option<JournalFault>, Fail> {
    let mut disk = disk_of(alloc, bytes, 0)?;
    Ok(open(alloc, &mut disk).err())
}

// Where each of these says nothing.
const BAD: &[(&[u8], u64)] = &[
    (b"", 0),
    (b"\x01", 0),
    (b"\x01\x00\x00\x00", 0),
    // Two bytes stand where five are told.
    (b"\x01\x00\x00\x00\x05\x61\x62", 0),
    // No change, an unknown verb, too few fields and a bad escape.
    (b"\x01\x00\x00\x00\x00\x00", 0),
    (b"\x01\x00\x00\x00\x01x\x00", 0),
    (b"\x01\x00\x00\x00\x0finsert\td\nx\ty\tz\x00", 0),
    (b"\x01\x00\x00\x00\x15create-relation\tzoo\tr\x00", 0),
    (b"\x01\x00\x00\x00\x11drop-database\ta\\q\x00", 0),
    // An empty line behind a change.
    (b"\x01\x00\x00\x00\x10drop-database\tz\n\x00", 0),
    // A whole entry with nothing behind it, and with an entry that is cut short.
    (b"\x01\x00\x00\x00\x0fdrop-database\tz", 20),
    (
        b"\xff\x00\x00\x00\x0fdrop-database\tz\x01\x00\x00\x00\x0fdrop-database\t",
        20,
    ),
    // The longest length.
    (b"\x01\xff\xff\xff\xffdrop-database\tz\x00", 0),
];

// What these say ends at a byte 0, and what is behind it means nothing.
const GOOD: &[&[u8]] = &[
    b"\x00",
    b"\x00\x01\x00",
    b"\xff\x00\x00\x00\x0fdrop-database\tz\x00",
    b"\x02\x00\x00\x00\x0fdrop-database\tz\x00\x01\x00\x00\x00\x05ab",
];

#[test]
fn a_journal_is_refused_at_the_place_where_it_says_nothing(rt: HostRuntime) -> Result<(), Fail> {
    let alloc = rt.alloc();
    for &(bytes, at) in BAD {
        assert_eq!(rt;
            fault_of(alloc, bytes)?,
            Some(JournalFault::BadJournal { at }),
            "{bytes:?}"
        );
    }
    for &bytes in GOOD {
        assert_eq!(rt; fault_of(alloc, bytes)?, None, "{bytes:?}");
    }
    Ok(())
}

// What a fresh journal says to which a group is added, which is asked for again where memory ran out.
fn said_in_the_end(alloc: Global) -> Result<Vec<u8>, JournalFault> {
    let mut disk = disk_of(alloc, &[0], 0)?;
    let (_none, mut journal) = open(alloc, &mut disk)?;
    let Ok(answer) = add(alloc, &mut journal, &mut disk, PHYSICS) else {
        return Err(JournalFault::NoMemory);
    };
    if answer == Err(JournalFault::NoMemory) {
        let _answer = add(alloc, &mut journal, &mut disk, PHYSICS);
    }
    let (said, _again) = open(alloc, &mut disk)?;
    Ok(said)
}

// Each allocation may fail, one at a time. Where it is not one of the journal's, there is nothing to see.
#[test]
fn a_group_that_lacked_memory_can_be_added_again(rt: HostRuntime) -> Result<(), Fail> {
    match said_in_the_end(rt.alloc()) {
        Err(JournalFault::NoMemory) => {}
        said => assert!(rt;
            said?.as_slice() == b"insert\tuniv-A\tsalInfo\tProf\tphysics\t70000\t\n\n".as_slice()
        ),
    }
    Ok(())
}
