//! Journals on a disk of which one call fails.
use crate::journals::{Lines, add_twice, disk_of, open};
use change_journal::JournalFault;
use std::alloc::Global;
use std::test::Fail;

const PHYSICS: Lines = ("insert\tuniv-A\tsalInfo\tProf\tphysics\t70000", None);

const ONCE: &[u8] = b"insert\tuniv-A\tsalInfo\tProf\tphysics\t70000\t\n\n";

const TWICE: &[u8] =
    b"insert\tuniv-A\tsalInfo\tProf\tphysics\t70000\t\n\ninsert\tuniv-A\tsalInfo\tProf\tphysics\t70000\t\n\n";

// What a fresh journal answers to a group that is added twice, where the call with a number fails.
fn answers(alloc: Global, failing: u8) -> Result<[Result<(), JournalFault>; 2], Fail> {
    let mut disk = disk_of(alloc, &[0], failing)?;
    add_twice(alloc, &mut disk, PHYSICS, PHYSICS)
}

#[test]
fn a_call_that_fails_shuts_the_journal(rt: HostRuntime) -> Result<(), Fail> {
    for failing in 1..5 {
        assert_eq!(rt;
            answers(rt.alloc(), failing)?,
            [Err(JournalFault::DiskFault), Err(JournalFault::Shut)]
        );
    }
    Ok(())
}

// What the journal says then, where all bytes in doubt are `fill` after a stop.
fn left(alloc: Global, failing: u8, fill: u8) -> Result<Vec<u8>, Fail> {
    let mut disk = disk_of(alloc, &[0], failing)?;
    let _answers = add_twice(alloc, &mut disk, PHYSICS, PHYSICS)?;
    disk.stop(alloc, fill)?;
    let (said, _again) = open(alloc, &mut disk)?;
    Ok(said)
}

// The number of the call that fails, what all bytes in doubt are afterwards, and what the journal says. The calls for each
// group are: the entry is written, it is synced, it is opened, that is synced. The call 9 is none of them.
const LEFT: &[(u8, u8, &[u8])] = &[
    (1, 0, b""),
    (1, 1, b""),
    (2, 0, b""),
    (2, 1, b""),
    (3, 0, b""),
    (3, 1, ONCE),
    (4, 0, b""),
    (4, 1, ONCE),
    (9, 0, TWICE),
    (9, 1, TWICE),
    (9, 255, TWICE),
];

#[test]
fn a_stop_leaves_what_was_answered(rt: HostRuntime) -> Result<(), Fail> {
    for &(failing, fill, wanted) in LEFT {
        let said = left(rt.alloc(), failing, fill)?;
        assert!(rt;
            said.as_slice() == wanted,
            "call {failing}, filled with {fill}"
        );
    }
    Ok(())
}
