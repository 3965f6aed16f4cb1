//! Runs of `journal` of which one call fails: one on the disk, which is then stopped, or one on the folders, the input or the
//! output. A second run finds every change that was answered, and at most one more.
use crate::offices::{A, A_TO_B};
use crate::place::{File, disk_of, holds, run_over_disk, texts};
use crate::world::{Calls, World};
use disk::MemDisk;
use outside::{MemFolders, StoreFault, SureSink, SureSource};
use ss_top::Status;
use std::alloc::Global;

const FRESH: &[u8] = b"\x00";

// Whether a run without an input over these folders and this disk ends well.
fn ends_well(
    alloc: Global,
    store: &mut MemFolders,
    disk: &mut MemDisk,
    name: &str,
) -> Result<bool, StoreFault> {
    let words = texts(alloc, &["journal", name])?;
    let mut input = SureSource::of(Vec::new(alloc));
    let mut output = SureSink::of(alloc, 1000);
    let status = run_over_disk(alloc, &words, store, &mut input, &mut output, disk);
    Ok(status == Status::Done)
}

const OFFICE: [File; 2] = [A_TO_B, A];

const PHYSICS: &str = "insert\tuniv-A\tsalInfo\tProf\tphysics\t70000\n";

const COLUMNS: &str = "category,cs,math\nAssoc,60000,\nProf,72000,65000\n";

const MORE_COLUMNS: &str = "category,cs,math,physics\nAssoc,60000,,\nProf,72000,65000,70000\n";

// How a run over the office and this line ends, and what it prints and shows: where the disk fails, and where it does not.
const HELD_UP: (u8, &str, &str) = (10, "synced\t1\n", COLUMNS);

const WELL: (u8, &str, &str) = (
    0,
    "synced\t1\ncolumn+\tsalInfo\tphysics\ncell\tsalInfo\tphysics\t70000\tProf\ndone\t2\nsynced\t1\n",
    MORE_COLUMNS,
);

// The number of the call of the disk that fails, what all bytes in doubt are after the stop, how the run ends, and what a
// second run shows. The calls are: the entry is written, it is synced, it is opened, that is synced. The call 5 is none.
const STOPPED: &[(u8, u8, (u8, &str, &str), &str)] = &[
    (1, 0, HELD_UP, COLUMNS),
    (1, 1, HELD_UP, COLUMNS),
    (2, 0, HELD_UP, COLUMNS),
    (2, 1, HELD_UP, COLUMNS),
    (3, 0, HELD_UP, COLUMNS),
    (3, 1, HELD_UP, MORE_COLUMNS),
    (4, 0, HELD_UP, COLUMNS),
    (4, 1, HELD_UP, MORE_COLUMNS),
    (5, 0, WELL, MORE_COLUMNS),
    (5, 1, WELL, MORE_COLUMNS),
];

// Whether the office is as it was, and its view is this.
fn is_shown(alloc: Global, store: &mut MemFolders, view: &str) -> Result<bool, StoreFault> {
    let source = holds(alloc, store, "sources/univ-A", &[("salInfo.csv", A.2)])?;
    Ok(source && holds(alloc, store, "views/AtoB", &[("salInfo.csv", view)])?)
}

// What a run left that is not wanted, and a second one over the disk as it was stopped.
fn difference(
    alloc: Global,
    world: &mut World,
    disk: &mut MemDisk,
    fill: u8,
    end: (u8, &str, &str),
    again: &str,
) -> Result<&'static str, StoreFault> {
    let (number, printed, view) = end;
    let status = world.run_on(alloc, &["journal", "AtoB"], disk)?;
    if status.number() != number {
        return Ok("the status");
    }
    if world.output.bytes() != printed.as_bytes() {
        return Ok("the output");
    }
    if !is_shown(alloc, &mut world.store, view)? {
        return Ok("the files");
    }
    disk.stop(alloc, fill)?;
    if !ends_well(alloc, &mut world.store, disk, "AtoB")? {
        return Ok("the second run");
    }
    if is_shown(alloc, &mut world.store, again)? {
        Ok("nothing")
    } else {
        Ok("the files of the second run")
    }
}

fn stopped(
    alloc: Global,
    call: u8,
    fill: u8,
    end: (u8, &str, &str),
    again: &str,
) -> Result<&'static str, StoreFault> {
    let mut disk = disk_of(alloc, FRESH, call)?;
    let mut world = World::failing(alloc, &OFFICE, &[PHYSICS], 9, Calls::Reads, 0)?;
    let found = difference(alloc, &mut world, &mut disk, fill, end, again);
    drop(world);
    found
}

#[test]
fn a_stop_keeps_what_was_answered(rt: HostRuntime) -> Result<(), StoreFault> {
    for &(call, fill, end, again) in STOPPED {
        assert_eq!(rt;
            stopped(rt.alloc(), call, fill, end, again)?,
            "nothing",
            "call {call}, filled with {fill}"
        );
    }
    Ok(())
}

// Two rows come, with a sync in between.
const ROWS: [File; 2] = [
    (
        "defs",
        "J.ssql",
        "create view J::t(a) as select T.a from d::r T",
    ),
    ("sources/d", "r.csv", "a\n"),
];

const LINES: [&str; 2] = ["insert\td\tr\t1\nsync\n", "insert\td\tr\t2\n"];

const WHOLE: &str = "synced\t1\nrow+\tt\t1\ndone\t1\nsynced\t1\nrow+\tt\t2\ndone\t1\nsynced\t1\n";

const ONE_ANSWERED: &str = "synced\t1\nrow+\tt\t1\ndone\t1\n";

const TWO_ANSWERED: &str = "synced\t1\nrow+\tt\t1\ndone\t1\nsynced\t1\nrow+\tt\t2\ndone\t1\n";

// What the view may be behind a second run where this was printed: over the changes that were answered, or one more.
fn allowed(printed: &[u8]) -> [&'static str; 2] {
    if printed.starts_with(TWO_ANSWERED.as_bytes()) {
        ["a\n1\n2\n", "a\n1\n2\n"]
    } else if printed.starts_with(ONE_ANSWERED.as_bytes()) {
        ["a\n1\n", "a\n1\n2\n"]
    } else {
        ["a\n", "a\n1\n"]
    }
}

// Whether a second run over the disk ends well, with the source as it was and one of these views.
fn is_kept(
    alloc: Global,
    store: &mut MemFolders,
    disk: &mut MemDisk,
    views: [&str; 2],
) -> Result<bool, StoreFault> {
    let [view, more] = views;
    if !ends_well(alloc, store, disk, "J")? {
        return Ok(false);
    }
    if !holds(alloc, store, "sources/d", &[("r.csv", "a\n")])? {
        return Ok(false);
    }
    Ok(
        holds(alloc, store, "views/J", &[("t.csv", view)])?
            || holds(alloc, store, "views/J", &[("t.csv", more)])?,
    )
}

// The status of a run, unless what it leaves is not wanted. One that does all does so by the whole output.
fn end_of(
    alloc: Global,
    world: &mut World,
    disk: &mut MemDisk,
    fill: u8,
) -> Result<Option<Status>, StoreFault> {
    let status = world.run_on(alloc, &["journal", "J"], disk)?;
    let printed = world.output.bytes();
    if status == Status::Done {
        let is_whole = printed == WHOLE.as_bytes();
        return Ok(is_whole.then_some(status));
    }
    if !WHOLE.as_bytes().starts_with(printed) {
        return Ok(None);
    }
    let views = allowed(printed);
    disk.stop(alloc, fill)?;
    let is_kept = is_kept(alloc, &mut world.store, disk, views)?;
    Ok(is_kept.then_some(status))
}

// The same where a call of the folders, the input or the output fails, and one of the disk.
fn failing(
    alloc: Global,
    calls: Calls,
    call: u8,
    of_disk: u8,
    fill: u8,
) -> Result<Option<Status>, StoreFault> {
    let mut disk = disk_of(alloc, FRESH, of_disk)?;
    let mut world = World::failing(alloc, &ROWS, &LINES, 9, calls, call)?;
    let end = end_of(alloc, &mut world, &mut disk, fill);
    drop(world);
    end
}

const KINDS: &[(Calls, Status)] = &[
    (Calls::Reads, Status::ReadFault),
    (Calls::Writes, Status::WriteFault),
    (Calls::Input, Status::ReadFault),
    (Calls::Prints, Status::WriteFault),
];

// The first call at which a run ends otherwise than by this status, where it is not the run that does all.
fn first_unwanted(alloc: Global, calls: Calls, status: Status) -> Result<Option<u8>, StoreFault> {
    for call in 1..u8::MAX {
        match failing(alloc, calls, call, 0, 0)? {
            Some(Status::Done) => return Ok(None),
            Some(end) if end == status => {}
            _ => return Ok(Some(call)),
        }
    }
    Ok(Some(u8::MAX))
}

#[test]
fn each_call_fails(rt: HostRuntime) -> Result<(), StoreFault> {
    for &(calls, status) in KINDS {
        assert_eq!(rt;
            first_unwanted(rt.alloc(), calls, status)?,
            None,
            "{status:?}"
        );
    }
    Ok(())
}

// Each of the two changes takes four calls of the disk.
#[test]
fn each_call_of_the_disk_fails(rt: HostRuntime) -> Result<(), StoreFault> {
    for call in 1..9 {
        for fill in [0, 1, 255] {
            assert_eq!(rt;
                failing(rt.alloc(), Calls::Reads, 0, call, fill)?,
                Some(Status::DiskFault),
                "call {call}, filled with {fill}"
            );
        }
    }
    assert_eq!(rt;
        failing(rt.alloc(), Calls::Reads, 0, 9, 0)?,
        Some(Status::Done)
    );
    Ok(())
}

// Run by hand with each allocation failing in turn, as CONTRIBUTING.md says. Only then may memory run out.
#[test]
fn a_journal_is_kept_or_memory_ran_out(rt: HostRuntime) {
    match failing(rt.alloc(), Calls::Reads, 0, 0, 0) {
        Ok(end) => assert!(rt;
            end == Some(Status::Done) || end == Some(Status::NoMemory),
            "{end:?}"
        ),
        Err(fault) => assert_eq!(rt; fault, StoreFault::NoMemory),
    }
}
