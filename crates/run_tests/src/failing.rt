//! Runs of which one call fails: the first, the second, and so on, until none does.
use crate::offices::A_TO_C;
use crate::place::{File, holds};
use crate::row::{Want, unwanted};
use crate::world::{Calls, World};
use outside::StoreFault;
use std::alloc::Global;

const SOURCE: &str = "category,dept,salFloor\nProf,cs,72000\nProf,math,65000\nAssoc,cs,60000\n";

const FILES: &[File] = &[
    A_TO_C,
    ("sources/univ-A", "salInfo.csv", SOURCE),
    ("views/AtoC", "notes.txt", "keep\n"),
    ("views/AtoC", "old.csv", "x\n"),
];

const CS: &str = "category,salFloor\nAssoc,60000\nProf,72000\n";

const MATH: &str = "category,salFloor\nProf,65000\n";

// Where no call fails, and where a call that reads does: the definition, the databases, the relations, a relation,
// the view folder.
const SHOWN: Want = Want {
    status: 0,
    printed: "synced\t3\n",
    folder: "views/AtoC",
    held: &[("cs.csv", CS), ("math.csv", MATH), ("notes.txt", "keep\n")],
};

const UNREAD: Want = Want {
    status: 6,
    printed: "",
    folder: "views/AtoC",
    held: &[("notes.txt", "keep\n"), ("old.csv", "x\n")],
};

const READS: &[(u8, Want)] = &[
    (1, UNREAD),
    (2, UNREAD),
    (3, UNREAD),
    (4, UNREAD),
    (5, UNREAD),
    (6, SHOWN),
];

// Where a call that writes fails: two files, of which half is left, and a removal.
const WRITES: &[(u8, Want)] = &[
    (
        1,
        Want {
            status: 7,
            printed: "",
            folder: "views/AtoC",
            held: &[
                ("cs.csv", "category,salFloor\nAs"),
                ("notes.txt", "keep\n"),
                ("old.csv", "x\n"),
            ],
        },
    ),
    (
        2,
        Want {
            status: 7,
            printed: "",
            folder: "views/AtoC",
            held: &[
                ("cs.csv", CS),
                ("math.csv", "category,salFl"),
                ("notes.txt", "keep\n"),
                ("old.csv", "x\n"),
            ],
        },
    ),
    (
        3,
        Want {
            status: 7,
            printed: "",
            folder: "views/AtoC",
            held: &[
                ("cs.csv", CS),
                ("math.csv", MATH),
                ("notes.txt", "keep\n"),
                ("old.csv", "x\n"),
            ],
        },
    ),
    (4, SHOWN),
];

// Where a call that prints fails. The output takes four bytes a call.
const PRINTS: &[(u8, Want)] = &[
    (
        1,
        Want {
            status: 7,
            printed: "",
            ..SHOWN
        },
    ),
    (
        2,
        Want {
            status: 7,
            printed: "sync",
            ..SHOWN
        },
    ),
    (
        3,
        Want {
            status: 7,
            printed: "synced\t3",
            ..SHOWN
        },
    ),
    (4, SHOWN),
];

// What a run left that is not wanted.
fn difference(alloc: Global, world: &mut World, want: &Want) -> Result<&'static str, StoreFault> {
    let status = world.run(alloc, &["show", "AtoC"])?;
    if !holds(
        alloc,
        &mut world.store,
        "sources/univ-A",
        &[("salInfo.csv", SOURCE)],
    )? {
        return Ok("the sources");
    }
    unwanted(alloc, &mut world.store, status, world.output.bytes(), want)
}

fn failing(alloc: Global, calls: Calls, call: u8, want: &Want) -> Result<&'static str, StoreFault> {
    let mut world = World::failing(alloc, FILES, &[], 4, calls, call)?;
    let found = difference(alloc, &mut world, want);
    drop(world);
    found
}

#[test]
fn each_read_fails(rt: HostRuntime) -> Result<(), StoreFault> {
    for (call, want) in READS {
        assert_eq!(rt;
            failing(rt.alloc(), Calls::Reads, *call, want)?,
            "nothing",
            "at {call}"
        );
    }
    Ok(())
}

#[test]
fn each_write_fails(rt: HostRuntime) -> Result<(), StoreFault> {
    for (call, want) in WRITES {
        assert_eq!(rt;
            failing(rt.alloc(), Calls::Writes, *call, want)?,
            "nothing",
            "at {call}"
        );
    }
    Ok(())
}

#[test]
fn each_print_fails(rt: HostRuntime) -> Result<(), StoreFault> {
    for (call, want) in PRINTS {
        assert_eq!(rt;
            failing(rt.alloc(), Calls::Prints, *call, want)?,
            "nothing",
            "at {call}"
        );
    }
    Ok(())
}
