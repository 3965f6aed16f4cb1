//! Runs of `maintain` of which one call fails: the first, the second, and so on, until none does.
use crate::offices::A_TO_C;
use crate::place::{File, holds};
use crate::row::{Want, unwanted};
use crate::world::{Calls, World};
use outside::StoreFault;
use std::alloc::Global;

const SOURCE: &str = "category,dept,salFloor\nProf,cs,72000\nProf,math,65000\nAssoc,cs,60000\n";

// The sources behind the first change. A save that fails leaves them as before.
const MORE_SOURCE: &str =
    "category,dept,salFloor\nProf,cs,72000\nProf,math,65000\nAssoc,cs,60000\nLect,math,1\n";

const FILES: [File; 2] = [A_TO_C, ("sources/univ-A", "salInfo.csv", SOURCE)];
// A change, a sync, and a table that comes and goes before the next one.
const LINES: &[&str] = &[
    "insert\tuniv-A\tsalInfo\tLect\tmath\t1\n",
    "sync\n",
    "insert\tuniv-A\tsalInfo\tLect\tbio\t2\n",
    "delete\tuniv-A\tsalInfo\tLect\tbio\t2\n",
];

const CS: &str = "category,salFloor\nAssoc,60000\nProf,72000\n";

const MATH: &str = "category,salFloor\nProf,65000\n";

const MORE_MATH: &str = "category,salFloor\nLect,1\nProf,65000\n";

const OPENED: &str = "synced\t2\n";

const CHANGED: &str = "synced\t2\nrow+\tmath\tLect\t1\ndone\t1\n";

const SYNCED: &str = "synced\t2\nrow+\tmath\tLect\t1\ndone\t1\nsynced\t1\n";

const INSERTED: &str =
    "synced\t2\nrow+\tmath\tLect\t1\ndone\t1\nsynced\t1\ntable+\tbio\nrow+\tbio\tLect\t2\ndone\t2\n";

const DELETED: &str =
    "synced\t2\nrow+\tmath\tLect\t1\ndone\t1\nsynced\t1\ntable+\tbio\nrow+\tbio\tLect\t2\ndone\t2\ntable-\tbio\ndone\t1\n";

const ENDED: &str =
    "synced\t2\nrow+\tmath\tLect\t1\ndone\t1\nsynced\t1\ntable+\tbio\nrow+\tbio\tLect\t2\ndone\t2\ntable-\tbio\ndone\t1\nsynced\t0\n";

// A call that fails, what the sources then hold, and what else is left.
type Failing = (u8, &'static str, Want);

// Where no call fails, and where a call that reads the folders does.
const DONE: Want = Want {
    status: 0,
    printed: ENDED,
    folder: "views/AtoC",
    held: &[("cs.csv", CS), ("math.csv", MORE_MATH)],
};

const UNREAD: Want = Want {
    status: 6,
    printed: "",
    folder: "views/AtoC",
    held: &[],
};

const READS: &[Failing] = &[
    (1, SOURCE, UNREAD),
    (2, SOURCE, UNREAD),
    (3, SOURCE, UNREAD),
    (4, SOURCE, UNREAD),
    (5, SOURCE, UNREAD),
    (6, MORE_SOURCE, DONE),
];

// Where a call that writes fails: two files of the opening, the sources and a file at the sync line, and the sources
// and a removal at the end.
const WRITES: &[Failing] = &[
    (
        1,
        SOURCE,
        Want {
            status: 7,
            printed: "",
            folder: "views/AtoC",
            held: &[("cs.csv", "category,salFloor\nAs")],
        },
    ),
    (
        2,
        SOURCE,
        Want {
            status: 7,
            printed: "",
            folder: "views/AtoC",
            held: &[("cs.csv", CS), ("math.csv", "category,salFl")],
        },
    ),
    (
        3,
        SOURCE,
        Want {
            status: 7,
            printed: CHANGED,
            folder: "views/AtoC",
            held: &[("cs.csv", CS), ("math.csv", MATH)],
        },
    ),
    (
        4,
        MORE_SOURCE,
        Want {
            status: 7,
            printed: CHANGED,
            folder: "views/AtoC",
            held: &[("cs.csv", CS), ("math.csv", "category,salFloor\n")],
        },
    ),
    (
        5,
        MORE_SOURCE,
        Want {
            status: 7,
            printed: DELETED,
            folder: "views/AtoC",
            held: &[("cs.csv", CS), ("math.csv", MORE_MATH)],
        },
    ),
    (
        6,
        MORE_SOURCE,
        Want {
            status: 7,
            printed: DELETED,
            folder: "views/AtoC",
            held: &[("cs.csv", CS), ("math.csv", MORE_MATH)],
        },
    ),
    (7, MORE_SOURCE, DONE),
];

// Where a read of the input fails: each line comes by a read of its own, and then the end.
const INPUTS: &[Failing] = &[
    (
        1,
        SOURCE,
        Want {
            status: 6,
            printed: OPENED,
            folder: "views/AtoC",
            held: &[("cs.csv", CS), ("math.csv", MATH)],
        },
    ),
    (
        2,
        SOURCE,
        Want {
            status: 6,
            printed: CHANGED,
            folder: "views/AtoC",
            held: &[("cs.csv", CS), ("math.csv", MATH)],
        },
    ),
    (
        3,
        MORE_SOURCE,
        Want {
            status: 6,
            printed: SYNCED,
            ..DONE
        },
    ),
    (
        4,
        MORE_SOURCE,
        Want {
            status: 6,
            printed: INSERTED,
            ..DONE
        },
    ),
    (
        5,
        MORE_SOURCE,
        Want {
            status: 6,
            printed: DELETED,
            ..DONE
        },
    ),
    (6, MORE_SOURCE, DONE),
];

// What a run left that is not wanted.
fn difference(
    alloc: Global,
    world: &mut World,
    source: &str,
    want: &Want,
) -> Result<&'static str, StoreFault> {
    let status = world.run(alloc, &["maintain", "AtoC"])?;
    if !holds(
        alloc,
        &mut world.store,
        "sources/univ-A",
        &[("salInfo.csv", source)],
    )? {
        return Ok("the sources");
    }
    unwanted(alloc, &mut world.store, status, world.output.bytes(), want)
}

fn failing_at(alloc: Global, calls: Calls, failing: &Failing) -> Result<&'static str, StoreFault> {
    let (call, source, want) = failing;
    let mut world = World::failing(alloc, &FILES, LINES, 7, calls, *call)?;
    let found = difference(alloc, &mut world, source, want);
    drop(world);
    found
}

// How a run ends: its status, or 100 where its output is no front of the whole.
fn end_of(alloc: Global, world: &mut World) -> Result<u8, StoreFault> {
    let status = world.run(alloc, &["maintain", "AtoC"])?;
    if ENDED.as_bytes().starts_with(world.output.bytes()) {
        Ok(status.number())
    } else {
        Ok(100)
    }
}

// How a run ends of which a call that prints fails.
fn failing_print(alloc: Global, call: u8) -> Result<u8, StoreFault> {
    let mut world = World::failing(alloc, &FILES, LINES, 7, Calls::Prints, call)?;
    let end = end_of(alloc, &mut world);
    drop(world);
    end
}

#[test]
fn each_read_fails(rt: HostRuntime) -> Result<(), StoreFault> {
    for failing in READS {
        assert_eq!(rt;
            failing_at(rt.alloc(), Calls::Reads, failing)?,
            "nothing",
            "at {}",
            failing.0
        );
    }
    Ok(())
}

#[test]
fn each_write_fails(rt: HostRuntime) -> Result<(), StoreFault> {
    for failing in WRITES {
        assert_eq!(rt;
            failing_at(rt.alloc(), Calls::Writes, failing)?,
            "nothing",
            "at {}",
            failing.0
        );
    }
    Ok(())
}

#[test]
fn each_read_of_the_input_fails(rt: HostRuntime) -> Result<(), StoreFault> {
    for failing in INPUTS {
        assert_eq!(rt;
            failing_at(rt.alloc(), Calls::Input, failing)?,
            "nothing",
            "at {}",
            failing.0
        );
    }
    Ok(())
}

// The output takes seven bytes a call.
#[test]
fn each_print_fails(rt: HostRuntime) -> Result<(), StoreFault> {
    for call in 1..u8::MAX {
        let status = failing_print(rt.alloc(), call)?;
        if status == 0 {
            return Ok(());
        }
        assert_eq!(rt; status, 7, "at {call}");
    }
    assert!(rt; false, "no run ended well");
    Ok(())
}
