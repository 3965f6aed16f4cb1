//! Runs of `stack` of which one call fails: the first, the second, and so on, until none does.
use crate::place::{File, holds};
use crate::world::{Calls, World};
use outside::StoreFault;
use std::alloc::Global;

const LOW: File = (
    "defs",
    "low.ssql",
    "create view L::t(a, b) as select T.a, T.b from d::r T",
);

const HIGH: File = (
    "defs",
    "high.ssql",
    "create view M::u(a) as select T.a from L::t T",
);

const SOURCE: &str = "a,b\n1,x\n";

const MORE_SOURCE: &str = "a,b\n1,x\n2,y\n";

const FILES: [File; 3] = [LOW, HIGH, ("sources/d", "r.csv", SOURCE)];

// A row, and a sync.
const LINES: [&str; 2] = ["insert\td\tr\t2\ty\n", "sync\n"];

const OPENED: &str = "synced\t2\n";

const CHANGED: &str = "synced\t2\nlevel\t1\nrow+\tt\t2\ty\nlevel\t2\nrow+\tu\t2\ndone\t2\n";

const SYNCED: &str =
    "synced\t2\nlevel\t1\nrow+\tt\t2\ty\nlevel\t2\nrow+\tu\t2\ndone\t2\nsynced\t2\n";

const ENDED: &str =
    "synced\t2\nlevel\t1\nrow+\tt\t2\ty\nlevel\t2\nrow+\tu\t2\ndone\t2\nsynced\t2\nsynced\t0\n";

const LEVEL_1: &str = "a,b\n1,x\n";

const MORE_1: &str = "a,b\n1,x\n2,y\n";

const LEVEL_2: &str = "a\n1\n";

const MORE_2: &str = "a\n1\n2\n";

// How a run ends and what it prints, and what the source and the files of both levels then hold, where they are there.
#[derive(Clone, Copy)]
struct Left {
    status: u8,
    printed: &'static str,
    source: &'static str,
    low: &'static [(&'static str, &'static str)],
    high: &'static [(&'static str, &'static str)],
}

const DONE: Left = Left {
    status: 0,
    printed: ENDED,
    source: MORE_SOURCE,
    low: &[("t.csv", MORE_1)],
    high: &[("u.csv", MORE_2)],
};

const UNREAD: Left = Left {
    status: 6,
    printed: "",
    source: SOURCE,
    low: &[],
    high: &[],
};

// What is left where a call that reads fails, by its number: both definitions, the databases, the relations, the relation,
// and both folders. All of them come before the first write.
const READS: &[(u8, Left)] = &[
    (1, UNREAD),
    (2, UNREAD),
    (3, UNREAD),
    (4, UNREAD),
    (5, UNREAD),
    (6, UNREAD),
    (7, UNREAD),
    (8, DONE),
];

// Where a call that writes fails: a file of each level at the opening, the source and a file of each level at the sync line,
// and at the end the sources, of which nothing is left to save. Half of a file is left.
const WRITES: &[(u8, Left)] = &[
    (
        1,
        Left {
            status: 7,
            printed: "",
            source: SOURCE,
            low: &[("t.csv", "a,b\n")],
            high: &[],
        },
    ),
    (
        2,
        Left {
            status: 7,
            printed: "",
            source: SOURCE,
            low: &[("t.csv", LEVEL_1)],
            high: &[("u.csv", "a\n")],
        },
    ),
    (
        3,
        Left {
            status: 7,
            printed: CHANGED,
            source: SOURCE,
            low: &[("t.csv", LEVEL_1)],
            high: &[("u.csv", LEVEL_2)],
        },
    ),
    (
        4,
        Left {
            status: 7,
            printed: CHANGED,
            source: MORE_SOURCE,
            low: &[("t.csv", "a,b\n1,")],
            high: &[("u.csv", LEVEL_2)],
        },
    ),
    (
        5,
        Left {
            status: 7,
            printed: CHANGED,
            source: MORE_SOURCE,
            low: &[("t.csv", MORE_1)],
            high: &[("u.csv", "a\n1")],
        },
    ),
    (
        6,
        Left {
            status: 7,
            printed: SYNCED,
            source: MORE_SOURCE,
            low: &[("t.csv", MORE_1)],
            high: &[("u.csv", MORE_2)],
        },
    ),
    (7, DONE),
];

// Where a read of the input fails: each line comes by a read of its own, and then the end.
const INPUTS: &[(u8, Left)] = &[
    (
        1,
        Left {
            status: 6,
            printed: OPENED,
            source: SOURCE,
            low: &[("t.csv", LEVEL_1)],
            high: &[("u.csv", LEVEL_2)],
        },
    ),
    (
        2,
        Left {
            status: 6,
            printed: CHANGED,
            source: SOURCE,
            low: &[("t.csv", LEVEL_1)],
            high: &[("u.csv", LEVEL_2)],
        },
    ),
    (
        3,
        Left {
            status: 6,
            printed: SYNCED,
            source: MORE_SOURCE,
            low: &[("t.csv", MORE_1)],
            high: &[("u.csv", MORE_2)],
        },
    ),
    (4, DONE),
];

// What a run left that is not wanted.
fn difference(alloc: Global, world: &mut World, want: &Left) -> Result<&'static str, StoreFault> {
    let status = world.run(alloc, &["stack", "low", "high"])?;
    if status.number() != want.status {
        return Ok("the status");
    }
    if world.output.bytes() != want.printed.as_bytes() {
        return Ok("the output");
    }
    let store = &mut world.store;
    if !holds(alloc, store, "sources/d", &[("r.csv", want.source)])? {
        return Ok("the source");
    }
    if holds(alloc, store, "views/L", want.low)? && holds(alloc, store, "views/M", want.high)? {
        Ok("nothing")
    } else {
        Ok("the levels")
    }
}

fn failing_at(
    alloc: Global,
    calls: Calls,
    call: u8,
    want: &Left,
) -> Result<&'static str, StoreFault> {
    let mut world = World::failing(alloc, &FILES, &LINES, 7, calls, call)?;
    let found = difference(alloc, &mut world, want);
    drop(world);
    found
}

// How a run ends of which a call that prints fails: its status, or 100 where its output is no front of the whole.
fn end_of(alloc: Global, world: &mut World) -> Result<u8, StoreFault> {
    let status = world.run(alloc, &["stack", "low", "high"])?;
    if ENDED.as_bytes().starts_with(world.output.bytes()) {
        Ok(status.number())
    } else {
        Ok(100)
    }
}

fn failing_print(alloc: Global, call: u8) -> Result<u8, StoreFault> {
    let mut world = World::failing(alloc, &FILES, &LINES, 7, Calls::Prints, call)?;
    let end = end_of(alloc, &mut world);
    drop(world);
    end
}

#[test]
fn each_read_fails(rt: HostRuntime) -> Result<(), StoreFault> {
    for (call, want) in READS {
        assert_eq!(rt;
            failing_at(rt.alloc(), Calls::Reads, *call, want)?,
            "nothing",
            "at {call}"
        );
    }
    Ok(())
}

#[test]
fn each_write_fails(rt: HostRuntime) -> Result<(), StoreFault> {
    for (call, want) in WRITES {
        assert_eq!(rt;
            failing_at(rt.alloc(), Calls::Writes, *call, want)?,
            "nothing",
            "at {call}"
        );
    }
    Ok(())
}

#[test]
fn each_read_of_the_input_fails(rt: HostRuntime) -> Result<(), StoreFault> {
    for (call, want) in INPUTS {
        assert_eq!(rt;
            failing_at(rt.alloc(), Calls::Input, *call, want)?,
            "nothing",
            "at {call}"
        );
    }
    Ok(())
}

// The output takes seven bytes a call.
#[test]
fn each_print_fails(rt: HostRuntime) -> Result<(), StoreFault> {
    for call in 1..u8::MAX {
        let status = failing_print(rt.alloc(), call)?;
        if status == 0 {
            return Ok(());
        }
        assert_eq!(rt; status, 7, "at {call}");
    }
    assert!(rt; false, "no run ended well");
    Ok(())
}
