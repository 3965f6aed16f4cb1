//! Sweeps: of a run the first call of one kind fails, then the second, and so on, until the run ends as it does where
//! none fails. What it prints before is a front of what it prints then, and a second run over the same folders makes
//! good what it left.
use crate::offices::{A, A_TO_B, A_TO_C, B, B_TO_A, BACK};
use crate::place::{File, run_over, texts};
use crate::world::{Calls, World};
use outside::{MemFolders, StoreFault, SureSink, SureSource};
use ss_top::Status;
use std::alloc::Global;

// A run, how it ends and what it prints where no call fails, and what the second run does, whether it then is verified.
struct Swept {
    words: &'static [&'static str],
    files: &'static [File],
    pieces: &'static [&'static str],
    status: u8,
    printed: &'static str,
    verify: &'static [&'static str],
}

const COLUMNS: File = (
    "views/AtoB",
    "salInfo.csv",
    "category,cs,math\nAssoc,60000,\nProf,72000,65000\n",
);

const RUNS: &[Swept] = &[
    Swept {
        words: &["show", "AtoC"],
        files: &[A_TO_C, A, ("views/AtoC", "old.csv", "x\n")],
        pieces: &[],
        status: 0,
        printed: "synced\t3\n",
        verify: &["verify", "AtoC"],
    },
    // A row, a sync, and a table that comes and goes before the next one.
    Swept {
        words: &["maintain", "AtoC"],
        files: &[A_TO_C, A],
        pieces: &[
            "insert\tuniv-A\tsalInfo\tLect\tmath\t1\nsync\n",
            "insert\tuniv-A\tsalInfo\tLect\tbio\t2\ndelete\tuniv-A\tsalInfo\tLect\tbio\t2\n",
        ],
        status: 0,
        printed: "synced\t2\nrow+\tmath\tLect\t1\ndone\t1\nsynced\t1\ntable+\tbio\nrow+\tbio\tLect\t2\ndone\t2\ntable-\tbio\ndone\t1\nsynced\t0\n",
        verify: &["verify", "AtoC"],
    },
    // Rows, a sync, attributes and relations, a group, and databases.
    Swept {
        words: &["maintain", "AtoB"],
        files: &[A_TO_B, A, B],
        pieces: &[
            "insert\tuniv-A\tsalInfo\tProf\tphysics\t70000\nsync\n",
            "begin\ndelete\tuniv-A\tsalInfo\tProf\tcs\t72000\n",
            "insert\tuniv-A\tsalInfo\tProf\tcs\t99\ncommit\n",
            "create-database\tz\ncreate-relation\tz\tr\ta\nadd-attribute\tuniv-A\tsalInfo\tx\ty\n",
            "sync\nrename-relation\tuniv-B\tsalInfo\tpay\ndrop-database\tz\n",
        ],
        status: 0,
        printed: "synced\t1\ncolumn+\tsalInfo\tphysics\ncell\tsalInfo\tphysics\t70000\tProf\ndone\t2\nsynced\t1\nbegun\nheld\nheld\ncell\tsalInfo\tcs\t99\tProf\ndone\t1\ndone\t0\ndone\t0\ndone\t0\nsynced\t1\ndone\t0\ndone\t0\nsynced\t0\n",
        verify: &["verify", "AtoB"],
    },
    // A view whose tables follow the attributes, and a refused line.
    Swept {
        words: &["maintain", "BtoA"],
        files: &[B_TO_A, B],
        pieces: &[
            "rename-attribute\tuniv-B\tsalInfo\tcs\tinformatics\n",
            "insert\tuniv-B\tsalInfo\tDean\n",
        ],
        status: 1,
        printed: "synced\t1\nrow-\tsalInfo\tAssoc\tcs\t60000\nrow-\tsalInfo\tProf\tcs\t72000\nrow+\tsalInfo\tAssoc\tinformatics\t60000\nrow+\tsalInfo\tProf\tinformatics\t72000\ndone\t4\nrefused\tarity-differs\tuniv-B\tsalInfo\t3\t1\nsynced\t1\n",
        verify: &["verify", "BtoA"],
    },
    // Changes of two sources, one of which comes again, over two syncs.
    Swept {
        words: &["feed", "AtoC"],
        files: &[A_TO_C, A],
        pieces: &[
            "feed\ta\t1\tinsert\tuniv-A\tsalInfo\tLect\tmath\t1\nsync\n",
            "feed\ta\t1\tinsert\tuniv-A\tsalInfo\tLect\tmath\t1\nfeed\tb\t2\tdrop-database\tuniv-A\n",
            "feed\tb\t1\tdelete\tuniv-A\tsalInfo\tProf\tmath\t65000\n",
        ],
        status: 1,
        printed: "synced\t2\nreply\ta\t1\nrow+\tmath\tLect\t1\ndone\t1\nsynced\t1\nreply\ta\t1\nrow+\tmath\tLect\t1\ndone\t1\nrefused\tearly\tb\t1\nreply\tb\t1\nrow-\tmath\tProf\t65000\ndone\t1\nsynced\t1\n",
        verify: &["verify", "AtoC"],
    },
    // A column of the lower view that comes and goes, and its rows in the upper one, over two syncs.
    Swept {
        words: &["stack", "AtoB", "Back"],
        files: &[A_TO_B, BACK, A],
        pieces: &[
            "insert\tuniv-A\tsalInfo\tProf\tphysics\t70000\nsync\n",
            "delete\tuniv-A\tsalInfo\tProf\tphysics\t70000\n",
        ],
        status: 0,
        printed: "synced\t2\nlevel\t1\ncolumn+\tsalInfo\tphysics\ncell\tsalInfo\tphysics\t70000\tProf\nlevel\t2\nrow+\tsalInfo\tAssoc\tphysics\t\nrow+\tsalInfo\tProf\tphysics\t70000\ndone\t4\nsynced\t2\nlevel\t1\ncolumn-\tsalInfo\tphysics\nlevel\t2\nrow-\tsalInfo\tAssoc\tphysics\t\nrow-\tsalInfo\tProf\tphysics\t70000\ndone\t3\nsynced\t2\n",
        verify: &["verify", "AtoB"],
    },
    Swept {
        words: &["apply", "AtoB"],
        files: &[A_TO_B, COLUMNS],
        pieces: &[
            "column+\tsalInfo\tphysics\n",
            "cell\tsalInfo\tphysics\t70000\tProf\ntable+\tpay\n",
        ],
        status: 0,
        printed: "applied\t3\nsynced\t2\n",
        verify: &["apply", "AtoB"],
    },
    Swept {
        words: &["verify", "AtoB"],
        files: &[A_TO_B, A, COLUMNS],
        pieces: &[],
        status: 0,
        printed: "same\t1\n",
        verify: &["verify", "AtoB"],
    },
    Swept {
        words: &["check", "AtoB"],
        files: &[A_TO_B],
        pieces: &[],
        status: 0,
        printed: "CREATE VIEW AtoB::salInfo(category, D) AS SELECT A.category, A.salFloor FROM univ-A::salInfo A, A.dept D\n",
        verify: &["check", "AtoB"],
    },
];

const KINDS: &[Calls] = &[Calls::Reads, Calls::Writes, Calls::Input, Calls::Prints];

// How a run ended: as it does where no call fails, stopped by one and made good, or otherwise.
enum End {
    Done,
    Stopped,
    Unwanted(&'static str),
}

// A run over these folders that does not read an input: its status, and whether it prints a refusal.
fn ends(
    alloc: Global,
    store: &mut MemFolders,
    words: &[&str],
) -> Result<(Status, bool), StoreFault> {
    let words = texts(alloc, words)?;
    let mut input = SureSource::of(Vec::new(alloc));
    let mut output = SureSink::of(alloc, 1000);
    let status = run_over(alloc, &words, store, &mut input, &mut output);
    Ok((status, output.bytes().starts_with(b"refused")))
}

// Runs again over what a stopped run left, and verifies it. A half file that is a source or a table may be refused.
fn made_good(alloc: Global, run: &Swept, store: &mut MemFolders) -> Result<End, StoreFault> {
    match ends(alloc, store, run.words)? {
        (Status::BadCatalogue, true) => return Ok(End::Stopped),
        (Status::Done, _) => {}
        _ => return Ok(End::Unwanted("the second run")),
    }
    match ends(alloc, store, run.verify)? {
        (Status::Done, _) => Ok(End::Stopped),
        _ => Ok(End::Unwanted("what the second run left")),
    }
}

// Runs where one call fails.
fn end_of(alloc: Global, run: &Swept, world: &mut World) -> Result<End, StoreFault> {
    let status = world.run(alloc, run.words)?;
    let printed = run.printed.as_bytes();
    if status.number() == run.status && world.output.bytes() == printed {
        return Ok(End::Done);
    }
    if status != Status::ReadFault && status != Status::WriteFault {
        return Ok(End::Unwanted("the status"));
    }
    if !printed.starts_with(world.output.bytes()) {
        return Ok(End::Unwanted("the output"));
    }
    made_good(alloc, run, &mut world.store)
}

// Runs with the call of this number failing.
fn failing(alloc: Global, run: &Swept, calls: Calls, call: u8) -> Result<End, StoreFault> {
    let mut world = World::failing(alloc, run.files, run.pieces, 9, calls, call)?;
    let end = end_of(alloc, run, &mut world);
    drop(world);
    end
}

// The first call at which what is left is not what is wanted.
fn first_unwanted(
    alloc: Global,
    run: &Swept,
    calls: Calls,
) -> Result<Option<(u8, &'static str)>, StoreFault> {
    for call in 1..u8::MAX {
        match failing(alloc, run, calls, call)? {
            End::Done => return Ok(None),
            End::Stopped => {}
            End::Unwanted(what) => return Ok(Some((call, what))),
        }
    }
    Ok(Some((u8::MAX, "no end")))
}

#[test]
fn each_call_fails(rt: HostRuntime) -> Result<(), StoreFault> {
    for (place, run) in RUNS.iter().enumerate() {
        for &calls in KINDS {
            assert_eq!(rt; first_unwanted(rt.alloc(), run, calls)?, None, "at {place}");
        }
    }
    Ok(())
}
