//! Views with a journal, which `journal` keeps.
use crate::offices::{A, A_TO_B, A_TO_C};
use crate::place::{File, Held, all_hold, disk_of, folders, run_over_disk, texts};
use outside::{Folders, StoreFault, SureSink, SureSource};
use ss_top::Status;
use std::alloc::Global;

// A run over a journal of these bytes, and what it leaves, the journal among it.
struct Journaled {
    words: &'static [&'static str],
    files: &'static [File],
    journal: &'static [u8],
    lines: &'static str,
    status: u8,
    printed: &'static str,
    left: &'static [u8],
    held: &'static [Held],
}

const FRESH: &[u8] = b"\x00";

// The length of the line is 40, which is 28 in base 16.
const ONE_ENTRY: &[u8] = b"\x01\x00\x00\x00\x28insert\tuniv-A\tsalInfo\tProf\tphysics\t70000\x00";

const TWO_ENTRIES: &[u8] =
    b"\x01\x00\x00\x00\x28insert\tuniv-A\tsalInfo\tProf\tphysics\t70000\x01\x00\x00\x00\x44insert\tuniv-A\tsalInfo\tProf\tcs\t99\ndelete\tuniv-A\tsalInfo\tProf\tcs\t72000\x00";

// Two bytes stand where five are told.
const CUT_SHORT: &[u8] = b"\x01\x00\x00\x00\x05ab";

const SOURCE: Held = (
    "sources/univ-A",
    &[(
        "salInfo.csv",
        "category,dept,salFloor\nProf,cs,72000\nProf,math,65000\nAssoc,cs,60000\n",
    )],
);

const COLUMNS: Held = (
    "views/AtoB",
    &[(
        "salInfo.csv",
        "category,cs,math\nAssoc,60000,\nProf,72000,65000\n",
    )],
);

const MORE_COLUMNS: Held = (
    "views/AtoB",
    &[(
        "salInfo.csv",
        "category,cs,math,physics\nAssoc,60000,,\nProf,72000,65000,70000\n",
    )],
);

const RUNS: &[Journaled] = &[
    // A change is kept, and the sources stay.
    Journaled {
        words: &["journal", "AtoB"],
        files: &[A_TO_B, A],
        journal: FRESH,
        lines: "insert\tuniv-A\tsalInfo\tProf\tphysics\t70000\n",
        status: 0,
        printed: "synced\t1\ncolumn+\tsalInfo\tphysics\ncell\tsalInfo\tphysics\t70000\tProf\ndone\t2\nsynced\t1\n",
        left: ONE_ENTRY,
        held: &[SOURCE, MORE_COLUMNS],
    },
    // It is made again before the view is opened.
    Journaled {
        words: &["journal", "AtoB"],
        files: &[A_TO_B, A],
        journal: ONE_ENTRY,
        lines: "",
        status: 0,
        printed: "synced\t1\nsynced\t0\n",
        left: ONE_ENTRY,
        held: &[SOURCE, MORE_COLUMNS],
    },
    // A journal that says nothing, and one whose change is refused.
    Journaled {
        words: &["journal", "AtoB"],
        files: &[A_TO_B, A],
        journal: CUT_SHORT,
        lines: "sync\n",
        status: 4,
        printed: "refused\tbad-journal\t0\n",
        left: CUT_SHORT,
        held: &[SOURCE, ("views/AtoB", &[])],
    },
    Journaled {
        words: &["journal", "AtoB"],
        files: &[A_TO_B],
        journal: ONE_ENTRY,
        lines: "sync\n",
        status: 4,
        printed: "refused\tjournal-stale\t1\n",
        left: ONE_ENTRY,
        held: &[("views/AtoB", &[])],
    },
    // A group is one entry, and one without changes is none. What is refused or given up is not kept.
    Journaled {
        words: &["journal", "AtoB"],
        files: &[A_TO_B, A],
        journal: ONE_ENTRY,
        lines: "begin\ninsert\tuniv-A\tsalInfo\tProf\tcs\t99\ndelete\tuniv-A\tsalInfo\tProf\tcs\t72000\ncommit\nbegin\ncommit\ninsert\tuniv-A\tsalInfo\tProf\tcs\t1\nbegin\ninsert\tuniv-A\tsalInfo\tLect\tcs\t1\nabort\nbegin\ninsert\tuniv-A\tsalInfo\tLect\tcs\t1\n",
        status: 1,
        printed: "synced\t1\nbegun\nheld\nheld\ncell\tsalInfo\tcs\t99\tProf\ndone\t1\nbegun\ndone\t0\nrefused\tconflict\tsalInfo\tcs\t1\t99\tProf\nbegun\nheld\naborted\nbegun\nheld\nrefused\topen-group\t1\nsynced\t1\n",
        left: TWO_ENTRIES,
        held: &[
            SOURCE,
            (
                "views/AtoB",
                &[(
                    "salInfo.csv",
                    "category,cs,math,physics\nAssoc,60000,,\nProf,99,65000,70000\n",
                )],
            ),
        ],
    },
    // A change that the view does not show is kept too.
    Journaled {
        words: &["journal", "AtoB"],
        files: &[A_TO_B, A],
        journal: FRESH,
        lines: "drop-database\tz\ncreate-database\tz\n",
        status: 1,
        printed: "synced\t1\nrefused\tno-database\tz\ndone\t0\nsynced\t0\n",
        left: b"\x01\x00\x00\x00\x11create-database\tz\x00",
        held: &[SOURCE, COLUMNS],
    },
    // A sync brings the view's folder to its tables, and no source.
    Journaled {
        words: &["journal", "AtoC"],
        files: &[A_TO_C, A, ("views/AtoC", "old.csv", "x\n")],
        journal: FRESH,
        lines: "delete\tuniv-A\tsalInfo\tProf\tmath\t65000\nsync\n",
        status: 0,
        printed: "synced\t3\ntable-\tmath\ndone\t1\nsynced\t1\nsynced\t0\n",
        left: b"\x01\x00\x00\x00\x25delete\tuniv-A\tsalInfo\tProf\tmath\t65000\x00",
        held: &[
            SOURCE,
            (
                "views/AtoC",
                &[("cs.csv", "category,salFloor\nAssoc,60000\nProf,72000\n")],
            ),
        ],
    },
    // The view is judged over the changes of the journal.
    Journaled {
        words: &["journal", "AtoB"],
        files: &[A_TO_B, A, ("views/AtoB", "old.csv", "x\n")],
        journal: b"\x01\x00\x00\x00\x20insert\tuniv-A\tsalInfo\tProf\tcs\t99\x00",
        lines: "sync\n",
        status: 5,
        printed: "refused\tconflict\tsalInfo\tcs\t72000\t99\tProf\n",
        left: b"\x01\x00\x00\x00\x20insert\tuniv-A\tsalInfo\tProf\tcs\t99\x00",
        held: &[SOURCE, ("views/AtoB", &[("old.csv", "x\n")])],
    },
    // A definition is judged before the journal is read.
    Journaled {
        words: &["journal", "none"],
        files: &[A],
        journal: CUT_SHORT,
        lines: "",
        status: 3,
        printed: "refused\tno-definition\tnone\n",
        left: CUT_SHORT,
        held: &[SOURCE],
    },
    // Other words use no disk.
    Journaled {
        words: &["maintain", "AtoB"],
        files: &[A_TO_B, A],
        journal: CUT_SHORT,
        lines: "",
        status: 0,
        printed: "synced\t1\nsynced\t0\n",
        left: CUT_SHORT,
        held: &[SOURCE, COLUMNS],
    },
    Journaled {
        words: &["journal", "AtoB", "AtoC"],
        files: &[A_TO_B, A],
        journal: CUT_SHORT,
        lines: "",
        status: 2,
        printed: "usage: schemasql check|show|maintain|verify|apply NAME, or schemasql load N SEED, or schemasql stack NAME NAME .., or schemasql feed NAME, or schemasql journal NAME\n",
        left: CUT_SHORT,
        held: &[SOURCE, ("views/AtoB", &[])],
    },
];

// What a run left that is not wanted.
fn unwanted<F: Folders>(
    alloc: Global,
    store: &mut F,
    status: Status,
    printed: &[u8],
    left: &[u8],
    want: &Journaled,
) -> Result<&'static str, StoreFault> {
    if status.number() != want.status {
        return Ok("the status");
    }
    if printed != want.printed.as_bytes() {
        return Ok("the output");
    }
    if left != want.left {
        return Ok("the journal");
    }
    if all_hold(alloc, store, want.held)? {
        Ok("nothing")
    } else {
        Ok("the files")
    }
}

fn difference(alloc: Global, run: &Journaled) -> Result<&'static str, StoreFault> {
    let words = texts(alloc, run.words)?;
    let mut store = folders(alloc, run.files)?;
    let mut input = SureSource::of(texts(alloc, &[run.lines])?);
    let mut output = SureSink::of(alloc, 5);
    let mut disk = disk_of(alloc, run.journal, 0)?;
    let status = run_over_disk(
        alloc,
        &words,
        &mut store,
        &mut input,
        &mut output,
        &mut disk,
    );
    unwanted(alloc, &mut store, status, output.bytes(), disk.bytes(), run)
}

// The first run that leaves something else than is wanted, and what.
fn first_difference(
    alloc: Global,
    runs: &[Journaled],
) -> Result<Option<(usize, &'static str)>, StoreFault> {
    for (place, run) in runs.iter().enumerate() {
        let found = difference(alloc, run)?;
        if found != "nothing" {
            return Ok(Some((place, found)));
        }
    }
    Ok(None)
}

#[test]
fn journals_are_kept(rt: HostRuntime) -> Result<(), StoreFault> {
    assert_eq!(rt; first_difference(rt.alloc(), RUNS)?, None);
    Ok(())
}
