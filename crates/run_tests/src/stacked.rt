//! Views over one another, which `stack` keeps.
use crate::offices::{A, A_TO_B, BACK};
use crate::place::{File, Held, all_hold, folders, run_over, texts};
use outside::{Folders, StoreFault, SureSink, SureSource};
use ss_top::Status;
use std::alloc::Global;

// A run, and what it leaves.
struct Stacked {
    words: &'static [&'static str],
    files: &'static [File],
    lines: &'static str,
    status: u8,
    printed: &'static str,
    held: &'static [Held],
}

// Each department as a table.
const SPLIT: File = (
    "defs",
    "Split.ssql",
    "create view Split::D(category, salFloor) as select A.category, A.salFloor from Back::salInfo A, A.dept D where A.salFloor <> ''",
);

const LOW: File = (
    "defs",
    "low.ssql",
    "create view L::t(a, b) as select T.a, T.b from d::r T",
);

const HIGH: File = (
    "defs",
    "high.ssql",
    "create view M::u(a, D) as select T.a, T.b from L::t T, T.a D",
);

const ONE: File = ("sources/d", "r.csv", "a,b\n1,x\n");

const TWO: File = ("sources/d", "r.csv", "a,b\n1,x\n1,y\n");

const COLUMNS: &str = "category,cs,math\nAssoc,60000,\nProf,72000,65000\n";

const MORE_COLUMNS: &str = "category,cs,math,physics\nAssoc,60000,,\nProf,72000,65000,70000\n";

const VALUES: &str =
    "category,dept,salFloor\nAssoc,cs,60000\nAssoc,math,\nProf,cs,72000\nProf,math,65000\n";

const MORE_VALUES: &str =
    "category,dept,salFloor\nAssoc,cs,60000\nAssoc,math,\nAssoc,physics,\nProf,cs,72000\nProf,math,65000\nProf,physics,70000\n";

const RUNS: &[Stacked] = &[
    // A row is a column and a cell of the first view, and two rows of the second.
    Stacked {
        words: &["stack", "AtoB", "Back"],
        files: &[A_TO_B, BACK, A],
        lines: "insert\tuniv-A\tsalInfo\tProf\tphysics\t70000\n",
        status: 0,
        printed: "synced\t2\nlevel\t1\ncolumn+\tsalInfo\tphysics\ncell\tsalInfo\tphysics\t70000\tProf\nlevel\t2\nrow+\tsalInfo\tAssoc\tphysics\t\nrow+\tsalInfo\tProf\tphysics\t70000\ndone\t4\nsynced\t2\n",
        held: &[
            ("views/AtoB", &[("salInfo.csv", MORE_COLUMNS)]),
            ("views/Back", &[("salInfo.csv", MORE_VALUES)]),
        ],
    },
    // What the second view refuses changes neither.
    Stacked {
        words: &["stack", "low", "high"],
        files: &[LOW, HIGH, ONE],
        lines: "insert\td\tr\t1\ty\n",
        status: 1,
        printed: "synced\t2\nlevel\t2\nrefused\tconflict\tu\t1\tx\ty\t1\nsynced\t0\n",
        held: &[
            ("sources/d", &[("r.csv", "a,b\n1,x\n")]),
            ("views/L", &[("t.csv", "a,b\n1,x\n")]),
            ("views/M", &[("u.csv", "a,1\n1,x\n")]),
        ],
    },
    // No two levels have one folder.
    Stacked {
        words: &["stack", "AtoB", "AtoB"],
        files: &[A_TO_B, A],
        lines: "",
        status: 3,
        printed: "refused\tview-database-twice\tAtoB\n",
        held: &[("views/AtoB", &[])],
    },
    // A definition is refused before view databases are compared.
    Stacked {
        words: &["stack", "AtoB", "AtoB", "none"],
        files: &[A_TO_B, A],
        lines: "",
        status: 3,
        printed: "refused\tno-definition\tnone\n",
        held: &[("views/AtoB", &[])],
    },
    // Two values are exchanged at three levels.
    Stacked {
        words: &["stack", "AtoB", "Back", "Split"],
        files: &[A_TO_B, BACK, SPLIT, A],
        lines: "begin\ninsert\tuniv-A\tsalInfo\tProf\tcs\t99\ndelete\tuniv-A\tsalInfo\tProf\tcs\t72000\ncommit\n",
        status: 0,
        printed: "synced\t4\nbegun\nheld\nheld\nlevel\t1\ncell\tsalInfo\tcs\t99\tProf\nlevel\t2\nrow-\tsalInfo\tProf\tcs\t72000\nrow+\tsalInfo\tProf\tcs\t99\nlevel\t3\nrow-\tcs\tProf\t72000\nrow+\tcs\tProf\t99\ndone\t5\nsynced\t3\n",
        held: &[
            (
                "views/AtoB",
                &[(
                    "salInfo.csv",
                    "category,cs,math\nAssoc,60000,\nProf,99,65000\n",
                )],
            ),
            (
                "views/Back",
                &[(
                    "salInfo.csv",
                    "category,dept,salFloor\nAssoc,cs,60000\nAssoc,math,\nProf,cs,99\nProf,math,65000\n",
                )],
            ),
            (
                "views/Split",
                &[
                    ("cs.csv", "category,salFloor\nAssoc,60000\nProf,99\n"),
                    ("math.csv", "category,salFloor\nProf,65000\n"),
                ],
            ),
        ],
    },
    // A group that the second view refuses leaves nothing, and has ended.
    Stacked {
        words: &["stack", "low", "high"],
        files: &[LOW, HIGH, ONE],
        lines: "begin\ninsert\td\tr\t2\tz\ninsert\td\tr\t1\ty\ncommit\ncommit\n",
        status: 1,
        printed: "synced\t2\nbegun\nheld\nheld\nlevel\t2\nrefused\tconflict\tu\t1\tx\ty\t1\nrefused\tno-group\tcommit\nsynced\t0\n",
        held: &[
            ("sources/d", &[("r.csv", "a,b\n1,x\n")]),
            ("views/L", &[("t.csv", "a,b\n1,x\n")]),
            ("views/M", &[("u.csv", "a,1\n1,x\n")]),
        ],
    },
    // Where the second view is refused at the opening, both folders stay as they were.
    Stacked {
        words: &["stack", "low", "high"],
        files: &[
            LOW,
            HIGH,
            TWO,
            ("views/L", "old.csv", "o\n"),
            ("views/M", "old.csv", "o\n"),
        ],
        lines: "insert\td\tr\t2\tz\n",
        status: 5,
        printed: "level\t2\nrefused\tconflict\tu\t1\tx\ty\t1\n",
        held: &[
            ("views/L", &[("old.csv", "o\n")]),
            ("views/M", &[("old.csv", "o\n")]),
        ],
    },
    // A refusal by the first level has no number, and a sync inside is one of all levels.
    Stacked {
        words: &["stack", "AtoB", "Back"],
        files: &[A_TO_B, BACK, A, ("views/Back", "old.csv", "o\n")],
        lines: "insert\tuniv-A\tsalInfo\tProf\tcs\t99\nlevel\t1\ninsert\tuniv-A\tsalInfo\tProf\tphysics\t70000\nsync\ndelete\tuniv-A\tsalInfo\tProf\tphysics\t70000\n",
        status: 1,
        printed: "synced\t3\nrefused\tconflict\tsalInfo\tcs\t72000\t99\tProf\nrefused\tunknown-verb\tlevel\nlevel\t1\ncolumn+\tsalInfo\tphysics\ncell\tsalInfo\tphysics\t70000\tProf\nlevel\t2\nrow+\tsalInfo\tAssoc\tphysics\t\nrow+\tsalInfo\tProf\tphysics\t70000\ndone\t4\nsynced\t2\nlevel\t1\ncolumn-\tsalInfo\tphysics\nlevel\t2\nrow-\tsalInfo\tAssoc\tphysics\t\nrow-\tsalInfo\tProf\tphysics\t70000\ndone\t3\nsynced\t2\n",
        held: &[
            ("views/AtoB", &[("salInfo.csv", COLUMNS)]),
            ("views/Back", &[("salInfo.csv", VALUES)]),
        ],
    },
];

// What a run left that is not wanted.
fn unwanted<F: Folders>(
    alloc: Global,
    store: &mut F,
    status: Status,
    printed: &[u8],
    want: &Stacked,
) -> Result<&'static str, StoreFault> {
    if status.number() != want.status {
        return Ok("the status");
    }
    if printed != want.printed.as_bytes() {
        return Ok("the output");
    }
    if all_hold(alloc, store, want.held)? {
        Ok("nothing")
    } else {
        Ok("the files")
    }
}

fn difference(alloc: Global, run: &Stacked) -> Result<&'static str, StoreFault> {
    let words = texts(alloc, run.words)?;
    let mut store = folders(alloc, run.files)?;
    let mut input = SureSource::of(texts(alloc, &[run.lines])?);
    let mut output = SureSink::of(alloc, 5);
    let status = run_over(alloc, &words, &mut store, &mut input, &mut output);
    unwanted(alloc, &mut store, status, output.bytes(), run)
}

// The first run that leaves something else than is wanted, and what.
fn first_difference(
    alloc: Global,
    runs: &[Stacked],
) -> Result<Option<(usize, &'static str)>, StoreFault> {
    for (place, run) in runs.iter().enumerate() {
        let found = difference(alloc, run)?;
        if found != "nothing" {
            return Ok(Some((place, found)));
        }
    }
    Ok(None)
}

#[test]
fn stacks_are_kept(rt: HostRuntime) -> Result<(), StoreFault> {
    assert_eq!(rt; first_difference(rt.alloc(), RUNS)?, None);
    Ok(())
}
