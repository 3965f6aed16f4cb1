//! Lines that `maintain` answers.
use crate::offices::{A, A_TO_B, A_TO_C, SELF_JOIN};
use crate::place::texts;
use crate::row::{Row, Want, difference_over};
use outside::{StoreFault, SureSource};
use std::alloc::Global;

// Changes that are made, and some that the view refuses.
const CHANGED: &[(Row, &str)] = &[
    (
        Row {
            words: &["maintain", "AtoB"],
            files: &[A_TO_B, A],
            want: Want {
                status: 0,
                printed: "synced\t1\ncolumn+\tsalInfo\tphysics\ncell\tsalInfo\tphysics\t70000\tProf\ndone\t2\nsynced\t1\n",
                folder: "views/AtoB",
                held: &[(
                    "salInfo.csv",
                    "category,cs,math,physics\nAssoc,60000,,\nProf,72000,65000,70000\n",
                )],
            },
        },
        "insert\tuniv-A\tsalInfo\tProf\tphysics\t70000\n",
    ),
    (
        Row {
            words: &["maintain", "AtoB"],
            files: &[A_TO_B, A],
            want: Want {
                status: 1,
                printed: "synced\t1\nrefused\tconflict\tsalInfo\tcs\t72000\t99\tProf\ncell\tsalInfo\tcs\t\tProf\ndone\t1\ncell\tsalInfo\tcs\t99\tProf\ndone\t1\nsynced\t1\n",
                folder: "views/AtoB",
                held: &[(
                    "salInfo.csv",
                    "category,cs,math\nAssoc,60000,\nProf,99,65000\n",
                )],
            },
        },
        "insert\tuniv-A\tsalInfo\tProf\tcs\t99\ndelete\tuniv-A\tsalInfo\tProf\tcs\t72000\ninsert\tuniv-A\tsalInfo\tProf\tcs\t99\n",
    ),
    (
        Row {
            words: &["maintain", "AtoB"],
            files: &[A_TO_B, A],
            want: Want {
                status: 0,
                printed: "synced\t1\ncolumn-\tsalInfo\tmath\ndone\t1\nsynced\t1\n",
                folder: "views/AtoB",
                held: &[("salInfo.csv", "category,cs\nAssoc,60000\nProf,72000\n")],
            },
        },
        "delete\tuniv-A\tsalInfo\tProf\tmath\t65000\n",
    ),
    (
        Row {
            words: &["maintain", "AtoC"],
            files: &[A_TO_C, A],
            want: Want {
                status: 1,
                printed: "synced\t2\nrefused\tillegal-label\ta/b\nsynced\t0\n",
                folder: "views/AtoC",
                held: &[
                    ("cs.csv", "category,salFloor\nAssoc,60000\nProf,72000\n"),
                    ("math.csv", "category,salFloor\nProf,65000\n"),
                ],
            },
        },
        "insert\tuniv-A\tsalInfo\tLect\ta/b\t1\n",
    ),
    (
        Row {
            words: &["maintain", "AtoB"],
            files: &[A_TO_B, A],
            want: Want {
                status: 1,
                printed: "synced\t1\nrefused\tillegal-label\tsalInfo\tcategory\nsynced\t0\n",
                folder: "views/AtoB",
                held: &[(
                    "salInfo.csv",
                    "category,cs,math\nAssoc,60000,\nProf,72000,65000\n",
                )],
            },
        },
        "insert\tuniv-A\tsalInfo\tProf\tcategory\t1\n",
    ),
    (
        Row {
            words: &["maintain", "AtoB"],
            files: &[
                A_TO_B,
                (
                    "sources/univ-A",
                    "salInfo.csv",
                    "category,dept,salFloor\nProf,cs,72000\nProf,cs,72000\nProf,math,65000\nAssoc,cs,60000\n",
                ),
            ],
            want: Want {
                status: 0,
                printed: "synced\t1\ndone\t0\nsynced\t0\n",
                folder: "views/AtoB",
                held: &[(
                    "salInfo.csv",
                    "category,cs,math\nAssoc,60000,\nProf,72000,65000\n",
                )],
            },
        },
        "delete\tuniv-A\tsalInfo\tProf\tcs\t72000\n",
    ),
];

// Lines as they are read, and changes that the sources refuse.
const READ: &[(Row, &str)] = &[
    (
        Row {
            words: &["maintain", "AtoB"],
            files: &[A_TO_B, A],
            want: Want {
                status: 0,
                printed: "synced\t1\nrow+\tsalInfo\tLect\ncell\tsalInfo\tcs\ta\\tb\\nc\\\\d\tLect\ndone\t2\nsynced\t1\n",
                folder: "views/AtoB",
                held: &[(
                    "salInfo.csv",
                    "category,cs,math\nAssoc,60000,\nLect,\"a\tb\nc\\d\",\nProf,72000,65000\n",
                )],
            },
        },
        "insert\tuniv-A\tsalInfo\tLect\tcs\ta\\tb\\nc\\\\d\n",
    ),
    (
        Row {
            words: &["maintain", "AtoB"],
            files: &[A_TO_B, A],
            want: Want {
                status: 1,
                printed: "synced\t1\nrefused\tbad-escape\t22\nsynced\t0\n",
                folder: "views/AtoB",
                held: &[(
                    "salInfo.csv",
                    "category,cs,math\nAssoc,60000,\nProf,72000,65000\n",
                )],
            },
        },
        "insert\tuniv-A\tsalInfo\t\\q\tcs\t1\n",
    ),
    (
        Row {
            words: &["maintain", "AtoB"],
            files: &[A_TO_B, A],
            want: Want {
                status: 0,
                printed: "synced\t1\nsynced\t0\n",
                folder: "views/AtoB",
                held: &[(
                    "salInfo.csv",
                    "category,cs,math\nAssoc,60000,\nProf,72000,65000\n",
                )],
            },
        },
        "",
    ),
    (
        Row {
            words: &["maintain", "J"],
            files: &[SELF_JOIN, ("sources/d", "r.csv", "a,b\n")],
            want: Want {
                status: 0,
                printed: "synced\t1\nrow+\tp\t1\t1\ndone\t1\ndone\t0\ndone\t0\nrow-\tp\t1\t1\ndone\t1\nsynced\t1\n",
                folder: "views/J",
                held: &[("p.csv", "x,y\n")],
            },
        },
        "insert\td\tr\t1\t1\ninsert\td\tr\t1\t1\ndelete\td\tr\t1\t1\ndelete\td\tr\t1\t1\n",
    ),
    (
        Row {
            words: &["maintain", "AtoB"],
            files: &[A_TO_B, A],
            want: Want {
                status: 1,
                printed: "synced\t1\nrefused\tarity-differs\tuniv-A\tsalInfo\t3\t2\nsynced\t0\n",
                folder: "views/AtoB",
                held: &[(
                    "salInfo.csv",
                    "category,cs,math\nAssoc,60000,\nProf,72000,65000\n",
                )],
            },
        },
        "insert\tuniv-A\tsalInfo\ta\tb\n",
    ),
    (
        Row {
            words: &["maintain", "AtoB"],
            files: &[A_TO_B, A],
            want: Want {
                status: 1,
                printed: "synced\t1\nrefused\tno-row\tuniv-A\tsalInfo\nsynced\t0\n",
                folder: "views/AtoB",
                held: &[(
                    "salInfo.csv",
                    "category,cs,math\nAssoc,60000,\nProf,72000,65000\n",
                )],
            },
        },
        "delete\tuniv-A\tsalInfo\ta\tb\tc\n",
    ),
    (
        Row {
            words: &["maintain", "AtoB"],
            files: &[A_TO_B, A],
            want: Want {
                status: 1,
                printed: "synced\t1\nrefused\tfield-count\tsync\t2\nsynced\t0\n",
                folder: "views/AtoB",
                held: &[(
                    "salInfo.csv",
                    "category,cs,math\nAssoc,60000,\nProf,72000,65000\n",
                )],
            },
        },
        "sync\tx\n",
    ),
];

/// The first row whose lines leave what it does not want, with its place.
pub fn first_difference(
    alloc: Global,
    rows: &[(Row, &str)],
) -> Result<Option<(usize, &'static str)>, StoreFault> {
    for (place, (row, lines)) in rows.iter().enumerate() {
        let mut input = SureSource::of(texts(alloc, &[lines])?);
        let differs = difference_over(alloc, row, &mut input)?;
        if differs != "nothing" {
            return Ok(Some((place, differs)));
        }
    }
    Ok(None)
}

#[test]
fn changes_are_answered(rt: HostRuntime) -> Result<(), StoreFault> {
    assert_eq!(rt; first_difference(rt.alloc(), CHANGED)?, None);
    Ok(())
}

#[test]
fn lines_are_read(rt: HostRuntime) -> Result<(), StoreFault> {
    assert_eq!(rt; first_difference(rt.alloc(), READ)?, None);
    Ok(())
}
