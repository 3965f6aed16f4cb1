//! Definitions that are checked, folders that are verified, and more views.
use crate::offices::{A, A_TO_B, ALL, B};
use crate::row::{Row, Want, difference};
use outside::StoreFault;
use std::alloc::Global;

// Definitions that are refused: by their text, and by the kinds of their names.
const REFUSED: &[Row] = &[
    Row {
        words: &["check", "V"],
        files: &[(
            "defs",
            "V.ssql",
            "create view V::t(a) as select T.a from d::r",
        )],
        want: Want {
            status: 3,
            printed: "refused\tunexpected\t43\n",
            folder: "views/V",
            held: &[],
        },
    },
    Row {
        words: &["check", "V"],
        files: &[(
            "defs",
            "V.ssql",
            "create view V::t(a) as select T.a # from d::r T",
        )],
        want: Want {
            status: 3,
            printed: "refused\tbad-byte\t34\n",
            folder: "views/V",
            held: &[],
        },
    },
    Row {
        words: &["check", "V"],
        files: &[("defs", "V.ssql", "create view V::t(a) as select 'x")],
        want: Want {
            status: 3,
            printed: "refused\topen-quote\t30\n",
            folder: "views/V",
            held: &[],
        },
    },
    Row {
        words: &["check", "V"],
        files: &[(
            "defs",
            "V.ssql",
            "create view V::t(a) as select B.x from d::r T",
        )],
        want: Want {
            status: 3,
            printed: "refused\tnot-declared\tB\n",
            folder: "views/V",
            held: &[],
        },
    },
    Row {
        words: &["check", "V"],
        files: &[(
            "defs",
            "V.ssql",
            "create view V::T(a) as select T.a from d::r T",
        )],
        want: Want {
            status: 3,
            printed: "refused\twrong-kind\tT\n",
            folder: "views/V",
            held: &[],
        },
    },
    Row {
        words: &["check", "V"],
        files: &[(
            "defs",
            "V.ssql",
            "create view V::t(a) as select T.a from d::r T, d::s T",
        )],
        want: Want {
            status: 3,
            printed: "refused\tdeclared-twice\tT\n",
            folder: "views/V",
            held: &[],
        },
    },
];

// Definitions that are refused for their header or for a fold.
const REFUSED_HEADERS: &[Row] = &[
    Row {
        words: &["check", "V"],
        files: &[(
            "defs",
            "V.ssql",
            "create view V::t(a, D, E) as select T.a, T.b, T.c from d::r T, T.b D, T.c E",
        )],
        want: Want {
            status: 3,
            printed: "refused\ttwo-variable-columns\tE\n",
            folder: "views/V",
            held: &[],
        },
    },
    Row {
        words: &["check", "V"],
        files: &[(
            "defs",
            "V.ssql",
            "create view V::t(a, b) as select T.D, T.E from d::r -> D, d::r -> E, d::r T",
        )],
        want: Want {
            status: 3,
            printed: "refused\ttwo-folds\tT\n",
            folder: "views/V",
            held: &[],
        },
    },
    Row {
        words: &["check", "V"],
        files: &[(
            "defs",
            "V.ssql",
            "create view V::t(a, a) as select T.a, T.b from d::r T",
        )],
        want: Want {
            status: 3,
            printed: "refused\tcolumn-twice\ta\n",
            folder: "views/V",
            held: &[],
        },
    },
    Row {
        words: &["check", "V"],
        files: &[(
            "defs",
            "V.ssql",
            "create view V::t(a) as select T.a, T.b from d::r T",
        )],
        want: Want {
            status: 3,
            printed: "refused\tcount-differs\t1\t2\n",
            folder: "views/V",
            held: &[],
        },
    },
    Row {
        words: &["check", "V"],
        files: &[(
            "defs",
            "V.ssql",
            "create view V::t(D) as select T.a from d::r T, T.b D",
        )],
        want: Want {
            status: 3,
            printed: "refused\tno-constant-column\n",
            folder: "views/V",
            held: &[],
        },
    },
    Row {
        words: &["check", "V"],
        files: &[(
            "defs",
            "V.ssql",
            "create view V::\".x\"(a) as select T.a from d::r T",
        )],
        want: Want {
            status: 3,
            printed: "refused\tbad-label\t.x\n",
            folder: "views/V",
            held: &[],
        },
    },
];

// Definitions that are printed, and one that is too deep.
const CHECKED: &[Row] = &[
    Row {
        words: &["check", "AtoB"],
        files: &[A_TO_B],
        want: Want {
            status: 0,
            printed: "CREATE VIEW AtoB::salInfo(category, D) AS SELECT A.category, A.salFloor FROM univ-A::salInfo A, A.dept D\n",
            folder: "views/AtoB",
            held: &[],
        },
    },
    Row {
        words: &["check", "V"],
        files: &[(
            "defs",
            "V.ssql",
            "create view V::t(a) as select T.a from d::r T where T.a=1 and T.a<>-2 and T.a<3 and T.a<=4 and T.a>5 and T.a>=007",
        )],
        want: Want {
            status: 0,
            printed: "CREATE VIEW V::t(a) AS SELECT T.a FROM d::r T WHERE T.a = '1' AND T.a <> '-2' AND T.a < '3' AND T.a <= '4' AND T.a > '5' AND T.a >= '007'\n",
            folder: "views/V",
            held: &[],
        },
    },
    Row {
        words: &["check", "V"],
        files: &[(
            "defs",
            "V.ssql",
            "create view V::t(a) as select T.a from d::r T where not (T.a = 5 or T.b < 'k') and T.c <> 'q';",
        )],
        want: Want {
            status: 0,
            printed: "CREATE VIEW V::t(a) AS SELECT T.a FROM d::r T WHERE NOT (T.a = '5' OR T.b < 'k') AND T.c <> 'q'\n",
            folder: "views/V",
            held: &[],
        },
    },
    Row {
        words: &["check", "V"],
        files: &[(
            "defs",
            "V.ssql",
            "create view V::t(a) as select T.a from d::r T where not (not T.a = 5);",
        )],
        want: Want {
            status: 0,
            printed: "CREATE VIEW V::t(a) AS SELECT T.a FROM d::r T WHERE NOT NOT T.a = '5'\n",
            folder: "views/V",
            held: &[],
        },
    },
    Row {
        words: &["check", "V"],
        files: &[(
            "defs",
            "V.ssql",
            "create view V::t(a) as select T.a from d::r T where (((((((((((((((((((((((((((((((((((((((((((((((((((((((((((((((((",
        )],
        want: Want {
            status: 3,
            printed: "refused\ttoo-deep\t116\n",
            folder: "views/V",
            held: &[],
        },
    },
    Row {
        words: &["check", "V"],
        files: &[(
            "defs",
            "V.ssql",
            "create view V::t(a) as select T.a from d::r T where T.a = 'x\ty\nz\\w''' ",
        )],
        want: Want {
            status: 0,
            printed: "CREATE VIEW V::t(a) AS SELECT T.a FROM d::r T WHERE T.a = 'x\ty\nz\\w'''\n",
            folder: "views/V",
            held: &[],
        },
    },
];

// Folders that hold what they should, and some that do not.
const VERIFIED: &[Row] = &[
    Row {
        words: &["verify", "AtoB"],
        files: &[
            A_TO_B,
            A,
            (
                "views/AtoB",
                "salInfo.csv",
                "category,cs,math\nAssoc,60000,\nProf,72000,65000\n",
            ),
        ],
        want: Want {
            status: 0,
            printed: "same\t1\n",
            folder: "views/AtoB",
            held: &[(
                "salInfo.csv",
                "category,cs,math\nAssoc,60000,\nProf,72000,65000\n",
            )],
        },
    },
    Row {
        words: &["verify", "AtoB"],
        files: &[A_TO_B, A, ("views/AtoB", "salInfo.csv", "category\n")],
        want: Want {
            status: 5,
            printed: "differs\tsalInfo.csv\t9\t47\n",
            folder: "views/AtoB",
            held: &[("salInfo.csv", "category\n")],
        },
    },
    Row {
        words: &["verify", "AtoB"],
        files: &[A_TO_B, A],
        want: Want {
            status: 5,
            printed: "differs\tsalInfo.csv\t-\t47\n",
            folder: "views/AtoB",
            held: &[],
        },
    },
    Row {
        words: &["verify", "AtoB"],
        files: &[
            A_TO_B,
            A,
            ("views/AtoB", "other.csv", "xy\n"),
            (
                "views/AtoB",
                "salInfo.csv",
                "category,cs,math\nAssoc,60000,\nProf,72000,65000\n",
            ),
        ],
        want: Want {
            status: 5,
            printed: "differs\tother.csv\t3\t-\n",
            folder: "views/AtoB",
            held: &[
                ("other.csv", "xy\n"),
                (
                    "salInfo.csv",
                    "category,cs,math\nAssoc,60000,\nProf,72000,65000\n",
                ),
            ],
        },
    },
    Row {
        words: &["verify", "AtoB"],
        files: &[
            A_TO_B,
            (
                "sources/univ-A",
                "salInfo.csv",
                "category,dept,salFloor\nProf,cs,72000\nProf,math,65000\nAssoc,cs,60000\nProf,cs,99\n",
            ),
            (
                "views/AtoB",
                "salInfo.csv",
                "category,cs,math\nAssoc,60000,\nProf,72000,65000\n",
            ),
        ],
        want: Want {
            status: 5,
            printed: "refused\tconflict\tsalInfo\tcs\t72000\t99\tProf\n",
            folder: "views/AtoB",
            held: &[(
                "salInfo.csv",
                "category,cs,math\nAssoc,60000,\nProf,72000,65000\n",
            )],
        },
    },
];

// Words that are none of the forms, and a definition that is missing.
const WORDS: [Row; 3] = [
    Row {
        words: &[],
        files: &[A],
        want: Want {
            status: 2,
            printed: "usage: schemasql check|show|maintain|verify|apply NAME, or schemasql load N SEED, or schemasql stack NAME NAME .., or schemasql feed NAME, or schemasql journal NAME\n",
            folder: "views/AtoB",
            held: &[],
        },
    },
    Row {
        words: &["show"],
        files: &[A],
        want: Want {
            status: 2,
            printed: "usage: schemasql check|show|maintain|verify|apply NAME, or schemasql load N SEED, or schemasql stack NAME NAME .., or schemasql feed NAME, or schemasql journal NAME\n",
            folder: "views/AtoB",
            held: &[],
        },
    },
    Row {
        words: &["show", "nosuch"],
        files: &[A],
        want: Want {
            status: 3,
            printed: "refused\tno-definition\tnosuch\n",
            folder: "views/nosuch",
            held: &[],
        },
    },
];

// Runs of changes that a number and a seed tell, and numbers that are not lawful.
const LOADED: &[Row] = &[
    Row {
        words: &["load", "1000", "7"],
        files: &[],
        want: Want {
            status: 0,
            printed: "load\t1000\t7\taccepted\t900\trefused\t100\tlines\t1009\trows\t100\tcolumns\t8\tbytes\t3254\n",
            folder: "views/t",
            held: &[],
        },
    },
    Row {
        words: &["load", "20", "0"],
        files: &[],
        want: Want {
            status: 0,
            printed: "load\t20\t0\taccepted\t18\trefused\t2\tlines\t29\trows\t2\tcolumns\t8\tbytes\t69\n",
            folder: "views/t",
            held: &[],
        },
    },
    Row {
        words: &["load", "0", "1"],
        files: &[],
        want: Want {
            status: 2,
            printed: "usage: schemasql check|show|maintain|verify|apply NAME, or schemasql load N SEED, or schemasql stack NAME NAME .., or schemasql feed NAME, or schemasql journal NAME\n",
            folder: "views/t",
            held: &[],
        },
    },
    Row {
        words: &["load", "01", "1"],
        files: &[],
        want: Want {
            status: 2,
            printed: "usage: schemasql check|show|maintain|verify|apply NAME, or schemasql load N SEED, or schemasql stack NAME NAME .., or schemasql feed NAME, or schemasql journal NAME\n",
            folder: "views/t",
            held: &[],
        },
    },
    Row {
        words: &["load", "200001", "1"],
        files: &[],
        want: Want {
            status: 2,
            printed: "usage: schemasql check|show|maintain|verify|apply NAME, or schemasql load N SEED, or schemasql stack NAME NAME .., or schemasql feed NAME, or schemasql journal NAME\n",
            folder: "views/t",
            held: &[],
        },
    },
    Row {
        words: &["load", "1", "1000000"],
        files: &[],
        want: Want {
            status: 2,
            printed: "usage: schemasql check|show|maintain|verify|apply NAME, or schemasql load N SEED, or schemasql stack NAME NAME .., or schemasql feed NAME, or schemasql journal NAME\n",
            folder: "views/t",
            held: &[],
        },
    },
    Row {
        words: &["load", "1"],
        files: &[],
        want: Want {
            status: 2,
            printed: "usage: schemasql check|show|maintain|verify|apply NAME, or schemasql load N SEED, or schemasql stack NAME NAME .., or schemasql feed NAME, or schemasql journal NAME\n",
            folder: "views/t",
            held: &[],
        },
    },
];

// More views that are shown, and some that are refused.
const SHOWN: &[Row] = &[
    Row {
        words: &["show", "BtoA"],
        files: &[
            (
                "defs",
                "BtoA.ssql",
                "create view BtoA::salInfo(category, dept, salFloor) as select T.category, D, T.\"D\" from univ-B::salInfo -> D, univ-B::salInfo T where D <> 'category'",
            ),
            B,
        ],
        want: Want {
            status: 0,
            printed: "synced\t1\n",
            folder: "views/BtoA",
            held: &[("salInfo.csv", "category,dept,salFloor\n")],
        },
    },
    Row {
        words: &["show", "AtoB"],
        files: &[
            A_TO_B,
            (
                "sources/univ-A",
                "salInfo.csv",
                "category,dept,salFloor\nProf,cs,\nProf,cs,5\n",
            ),
        ],
        want: Want {
            status: 0,
            printed: "synced\t1\n",
            folder: "views/AtoB",
            held: &[("salInfo.csv", "category,cs\nProf,5\n")],
        },
    },
    Row {
        words: &["show", "P"],
        files: &[
            (
                "defs",
                "P.ssql",
                "create view P::t(D, category) as select A.salFloor, A.category from univ-A::salInfo A, A.dept D",
            ),
            A,
        ],
        want: Want {
            status: 0,
            printed: "synced\t1\n",
            folder: "views/P",
            held: &[(
                "t.csv",
                "cs,math,category\n60000,,Assoc\n72000,65000,Prof\n",
            )],
        },
    },
    Row {
        words: &["show", "All"],
        files: &[ALL, A, B],
        want: Want {
            status: 0,
            printed: "synced\t1\n",
            folder: "views/All",
            held: &[(
                "t.csv",
                "db,category\nuniv-A,Assoc\nuniv-A,Prof\nuniv-B,Assoc\nuniv-B,Prof\n",
            )],
        },
    },
    Row {
        words: &["show", "AtoB"],
        files: &[
            A_TO_B,
            (
                "sources/univ-A",
                "salInfo.csv",
                "category,dept,salFloor\nProf,cs,72000\nProf,math,65000\nAssoc,cs,60000\nProf,cs,99\n",
            ),
        ],
        want: Want {
            status: 5,
            printed: "refused\tconflict\tsalInfo\tcs\t72000\t99\tProf\n",
            folder: "views/AtoB",
            held: &[],
        },
    },
    Row {
        words: &["show", "V"],
        files: &[
            (
                "defs",
                "V.ssql",
                "create view V::t(a) as select T.a, \"T\".\"b\" from d::r T",
            ),
            A,
        ],
        want: Want {
            status: 3,
            printed: "refused\tunexpected\t35\n",
            folder: "views/V",
            held: &[],
        },
    },
    Row {
        words: &["show", "V"],
        files: &[
            (
                "defs",
                "V.ssql",
                "create view V::t(a) as select A.x from d::r A, d::r B, d::r C, d::r D, d::r E",
            ),
            A,
        ],
        want: Want {
            status: 3,
            printed: "refused\ttoo-many\tE\n",
            folder: "views/V",
            held: &[],
        },
    },
];

// The first row that leaves what it does not want, with its place.
fn first_difference(
    alloc: Global,
    rows: &[Row],
) -> Result<Option<(usize, &'static str)>, StoreFault> {
    for (place, row) in rows.iter().enumerate() {
        let differs = difference(alloc, row)?;
        if differs != "nothing" {
            return Ok(Some((place, differs)));
        }
    }
    Ok(None)
}

#[test]
fn definitions_are_refused(rt: HostRuntime) -> Result<(), StoreFault> {
    assert_eq!(rt; first_difference(rt.alloc(), REFUSED)?, None);
    assert_eq!(rt; first_difference(rt.alloc(), REFUSED_HEADERS)?, None);
    Ok(())
}

#[test]
fn definitions_are_checked(rt: HostRuntime) -> Result<(), StoreFault> {
    assert_eq!(rt; first_difference(rt.alloc(), CHECKED)?, None);
    Ok(())
}

#[test]
fn folders_are_verified(rt: HostRuntime) -> Result<(), StoreFault> {
    assert_eq!(rt; first_difference(rt.alloc(), VERIFIED)?, None);
    Ok(())
}

#[test]
fn words_are_refused(rt: HostRuntime) -> Result<(), StoreFault> {
    assert_eq!(rt; first_difference(rt.alloc(), &WORDS)?, None);
    Ok(())
}

#[test]
fn runs_of_changes_are_summed_up(rt: HostRuntime) -> Result<(), StoreFault> {
    assert_eq!(rt; first_difference(rt.alloc(), LOADED)?, None);
    Ok(())
}

#[test]
fn more_views_are_shown(rt: HostRuntime) -> Result<(), StoreFault> {
    assert_eq!(rt; first_difference(rt.alloc(), SHOWN)?, None);
    Ok(())
}
