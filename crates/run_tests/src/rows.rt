//! The worked rows.
use crate::offices::{A, A_TO_B, A_TO_C, B_TO_A, C_TO_A};
use crate::place::File;
use crate::row::{Row, Want, difference};
use outside::StoreFault;

const PAY: File = (
    "defs",
    "P.ssql",
    "create view P::names(category, pay) as select A.category, A.salFloor from univ-A::salInfo A",
);

const PAYS: &str = "category,pay\nAssoc,60000\nProf,65000\nProf,72000\n";

const COLUMNS: &str = "category,cs,math\nAssoc,60000,\nProf,72000,65000\n";

const CS: &str = "category,salFloor\nAssoc,60000\nProf,72000\n";

const MATH: &str = "category,salFloor\nProf,65000\n";

// What runs leave that show these.
const PAYS_SHOWN: Want = Want {
    status: 0,
    printed: "synced\t1\n",
    folder: "views/P",
    held: &[("names.csv", PAYS)],
};

const COLUMNS_SHOWN: Want = Want {
    status: 0,
    printed: "synced\t1\n",
    folder: "views/AtoB",
    held: &[("salInfo.csv", COLUMNS)],
};

const NO_ROWS_SHOWN: Want = Want {
    status: 0,
    printed: "synced\t1\n",
    folder: "views/AtoB",
    held: &[("salInfo.csv", "category\n")],
};

// Views that are shown.
const SHOWN: [Row; 10] = [
    Row {
        words: &["show", "P"],
        files: &[PAY, A],
        want: PAYS_SHOWN,
    },
    Row {
        words: &["show", "AtoB"],
        files: &[A_TO_B, A],
        want: COLUMNS_SHOWN,
    },
    Row {
        words: &["show", "BtoA"],
        files: &[B_TO_A, ("sources/univ-B", "salInfo.csv", COLUMNS)],
        want: Want {
            status: 0,
            printed: "synced\t1\n",
            folder: "views/BtoA",
            held: &[(
                "salInfo.csv",
                "category,dept,salFloor\nAssoc,cs,60000\nAssoc,math,\nProf,cs,72000\nProf,math,65000\n",
            )],
        },
    },
    Row {
        words: &["show", "AtoC"],
        files: &[A_TO_C, A],
        want: Want {
            status: 0,
            printed: "synced\t2\n",
            folder: "views/AtoC",
            held: &[("cs.csv", CS), ("math.csv", MATH)],
        },
    },
    Row {
        words: &["show", "CtoA"],
        files: &[
            C_TO_A,
            ("sources/univ-C", "cs.csv", CS),
            ("sources/univ-C", "math.csv", MATH),
        ],
        want: Want {
            status: 0,
            printed: "synced\t1\n",
            folder: "views/CtoA",
            held: &[(
                "salInfo.csv",
                "category,dept,salFloor\nAssoc,cs,60000\nProf,cs,72000\nProf,math,65000\n",
            )],
        },
    },
    Row {
        words: &["show", "AtoB"],
        files: &[
            (
                "defs",
                "AtoB.ssql",
                "create view AtoB::salInfo(category, D) as select A.category, A.salFloor from univ-A::salInfo A, A.dept D where A.salFloor > 9000",
            ),
            A,
        ],
        want: COLUMNS_SHOWN,
    },
    Row {
        words: &["show", "AtoB"],
        files: &[
            (
                "defs",
                "AtoB.ssql",
                "create view AtoB::salInfo(category, D) as select A.category, A.salFloor from univ-A::salInfo A, A.dept D where A.salFloor > 'x'",
            ),
            A,
        ],
        want: NO_ROWS_SHOWN,
    },
    Row {
        words: &["show", "One"],
        files: &[
            (
                "defs",
                "One.ssql",
                "create view One::t(x) as select T.x from d::r T",
            ),
            ("sources/d", "r.csv", "x\n\"\"\n\"a\"\"b\"\n"),
        ],
        want: Want {
            status: 0,
            printed: "synced\t1\n",
            folder: "views/One",
            held: &[("t.csv", "x\n\"\"\n\"a\"\"b\"\n")],
        },
    },
    // A term that no row has, in the other branch of an OR.
    Row {
        words: &["show", "V"],
        files: &[
            (
                "defs",
                "V.ssql",
                "create view V::t(a) as select T.a from d::r T where T.a = 1 or T.zzz = 2",
            ),
            ("sources/d", "r.csv", "a\n1\n"),
        ],
        want: Want {
            status: 0,
            printed: "synced\t1\n",
            folder: "views/V",
            held: &[("t.csv", "a\n")],
        },
    },
    // A key whose one value is empty.
    Row {
        words: &["show", "AtoB"],
        files: &[
            A_TO_B,
            (
                "sources/univ-A",
                "salInfo.csv",
                "category,dept,salFloor\nProf,cs,\n",
            ),
        ],
        want: Want {
            status: 0,
            printed: "synced\t1\n",
            folder: "views/AtoB",
            held: &[("salInfo.csv", "category,cs\nProf,\n")],
        },
    },
];

// Sources of which there is little, and sources in another dress.
const SOURCES: &[Row] = &[
    Row {
        words: &["show", "AtoB"],
        files: &[A_TO_B],
        want: NO_ROWS_SHOWN,
    },
    Row {
        words: &["show", "AtoC"],
        files: &[A_TO_C],
        want: Want {
            status: 0,
            printed: "synced\t0\n",
            folder: "views/AtoC",
            held: &[],
        },
    },
    Row {
        words: &["show", "P"],
        files: &[
            PAY,
            A,
            ("sources/.git", "bad.csv", "a\n1,2\n"),
            ("sources/univ-A", "notes.txt", "x"),
        ],
        want: PAYS_SHOWN,
    },
    Row {
        words: &["show", "P"],
        files: &[
            PAY,
            (
                "sources/univ-A",
                "salInfo.csv",
                "category,dept,salFloor\r\nProf,cs,72000\r\nProf,math,65000\r\nAssoc,cs,60000\r\n",
            ),
        ],
        want: PAYS_SHOWN,
    },
    Row {
        words: &["show", "P"],
        files: &[
            PAY,
            (
                "sources/univ-A",
                "salInfo.csv",
                "\u{feff}category,dept,salFloor\nProf,cs,72000\nProf,math,65000\nAssoc,cs,60000\n",
            ),
        ],
        want: PAYS_SHOWN,
    },
];

// Sources that are refused. The view folder stays.
const REFUSED: &[Row] = &[
    Row {
        words: &["show", "AtoB"],
        files: &[
            A_TO_B,
            (
                "sources/univ-A",
                "salInfo.csv",
                "category,dept,salFloor\nProf,cs,72000\nProf,math\nAssoc,cs,60000\n",
            ),
            ("views/AtoB", "old.csv", "x\n"),
        ],
        want: Want {
            status: 4,
            printed: "refused\tragged\tuniv-A\tsalInfo.csv\t3\t3\t2\n",
            folder: "views/AtoB",
            held: &[("old.csv", "x\n")],
        },
    },
    Row {
        words: &["show", "AtoB"],
        files: &[A_TO_B, ("sources/univ-A", "salInfo.csv", "")],
        want: Want {
            status: 4,
            printed: "refused\tno-header\tuniv-A\tsalInfo.csv\n",
            folder: "views/AtoB",
            held: &[],
        },
    },
    Row {
        words: &["show", "AtoB"],
        files: &[A_TO_B, ("sources/univ-A", "salInfo.csv", "a,b,a\n")],
        want: Want {
            status: 4,
            printed: "refused\tname-twice\tuniv-A\tsalInfo.csv\ta\n",
            folder: "views/AtoB",
            held: &[],
        },
    },
    Row {
        words: &["show", "P"],
        files: &[PAY, A, ("sources/zoo", "bad.csv", "a\n1,2\n")],
        want: Want {
            status: 4,
            printed: "refused\tragged\tzoo\tbad.csv\t2\t1\t2\n",
            folder: "views/P",
            held: &[],
        },
    },
];

#[test]
fn views_are_shown(rt: HostRuntime) -> Result<(), StoreFault> {
    for (place, row) in SHOWN.iter().enumerate() {
        assert_eq!(rt; difference(rt.alloc(), row)?, "nothing", "at {place}");
    }
    Ok(())
}

#[test]
fn sources_are_read(rt: HostRuntime) -> Result<(), StoreFault> {
    for (place, row) in SOURCES.iter().enumerate() {
        assert_eq!(rt; difference(rt.alloc(), row)?, "nothing", "at {place}");
    }
    Ok(())
}

#[test]
fn sources_are_refused(rt: HostRuntime) -> Result<(), StoreFault> {
    for (place, row) in REFUSED.iter().enumerate() {
        assert_eq!(rt; difference(rt.alloc(), row)?, "nothing", "at {place}");
    }
    Ok(())
}

// Run by hand with each allocation failing in turn, as CONTRIBUTING.md says. Only then may memory run out.
#[test]
fn a_view_is_shown_or_memory_ran_out(rt: HostRuntime) {
    match difference(rt.alloc(), &SHOWN[0]) {
        Ok(differs) => assert!(rt; differs == "nothing" || differs == "no memory", "{differs}"),
        Err(fault) => assert_eq!(rt; fault, StoreFault::NoMemory),
    }
}
