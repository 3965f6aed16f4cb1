//! Runs of `apply`: scripts that are applied, and those that are refused and change nothing.
use crate::offices::{A_NAMES, A_TO_B};
use crate::place::{File, texts};
use crate::row::{Row, Want, difference_over};
use outside::{StoreFault, SureSource};
use std::alloc::Global;

const COLUMNS: &str = "category,cs,math\nAssoc,60000,\nProf,72000,65000\n";

// What `maintain` prints for a new department.
const NEW_DEPARTMENT: &str =
    "synced\t1\ncolumn+\tsalInfo\tphysics\ncell\tsalInfo\tphysics\t70000\tProf\ndone\t2\nsynced\t1\n";

/// A run of `apply AtoB` over a view folder, the input, and what is wanted.
struct Applied {
    files: &'static [File],
    input: &'static str,
    status: u8,
    printed: &'static str,
    held: &'static [(&'static str, &'static str)],
}

// The folder of the first row.
const FOLDER: [File; 2] = [A_TO_B, ("views/AtoB", "salInfo.csv", COLUMNS)];

const SAME: [(&str, &str); 1] = [("salInfo.csv", COLUMNS)];

// Scripts that are applied.
const TAKEN: &[Applied] = &[
    Applied {
        files: &FOLDER,
        input: NEW_DEPARTMENT,
        status: 0,
        printed: "applied\t2\nsynced\t1\n",
        held: &[(
            "salInfo.csv",
            "category,cs,math,physics\nAssoc,60000,,\nProf,72000,65000,70000\n",
        )],
    },
    // A column before others, in a file of another spelling, beside files that are not named or are no table's.
    Applied {
        files: &[
            A_TO_B,
            (
                "views/AtoB",
                "salInfo.csv",
                "category,\"cs\",math\r\nAssoc,60000,\"\"\r\nProf,72000,65000",
            ),
            ("views/AtoB", "other.csv", "category\n\"x\"\n"),
            ("views/AtoB", ".x.csv", "no table"),
        ],
        input: "column+\tsalInfo\tbio\nrefused\tno-row\tuniv-A\tsalInfo\nrow-\tsalInfo\tAssoc\n",
        status: 0,
        printed: "applied\t2\nsynced\t1\n",
        held: &[
            (".x.csv", "no table"),
            ("other.csv", "category\n\"x\"\n"),
            ("salInfo.csv", "category,bio,cs,math\nProf,,72000,65000\n"),
        ],
    },
    // A table goes, one comes, and one comes and goes again.
    Applied {
        files: &FOLDER,
        input: "table-\tsalInfo\ntable+\tpay\nrow+\tpay\tLect\ntable+\tx\ntable-\tx\n",
        status: 0,
        printed: "applied\t5\nsynced\t2\n",
        held: &[("pay.csv", "category\nLect\n")],
    },
    Applied {
        files: &FOLDER,
        input: "",
        status: 0,
        printed: "applied\t0\nsynced\t0\n",
        held: &SAME,
    },
    Applied {
        files: &[A_TO_B],
        input: "begun\nheld\t1\naborted\n",
        status: 0,
        printed: "applied\t0\nsynced\t0\n",
        held: &[],
    },
];

// Lines that are refused: all before them changes nothing.
const REFUSED: &[Applied] = &[
    Applied {
        files: &[
            A_TO_B,
            (
                "views/AtoB",
                "salInfo.csv",
                "category,cs,math,physics\nAssoc,60000,,\nProf,72000,65000,70000\n",
            ),
        ],
        input: NEW_DEPARTMENT,
        status: 4,
        printed: "refused\ttarget-there\tsalInfo\tphysics\n",
        held: &[(
            "salInfo.csv",
            "category,cs,math,physics\nAssoc,60000,,\nProf,72000,65000,70000\n",
        )],
    },
    Applied {
        files: &FOLDER,
        input: "row-\tsalInfo\tAssoc\nrow+\tsalInfo\tLect\tx\n",
        status: 4,
        printed: "refused\tkey-length\t1\t2\n",
        held: &SAME,
    },
    Applied {
        files: &FOLDER,
        input: "table-\tnone\n",
        status: 4,
        printed: "refused\tno-target\tnone\n",
        held: &SAME,
    },
    Applied {
        files: &FOLDER,
        input: "cell\tsalInfo\tphysics\t70\n",
        status: 4,
        printed: "refused\tfield-count\tcell\t4\n",
        held: &SAME,
    },
    Applied {
        files: &FOLDER,
        input: "cell\tsalInfo\tphysics\t70\tProf\n",
        status: 4,
        printed: "refused\tno-target\tsalInfo\tphysics\n",
        held: &SAME,
    },
    Applied {
        files: &FOLDER,
        input: "column+\tsalInfo\tcategory\n",
        status: 4,
        printed: "refused\tillegal-label\tsalInfo\tcategory\n",
        held: &SAME,
    },
    Applied {
        files: &FOLDER,
        input: "table+\ta/b\n",
        status: 4,
        printed: "refused\tillegal-label\ta/b\n",
        held: &SAME,
    },
    Applied {
        files: &FOLDER,
        input: "sync\n",
        status: 4,
        printed: "refused\tunknown-verb\tsync\n",
        held: &SAME,
    },
    Applied {
        files: &FOLDER,
        input: "row-\tsalInfo\t\\q\n",
        status: 4,
        printed: "refused\tbad-escape\t13\n",
        held: &SAME,
    },
    Applied {
        files: &[
            A_TO_B,
            (
                "views/AtoB",
                "salInfo.csv",
                "category,cs,math\nProf,72000,65000\nAssoc,60000,\n",
            ),
        ],
        input: NEW_DEPARTMENT,
        status: 4,
        printed: "refused\tnot-this-view\tsalInfo.csv\n",
        held: &[(
            "salInfo.csv",
            "category,cs,math\nProf,72000,65000\nAssoc,60000,\n",
        )],
    },
    // Files are judged in the order of their names.
    Applied {
        files: &[
            A_TO_B,
            ("views/AtoB", "a.csv", ""),
            ("views/AtoB", "a-b.csv", "category,x\nProf\n"),
        ],
        input: "",
        status: 4,
        printed: "refused\tragged\tAtoB\ta-b.csv\t2\t2\t1\n",
        held: &[("a-b.csv", "category,x\nProf\n"), ("a.csv", "")],
    },
    Applied {
        files: &[A_TO_B, ("views/AtoB", "a.csv", "category,x,x\n")],
        input: "",
        status: 4,
        printed: "refused\tname-twice\tAtoB\ta.csv\tx\n",
        held: &[("a.csv", "category,x,x\n")],
    },
];

// What a run left that is not wanted.
fn unwanted(alloc: Global, applied: &Applied) -> Result<&'static str, StoreFault> {
    let mut input = SureSource::of(texts(alloc, &[applied.input])?);
    let row = Row {
        words: &["apply", "AtoB"],
        files: applied.files,
        want: Want {
            status: applied.status,
            printed: applied.printed,
            folder: "views/AtoB",
            held: applied.held,
        },
    };
    difference_over(alloc, &row, &mut input)
}

#[test]
fn scripts_are_applied(rt: HostRuntime) -> Result<(), StoreFault> {
    let alloc = rt.alloc();
    for applied in TAKEN {
        let found = unwanted(alloc, applied)?;
        assert_eq!(rt; found, "nothing", "at {}", applied.input);
    }
    Ok(())
}

#[test]
fn refused_scripts_change_nothing(rt: HostRuntime) -> Result<(), StoreFault> {
    let alloc = rt.alloc();
    for refused in REFUSED {
        let found = unwanted(alloc, refused)?;
        assert_eq!(rt; found, "nothing", "at {}", refused.input);
    }
    Ok(())
}

// A view without a variable column has no column that a line could name.
#[test]
fn no_column_without_a_variable(rt: HostRuntime) -> Result<(), StoreFault> {
    let alloc = rt.alloc();
    let mut input = SureSource::of(texts(alloc, &["column+\tnames\tcs\n"])?);
    let row = Row {
        words: &["apply", "Q"],
        files: &[A_NAMES, ("views/Q", "names.csv", "category\nProf\n")],
        want: Want {
            status: 4,
            printed: "refused\tno-target\tnames\tcs\n",
            folder: "views/Q",
            held: &[("names.csv", "category\nProf\n")],
        },
    };
    assert_eq!(rt; difference_over(alloc, &row, &mut input)?, "nothing");
    Ok(())
}
