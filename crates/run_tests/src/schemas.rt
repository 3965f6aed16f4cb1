//! Changes of attributes, relations and databases that `maintain` answers.
use crate::answered::first_difference;
use crate::offices::{A, A_TO_B, ALL, B, B_TO_A, C_CS, C_MATH, C_TO_A, SELF_JOIN};
use crate::row::{Row, Want};
use outside::StoreFault;

// What each changes of the view, and what is refused.
const SCHEMAS: &[(Row, &str)] = &[
    (
        Row {
            words: &["maintain", "CtoA"],
            files: &[C_TO_A, C_CS, C_MATH],
            want: Want {
                status: 0,
                printed: "synced\t1\nrow-\tsalInfo\tProf\tmath\t65000\nrow+\tsalInfo\tProf\tmaths\t65000\ndone\t2\nsynced\t1\n",
                folder: "views/CtoA",
                held: &[(
                    "salInfo.csv",
                    "category,dept,salFloor\nAssoc,cs,60000\nProf,cs,72000\nProf,maths,65000\n",
                )],
            },
        },
        "rename-relation\tuniv-C\tmath\tmaths\n",
    ),
    (
        Row {
            words: &["maintain", "AtoB"],
            files: &[A_TO_B, A],
            want: Want {
                status: 0,
                printed: "synced\t1\nrow-\tsalInfo\tAssoc\nrow-\tsalInfo\tProf\ncolumn-\tsalInfo\tcs\ncolumn-\tsalInfo\tmath\ndone\t4\ncolumn+\tsalInfo\tcs\ncolumn+\tsalInfo\tmath\nrow+\tsalInfo\tAssoc\nrow+\tsalInfo\tProf\ncell\tsalInfo\tcs\t60000\tAssoc\ncell\tsalInfo\tcs\t72000\tProf\ncell\tsalInfo\tmath\t65000\tProf\ndone\t7\nsynced\t1\n",
                folder: "views/AtoB",
                held: &[(
                    "salInfo.csv",
                    "category,cs,math\nAssoc,60000,\nProf,72000,65000\n",
                )],
            },
        },
        "rename-attribute\tuniv-A\tsalInfo\tcategory\trank\nrename-attribute\tuniv-A\tsalInfo\trank\tcategory\n",
    ),
    (
        Row {
            words: &["maintain", "J"],
            files: &[SELF_JOIN, ("sources/d", "r.csv", "a,b\n1,2\n2,3\n")],
            want: Want {
                status: 1,
                printed: "synced\t1\nrow-\tp\t1\t3\ndone\t1\nrefused\tlast-attribute\td\tr\tb\nsynced\t1\n",
                folder: "views/J",
                held: &[("p.csv", "x,y\n")],
            },
        },
        "drop-attribute\td\tr\ta\ndrop-attribute\td\tr\tb\n",
    ),
    (
        Row {
            words: &["maintain", "BtoA"],
            files: &[B_TO_A, B],
            want: Want {
                status: 0,
                printed: "synced\t1\nrow-\tsalInfo\tAssoc\tcs\t60000\nrow-\tsalInfo\tProf\tcs\t72000\ndone\t2\nrow+\tsalInfo\tLect\tmath\t7\ndone\t1\nsynced\t1\n",
                folder: "views/BtoA",
                held: &[(
                    "salInfo.csv",
                    "category,dept,salFloor\nAssoc,math,\nLect,math,7\nProf,math,65000\n",
                )],
            },
        },
        "drop-attribute\tuniv-B\tsalInfo\tcs\ninsert\tuniv-B\tsalInfo\tLect\t7\n",
    ),
    (
        Row {
            words: &["maintain", "AtoB"],
            files: &[A_TO_B, A],
            want: Want {
                status: 1,
                printed: "synced\t1\nrefused\tdatabase-there\tuniv-A\nrefused\tillegal-name\t.x\nrefused\tno-database\tno\nrefused\tdatabase-there\tuniv-A\nrefused\tno-database\tno\nrefused\tillegal-name\ta/b\nrefused\tfield-count\tcreate-database\t1\nrefused\tfield-count\tdrop-database\t3\nrefused\tfield-count\trename-database\t2\nsynced\t0\n",
                folder: "views/AtoB",
                held: &[(
                    "salInfo.csv",
                    "category,cs,math\nAssoc,60000,\nProf,72000,65000\n",
                )],
            },
        },
        "create-database\tuniv-A\ncreate-database\t.x\ndrop-database\tno\nrename-database\tuniv-A\tuniv-A\nrename-database\tno\t.x\nrename-database\tuniv-A\ta/b\ncreate-database\ndrop-database\tuniv-A\tx\nrename-database\tuniv-A\n",
    ),
    (
        Row {
            words: &["maintain", "AtoB"],
            files: &[A_TO_B, A],
            want: Want {
                status: 0,
                printed: "synced\t1\nrow-\tsalInfo\tAssoc\nrow-\tsalInfo\tProf\ncolumn-\tsalInfo\tcs\ncolumn-\tsalInfo\tmath\ndone\t4\ndone\t0\ndone\t0\ncolumn+\tsalInfo\tcs\nrow+\tsalInfo\tProf\ncell\tsalInfo\tcs\t1\tProf\ndone\t3\nsynced\t1\n",
                folder: "views/AtoB",
                held: &[("salInfo.csv", "category,cs\nProf,1\n")],
            },
        },
        "drop-database\tuniv-A\ncreate-database\tuniv-A\ncreate-relation\tuniv-A\tsalInfo\tcategory\tdept\tsalFloor\ninsert\tuniv-A\tsalInfo\tProf\tcs\t1\n",
    ),
    (
        Row {
            words: &["maintain", "All"],
            files: &[ALL, A, B],
            want: Want {
                status: 0,
                printed: "synced\t1\nrow-\tt\tuniv-A\tAssoc\nrow-\tt\tuniv-A\tProf\nrow+\tt\tu\tAssoc\nrow+\tt\tu\tProf\ndone\t4\nsynced\t1\n",
                folder: "views/All",
                held: &[(
                    "t.csv",
                    "db,category\nu,Assoc\nu,Prof\nuniv-B,Assoc\nuniv-B,Prof\n",
                )],
            },
        },
        "rename-database\tuniv-A\tu\n",
    ),
    (
        Row {
            words: &["maintain", "BtoA"],
            files: &[B_TO_A, B],
            want: Want {
                status: 0,
                printed: "synced\t1\nrow+\tsalInfo\tAssoc\tphys\t50\nrow+\tsalInfo\tProf\tphys\t50\ndone\t2\nsynced\t1\n",
                folder: "views/BtoA",
                held: &[(
                    "salInfo.csv",
                    "category,dept,salFloor\nAssoc,cs,60000\nAssoc,math,\nAssoc,phys,50\nProf,cs,72000\nProf,math,65000\nProf,phys,50\n",
                )],
            },
        },
        "add-attribute\tuniv-B\tsalInfo\tphys\t50\n",
    ),
    (
        Row {
            words: &["maintain", "CtoC"],
            files: &[
                (
                    "defs",
                    "CtoC.ssql",
                    "create view CtoC::R(category, salFloor) as select T.category, T.salFloor from univ-C -> R, univ-C::R T",
                ),
                C_CS,
                C_MATH,
            ],
            want: Want {
                status: 0,
                printed: "synced\t2\ntable-\tmath\ndone\t1\nsynced\t1\n",
                folder: "views/CtoC",
                held: &[("cs.csv", "category,salFloor\nAssoc,60000\nProf,72000\n")],
            },
        },
        "drop-relation\tuniv-C\tmath\n",
    ),
    (
        Row {
            words: &["maintain", "J"],
            files: &[SELF_JOIN, ("sources/d", "r.csv", "a,b\n1,2\n2,3\n")],
            want: Want {
                status: 0,
                printed: "synced\t1\nrow-\tp\t1\t3\ndone\t1\nrow+\tp\t1\t3\ndone\t1\nsynced\t1\n",
                folder: "views/J",
                held: &[("p.csv", "x,y\n1,3\n")],
            },
        },
        "rename-attribute\td\tr\tb\tc\nrename-attribute\td\tr\tc\tb\n",
    ),
    (
        Row {
            words: &["maintain", "AtoB"],
            files: &[A_TO_B, A],
            want: Want {
                status: 1,
                printed: "synced\t1\nrefused\tfield-count\tdrop-attribute\t3\nrefused\tno-database\tuniv-X\nrefused\tillegal-name\t.x\nrefused\tno-relation\tuniv-A\tpay\nrefused\trelation-there\tuniv-A\tsalInfo\nrefused\tno-attribute\tuniv-A\tsalInfo\tzip\nrefused\tattribute-there\tuniv-A\tsalInfo\tdept\nrefused\tattribute-there\tuniv-A\tx\ta\nrefused\tarity-differs\tuniv-A\tsalInfo\t3\t2\nrefused\tno-row\tuniv-A\tsalInfo\nsynced\t0\n",
                folder: "views/AtoB",
                held: &[(
                    "salInfo.csv",
                    "category,cs,math\nAssoc,60000,\nProf,72000,65000\n",
                )],
            },
        },
        "drop-attribute\tuniv-A\tsalInfo\ninsert\tuniv-X\tsalInfo\ta\ncreate-relation\tuniv-A\t.x\ta\ninsert\tuniv-A\tpay\ta\ncreate-relation\tuniv-A\tsalInfo\ta\ndrop-attribute\tuniv-A\tsalInfo\tzip\nrename-attribute\tuniv-A\tsalInfo\tdept\tdept\ncreate-relation\tuniv-A\tx\ta\tb\ta\ninsert\tuniv-A\tsalInfo\ta\tb\ndelete\tuniv-A\tsalInfo\ta\tb\tc\n",
    ),
];

#[test]
fn schemas_are_changed(rt: HostRuntime) -> Result<(), StoreFault> {
    assert_eq!(rt; first_difference(rt.alloc(), SCHEMAS)?, None);
    Ok(())
}
