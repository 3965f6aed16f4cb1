//! Numbered changes of several sources, which `feed` answers.
use crate::answered::first_difference;
use crate::offices::{A, A_TO_B};
use crate::row::{Row, Want};
use outside::StoreFault;

const SAME: &str = "category,cs,math\nAssoc,60000,\nProf,72000,65000\n";

const PHYSICS: &str = "category,cs,math,physics\nAssoc,60000,,\nProf,72000,65000,70000\n";

// What is replied, and how lines are refused.
const FED: &[(Row, &str)] = &[
    // A change that comes again, and one before its turn.
    (
        Row {
            words: &["feed", "AtoB"],
            files: &[A_TO_B, A],
            want: Want {
                status: 1,
                printed: "synced\t1\nreply\thr\t1\ncolumn+\tsalInfo\tphysics\ncell\tsalInfo\tphysics\t70000\tProf\ndone\t2\nreply\thr\t1\ncolumn+\tsalInfo\tphysics\ncell\tsalInfo\tphysics\t70000\tProf\ndone\t2\nrefused\tearly\thr\t2\nsynced\t1\n",
                folder: "views/AtoB",
                held: &[("salInfo.csv", PHYSICS)],
            },
        },
        "feed\thr\t1\tinsert\tuniv-A\tsalInfo\tProf\tphysics\t70000\nfeed\thr\t1\tinsert\tuniv-A\tsalInfo\tProf\tphysics\t70000\nfeed\thr\t3\tdelete\tuniv-A\tsalInfo\tProf\tmath\t65000\n",
    ),
    // A refused change keeps its refusal, also where it would be made by now; and another change under its number.
    (
        Row {
            words: &["feed", "AtoB"],
            files: &[A_TO_B, A],
            want: Want {
                status: 1,
                printed: "synced\t1\nreply\thr\t1\nrefused\tconflict\tsalInfo\tcs\t72000\t99\tProf\nreply\tpay\t1\ncell\tsalInfo\tcs\t\tProf\ndone\t1\nreply\thr\t1\nrefused\tconflict\tsalInfo\tcs\t72000\t99\tProf\nrefused\tother-change\thr\t1\nsynced\t1\n",
                folder: "views/AtoB",
                held: &[(
                    "salInfo.csv",
                    "category,cs,math\nAssoc,60000,\nProf,,65000\n",
                )],
            },
        },
        "feed\thr\t1\tinsert\tuniv-A\tsalInfo\tProf\tcs\t99\nfeed\tpay\t1\tdelete\tuniv-A\tsalInfo\tProf\tcs\t72000\nfeed\thr\t1\tinsert\tuniv-A\tsalInfo\tProf\tcs\t99\nfeed\thr\t1\tdelete\tuniv-A\tsalInfo\tx\ty\tz\n",
    ),
    // A number begins with no nought.
    (
        Row {
            words: &["feed", "AtoB"],
            files: &[A_TO_B, A],
            want: Want {
                status: 1,
                printed: "synced\t1\nrefused\tbad-number\t0\nsynced\t0\n",
                folder: "views/AtoB",
                held: &[("salInfo.csv", SAME)],
            },
        },
        "feed\thr\t0\tdrop-database\tuniv-A\n",
    ),
    // A refused change has used its number, and a line that says no change has used none.
    (
        Row {
            words: &["feed", "AtoB"],
            files: &[A_TO_B, A],
            want: Want {
                status: 1,
                printed: "synced\t1\nrefused\tfield-count\tdrop-database\t1\nreply\thr\t1\nrefused\tno-row\tuniv-A\tsalInfo\nreply\thr\t2\ncolumn+\tsalInfo\tphysics\ncell\tsalInfo\tphysics\t70000\tProf\ndone\t2\nsynced\t1\nsynced\t0\n",
                folder: "views/AtoB",
                held: &[("salInfo.csv", PHYSICS)],
            },
        },
        "feed\thr\t1\tdrop-database\nfeed\thr\t1\tdelete\tuniv-A\tsalInfo\tx\ty\tz\nfeed\thr\t2\tinsert\tuniv-A\tsalInfo\tProf\tphysics\t70000\nsync\n",
    ),
    // The first fault of a line is told.
    (
        Row {
            words: &["feed", "AtoB"],
            files: &[A_TO_B, A],
            want: Want {
                status: 1,
                printed: "synced\t1\nrefused\tbad-escape\t5\nrefused\tunknown-verb\tinsert\nrefused\tfield-count\tsync\t2\nrefused\tfield-count\tfeed\t3\nrefused\tbad-number\t01\nrefused\tunknown-verb\tfrop\nsynced\t0\n",
                folder: "views/AtoB",
                held: &[("salInfo.csv", SAME)],
            },
        },
        "feed\t\\q\ninsert\tuniv-A\tsalInfo\tLect\tcs\t1\nsync\tx\nfeed\thr\t01\nfeed\thr\t01\tfrop\nfeed\thr\t1\tfrop\n",
    ),
    // Where no line is refused all is done.
    (
        Row {
            words: &["feed", "AtoB"],
            files: &[A_TO_B, A],
            want: Want {
                status: 0,
                printed: "synced\t1\nreply\t\t1\ndone\t0\nreply\tpay\t1\ndone\t0\nsynced\t0\n",
                folder: "views/AtoB",
                held: &[("salInfo.csv", SAME)],
            },
        },
        "feed\t\t1\tadd-attribute\tuniv-A\tsalInfo\tx\ty\nfeed\tpay\t1\tdrop-attribute\tuniv-A\tsalInfo\tx\n",
    ),
];

#[test]
fn feeds_are_answered(rt: HostRuntime) -> Result<(), StoreFault> {
    assert_eq!(rt; first_difference(rt.alloc(), FED)?, None);
    Ok(())
}
