//! Groups of changes that `maintain` answers.
use crate::answered::first_difference;
use crate::offices::{A, A_TO_B};
use crate::row::{Row, Want};
use outside::StoreFault;

const SAME: &str = "category,cs,math\nAssoc,60000,\nProf,72000,65000\n";

// What groups change, and how they are refused.
const GROUPED: &[(Row, &str)] = &[
    // A value that would be in conflict half way is exchanged.
    (
        Row {
            words: &["maintain", "AtoB"],
            files: &[A_TO_B, A],
            want: Want {
                status: 0,
                printed: "synced\t1\nbegun\nheld\nheld\ncell\tsalInfo\tcs\t99\tProf\ndone\t1\nsynced\t1\n",
                folder: "views/AtoB",
                held: &[(
                    "salInfo.csv",
                    "category,cs,math\nAssoc,60000,\nProf,99,65000\n",
                )],
            },
        },
        "begin\ninsert\tuniv-A\tsalInfo\tProf\tcs\t99\ndelete\tuniv-A\tsalInfo\tProf\tcs\t72000\ncommit\n",
    ),
    // A refused group leaves nothing, and has ended.
    (
        Row {
            words: &["maintain", "AtoB"],
            files: &[A_TO_B, A],
            want: Want {
                status: 1,
                printed: "synced\t1\nbegun\nheld\nrefused\tconflict\tsalInfo\tcs\t72000\t99\tProf\nrefused\tno-group\tcommit\nsynced\t0\n",
                folder: "views/AtoB",
                held: &[("salInfo.csv", SAME)],
            },
        },
        "begin\ninsert\tuniv-A\tsalInfo\tProf\tcs\t99\ncommit\ncommit\n",
    ),
    // A group with a refused line, and one that the input ends in.
    (
        Row {
            words: &["maintain", "AtoB"],
            files: &[A_TO_B, A],
            want: Want {
                status: 1,
                printed: "synced\t1\nbegun\nrefused\tin-group\tsync\nrefused\tgroup-broken\t1\nbegun\nheld\nrefused\topen-group\t1\nsynced\t0\n",
                folder: "views/AtoB",
                held: &[("salInfo.csv", SAME)],
            },
        },
        "begin\nsync\ncommit\nbegin\ninsert\tuniv-A\tsalInfo\tLect\tcs\t1\n",
    ),
    // A group that is given up, one that is broken, and one that changes nothing in the end.
    (
        Row {
            words: &["maintain", "AtoB"],
            files: &[A_TO_B, A],
            want: Want {
                status: 1,
                printed: "synced\t1\nrefused\tfield-count\tbegin\t2\nbegun\nheld\naborted\nrefused\tno-group\tabort\nbegun\nrefused\tin-group\tbegin\nheld\nrefused\tno-row\tuniv-A\tsalInfo\nrefused\tgroup-broken\t2\nbegun\nheld\nheld\ndone\t0\nsynced\t0\n",
                folder: "views/AtoB",
                held: &[("salInfo.csv", SAME)],
            },
        },
        "begin\tx\nbegin\ninsert\tuniv-A\tsalInfo\tLect\tcs\t1\nabort\nabort\nbegin\nbegin\ninsert\tuniv-A\tsalInfo\tLect\tcs\t1\ndelete\tuniv-A\tsalInfo\tProf\tcs\t99\ncommit\nbegin\ninsert\tuniv-A\tsalInfo\tLect\tcs\t1\ndelete\tuniv-A\tsalInfo\tLect\tcs\t1\ncommit\n",
    ),
];

#[test]
fn groups_are_answered(rt: HostRuntime) -> Result<(), StoreFault> {
    assert_eq!(rt; first_difference(rt.alloc(), GROUPED)?, None);
    Ok(())
}
