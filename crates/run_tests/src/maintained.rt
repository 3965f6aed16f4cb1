//! Runs of `maintain`: answers in order, an input that is cut anywhere, and a call that fails.
use crate::offices::{A, A_NAMES, A_TO_B};
use crate::place::texts;
use crate::row::{Row, Want, difference_over};
use outside::{MemSource, StoreFault, SureSource};
use ss_text::{NoMemory, Text};
use std::alloc::Global;

// Constant columns alone, where rows come and go, and an attribute comes that the view does not show.
const NAMES: Row = Row {
    words: &["maintain", "Q"],
    files: &[A_NAMES, A],
    want: Want {
        status: 0,
        printed: "synced\t1\nrow+\tnames\tLect\ndone\t1\ndone\t0\nrow-\tnames\tProf\ndone\t1\ndone\t0\nsynced\t1\n",
        folder: "views/Q",
        held: &[("names.csv", "category\nAssoc\nLect\n")],
    },
};

const NAME_CHANGES: &str =
    "insert\tuniv-A\tsalInfo\tLect\tcs\t1\ndelete\tuniv-A\tsalInfo\tProf\tcs\t72000\ndelete\tuniv-A\tsalInfo\tProf\tmath\t65000\nadd-attribute\tuniv-A\tsalInfo\tx\ty\n";

// Two changes, and then a read that fails: the file is as the opening left it.
const UNREAD_END: Row = Row {
    words: &["maintain", "AtoB"],
    files: &[A_TO_B, A],
    want: Want {
        status: 6,
        printed: "synced\t1\ncolumn+\tsalInfo\tphysics\ncell\tsalInfo\tphysics\t70000\tProf\ndone\t2\ncolumn-\tsalInfo\tmath\ndone\t1\n",
        folder: "views/AtoB",
        held: &[(
            "salInfo.csv",
            "category,cs,math\nAssoc,60000,\nProf,72000,65000\n",
        )],
    },
};

// The text with each byte a piece of its own.
fn cut(alloc: Global, text: &str) -> Result<Vec<Text>, NoMemory> {
    let mut pieces = Vec::new(alloc);
    for byte in text.as_bytes() {
        pieces.push(Text::of(alloc, &[*byte])?)?;
    }
    Ok(pieces)
}

fn maintained(alloc: Global, pieces: Vec<Text>) -> Result<&'static str, StoreFault> {
    let mut input = SureSource::of(pieces);
    difference_over(alloc, &NAMES, &mut input)
}

#[test]
fn lines_are_answered(rt: HostRuntime) -> Result<(), StoreFault> {
    let alloc = rt.alloc();
    let whole = texts(alloc, &[NAME_CHANGES])?;
    assert_eq!(rt; maintained(alloc, whole)?, "nothing");
    let bytes = cut(alloc, NAME_CHANGES)?;
    assert_eq!(rt; maintained(alloc, bytes)?, "nothing");
    Ok(())
}

#[test]
fn a_read_of_the_input_fails(rt: HostRuntime) -> Result<(), StoreFault> {
    let alloc = rt.alloc();
    let pieces = texts(
        alloc,
        &[
            "insert\tuniv-A\tsalInfo\tProf\tphysics\t70000\n",
            "delete\tuniv-A\tsalInfo\tProf\tmath\t65000\n",
        ],
    )?;
    let mut input = MemSource::of(pieces, vec![in alloc; 3]?);
    assert_eq!(rt; difference_over(alloc, &UNREAD_END, &mut input)?, "nothing");
    Ok(())
}
