//! Runs of `maintain` that save the sources: what their files and folders are afterwards.
use crate::answered::first_difference;
use crate::offices::{A, A_TO_B, A_TO_C, ALL, B};
use crate::place::{File, folders, run_over, text, texts};
use crate::row::{Row, Want};
use crate::world::{Calls, World};
use outside::{Folders, StoreFault, SureSink, SureSource};
use ss_text::{NoMemory, Text};
use std::alloc::Global;

// A row comes, an attribute gets another name and keeps its place, and a database another name.
const SAVED: &[(Row, &str)] = &[
    (
        Row {
            words: &["maintain", "AtoB"],
            files: &[A_TO_B, A],
            want: Want {
                status: 0,
                printed: "synced\t1\ncolumn+\tsalInfo\tphysics\ncell\tsalInfo\tphysics\t70000\tProf\ndone\t2\nsynced\t1\n",
                folder: "sources/univ-A",
                held: &[(
                    "salInfo.csv",
                    "category,dept,salFloor\nProf,cs,72000\nProf,math,65000\nAssoc,cs,60000\nProf,physics,70000\n",
                )],
            },
        },
        "insert\tuniv-A\tsalInfo\tProf\tphysics\t70000\n",
    ),
    (
        Row {
            words: &["maintain", "AtoB"],
            files: &[A_TO_B, A],
            want: Want {
                status: 0,
                printed: "synced\t1\nrow-\tsalInfo\tAssoc\nrow-\tsalInfo\tProf\ncolumn-\tsalInfo\tcs\ncolumn-\tsalInfo\tmath\ndone\t4\nsynced\t1\n",
                folder: "sources/univ-A",
                held: &[(
                    "salInfo.csv",
                    "rank,dept,salFloor\nProf,cs,72000\nProf,math,65000\nAssoc,cs,60000\n",
                )],
            },
        },
        "rename-attribute\tuniv-A\tsalInfo\tcategory\trank\n",
    ),
    (
        Row {
            words: &["maintain", "All"],
            files: &[ALL, A, B],
            want: Want {
                status: 0,
                printed: "synced\t1\nrow-\tt\tuniv-A\tAssoc\nrow-\tt\tuniv-A\tProf\nrow+\tt\tu\tAssoc\nrow+\tt\tu\tProf\ndone\t4\nsynced\t1\n",
                folder: "sources/u",
                held: &[(
                    "salInfo.csv",
                    "category,dept,salFloor\nProf,cs,72000\nProf,math,65000\nAssoc,cs,60000\n",
                )],
            },
        },
        "rename-database\tuniv-A\tu\n",
    ),
    (
        Row {
            words: &["maintain", "AtoB"],
            files: &[A_TO_B, A],
            want: Want {
                status: 0,
                printed: "synced\t1\nrow-\tsalInfo\tAssoc\nrow-\tsalInfo\tProf\ncolumn-\tsalInfo\tcs\ncolumn-\tsalInfo\tmath\ndone\t4\ndone\t0\nsynced\t1\n",
                folder: "sources/univ-A",
                held: &[],
            },
        },
        "drop-database\tuniv-A\ncreate-database\tuniv-A\n",
    ),
    (
        Row {
            words: &["maintain", "All"],
            files: &[ALL, A, B],
            want: Want {
                status: 0,
                printed: "synced\t1\ndone\t0\nsynced\t0\n",
                folder: "sources/univ-B",
                held: &[(
                    "salInfo.csv",
                    "category,cs,math\nAssoc,60000,\nProf,72000,65000\nProf,72000,\"6,5\"\n",
                )],
            },
        },
        "insert\tuniv-B\tsalInfo\tProf\t72000\t6,5\n",
    ),
];

// The names of the folders of the sources after a run.
fn databases_after(
    alloc: Global,
    words: &[&str],
    files: &[File],
    lines: &str,
) -> Result<Vec<Text>, StoreFault> {
    let words = texts(alloc, words)?;
    let sources = text(alloc, "sources")?;
    let mut input = SureSource::of(texts(alloc, &[lines])?);
    let mut output = SureSink::of(alloc, 5);
    let mut store = folders(alloc, files)?;
    let _ = run_over(alloc, &words, &mut store, &mut input, &mut output);
    store.subfolders(alloc, &sources)
}

// The status of a run of which one call that writes fails.
fn status_at(
    alloc: Global,
    call: u8,
    words: &[&str],
    files: &[File],
    line: &str,
) -> Result<u8, NoMemory> {
    let mut world = World::failing(alloc, files, &[line], 5, Calls::Writes, call)?;
    let status = world.run(alloc, words);
    drop(world);
    Ok(status?.number())
}

#[test]
fn sources_are_saved(rt: HostRuntime) -> Result<(), StoreFault> {
    assert_eq!(rt; first_difference(rt.alloc(), SAVED)?, None);
    Ok(())
}

// A folder of another name takes the place of the old one, and a database that is created again has an empty one.
#[test]
fn folders_come_and_go(rt: HostRuntime) -> Result<(), StoreFault> {
    let alloc = rt.alloc();
    let renamed = databases_after(
        alloc,
        &["maintain", "All"],
        &[ALL, A, B],
        "rename-database\tuniv-A\tu\n",
    )?;
    assert_eq!(rt; renamed, texts(alloc, &["u", "univ-B"])?);
    let again = databases_after(
        alloc,
        &["maintain", "AtoB"],
        &[A_TO_B, A],
        "drop-database\tuniv-A\ncreate-database\tuniv-A\n",
    )?;
    assert_eq!(rt; again, texts(alloc, &["univ-A"])?);
    Ok(())
}

// A row that makes a table writes four files: two at the opening, its source, and the table's.
#[test]
fn four_files_are_written(rt: HostRuntime) -> Result<(), StoreFault> {
    let alloc = rt.alloc();
    let files = [A_TO_C, A];
    let line = "insert\tuniv-A\tsalInfo\tLect\tbio\t2\n";
    let last = status_at(alloc, 4, &["maintain", "AtoC"], &files, line)?;
    let none = status_at(alloc, 5, &["maintain", "AtoC"], &files, line)?;
    assert_eq!(rt; (last, none), (7, 0));
    Ok(())
}
