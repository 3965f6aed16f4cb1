//! The names in a folder.
ghost use Rattle.std.specs.Prelude.{IfOk};
ghost use Rattle.std.specs.List.Sorted.{IsStrictlySortedBy};
ghost use Rattle.ss_text.specs.Texts.{text_cmp};

use crate::paths::{folder_path, found, is_own, leads_nowhere, text_of};
use ss_text::{NoMemory, Text, make_ascending};
use std::alloc::Global;
use std::fs::{self, DirEntry};
use std::io::{Error, ErrorKind};
use std::rt::Files;

/// What a listing looks for.
#[derive(Clone, Copy, PartialEq, Eq)]
pub(crate) enum Wanted {
    Folders,
    Files,
}

/// The names of what is wanted in a folder, ascending. A missing folder has none.
pub(crate) fn list_at<R: Files + AllocGlobal + Clone + Drop>(
    rt: &R,
    folder: &Text,
    wanted: Wanted,
) -> Result<Vec<Text>, Error>
    ensures { IfOk result (λ names. IsStrictlySortedBy text_cmp names.items) }
{
    let path = folder_path(folder)?;
    let names = listing(rt, path, wanted)?;
    in_order(names)
}

fn listing<R: Files + AllocGlobal + Clone + Drop>(
    rt: &R,
    folder: &str,
    wanted: Wanted,
) -> Result<Vec<Text>, Error> {
    let Some(entries) = found(fs::read_dir(rt, folder))? else {
        return Ok(Vec::new(rt.alloc()));
    };
    let mut names = Vec::new(rt.alloc());
    for entry in entries {
        let entry = entry?;
        if is_wanted(rt, &entry, wanted)? {
            names.push(text_of(rt.alloc(), entry.file_name().as_bytes())?)?;
        }
    }
    Ok(names)
}

// Whether an entry is what is wanted, where links are followed. One that is gone by now or leads nowhere is not, and
// neither is what is no folder and no regular file.
fn is_wanted<R: Files + AllocGlobal + Clone + Drop>(
    rt: &R,
    entry: &DirEntry<R>,
    wanted: Wanted,
) -> Result<bool, Error> {
    match fs::metadata(rt, entry.path()) {
        Ok(metadata) => Ok(match wanted {
            Wanted::Folders => metadata.is_dir(),
            Wanted::Files => metadata.is_file(),
        }),
        Err(error) if leads_nowhere(&error) => Ok(false),
        Err(error) => Err(error),
    }
}

#[tactic(auto, using(std::proofs::lemmas::Map::Lookups::exact_bytes))]
fn in_order(mut names: Vec<Text>) -> Result<Vec<Text>, Error>
    ensures { IfOk result (λ names. IsStrictlySortedBy text_cmp names.items) }
{
    match make_ascending(&mut names) {
        Ok(()) => Ok(names),
        Err(NoMemory) => Err(Error::from(ErrorKind::OutOfMemory)),
    }
}

/// The paths of the files in a folder that lie under names of the program's own. A missing folder has none.
pub(crate) fn own_files<R: Files + AllocGlobal + Clone + Drop>(
    rt: &R,
    folder: &str,
) -> Result<Vec<String>, Error> {
    let Some(entries) = found(fs::read_dir(rt, folder))? else {
        return Ok(Vec::new(rt.alloc()));
    };
    let mut paths = Vec::new(rt.alloc());
    for entry in entries {
        let entry = entry?;
        if is_own(entry.file_name()) {
            paths.push(String::from_str(rt.alloc(), entry.path().as_str())?)?;
        }
    }
    Ok(paths)
}

/// Whether nothing lies in a folder.
pub(crate) fn is_empty<R: Files + AllocGlobal + Clone + Drop>(
    rt: &R,
    folder: &str,
) -> Result<bool, Error> {
    for entry in fs::read_dir(rt, folder)? {
        entry?;
        return Ok(false);
    }
    Ok(true)
}
