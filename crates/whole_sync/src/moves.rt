//! What is done once a list is there.
ghost use Rattle.std.specs.Prelude.{◌≡◌, ◌∷◌, ◌++◌, List, IfOk, OnOk, IsErrOf};
ghost use Rattle.std.specs.List.{Contains};
ghost use Rattle.outside.specs.declared.edit.Edit.{Edit};
ghost use Rattle.whole_sync.specs.Listing.{FitsList, CanBeListed, AreWritten, Named};
ghost use Rattle.whole_sync.specs.Protocol.{is_making, is_due, making, removing, moves_of};

use outside::{Edit, StoreFault};
use ss_text::Text;
use std::alloc::Global;
use std::collections::BTreeSet;

/// One thing that is done once a list is there. Each may be done again, and does nothing then.
#[derive(Debug, Drop, PartialEq, Eq)]
pub enum Move {
    /// A folder is made, with those above it.
    MakeFolder {
        folder: Text,
    },
    /// What lies beside a place is moved there.
    TakePlace {
        beside: Text,
        folder: Text,
        file: Text,
    },
    /// A file is removed.
    Remove {
        folder: Text,
        file: Text,
    },
    /// A folder in which nothing is left is removed.
    RemoveFolder {
        folder: Text,
    },
}

impl Move {
    /// Whether it makes or writes something. All that do come before those that remove.
    pub(crate) fn makes(&self) -> bool
        ensures { result ≡ is_making self.now }
    {
        matches!(self, Move::MakeFolder { .. } | Move::TakePlace { .. })
    }

    /// Whether it is one of those that make something, or one of the others.
    pub(crate) fn is_due(&self, making: bool) -> bool
        ensures { result ≡ is_due making self.now }
    {
        if making { self.makes() } else { !self.makes() }
    }
}

/// What is done of these edits once a list is there: folders are made and files written, in the order of the edits, and
/// then files and folders removed. What is written was put beside its place, in order, under these names. Edits that write
/// and remove one file are a failure, and so are fewer names than there are writes.
pub(crate) fn moves_of(
    alloc: Global,
    edits: &[Edit],
    beside: &[Text],
) -> Result<Vec<Move>, StoreFault>
    ensures ok { IfOk result (λ moves. moves.items ≡ moves_of edits.now beside.now) }
    ensures failed { IsErrOf result StoreFault.Failed → CanBeListed edits.now → Named edits.now beside.now → ⊥ }
{
    let written = places_written(alloc, edits)?;
    let mut moves = making_moves(alloc, edits, beside)?;
    for edit in edits {
        push_removing(&mut moves, edit, &written)?;
    }
    Ok(moves)
}

// What an edit removes. A file that is written too is a failure.
fn push_removing(
    moves: &mut Vec<Move>,
    edit: &Edit,
    written: &BTreeSet<(Text, Text)>,
) -> Result<(), StoreFault>
    ensures ok { OnOk result ((es : _) → moves.old.items ++ removing (edit.now ∷ es) ≡ moves.new.items ++ removing es) }
    ensures failed { IsErrOf result StoreFault.Failed → (es : List Edit) → AreWritten es written.now.keys → FitsList es edit.now → ⊥ }
{
    match edit {
        Edit::Remove { folder, file } => {
            let place = (folder.copy()?, file.copy()?);
            if written.contains(&place) {
                return Err(StoreFault::Failed);
            }
            let (folder, file) = place;
            moves.push(Move::Remove { folder, file })?;
            Ok(())
        }
        Edit::RemoveFolder { folder } => {
            let folder = folder.copy()?;
            moves.push(Move::RemoveFolder { folder })?;
            Ok(())
        }
        Edit::MakeFolder { .. } | Edit::Write { .. } => Ok(()),
    }
}

// The places that these edits write.
fn places_written(alloc: Global, edits: &[Edit]) -> Result<BTreeSet<(Text, Text)>, StoreFault>
    ensures ok { IfOk result (λ places. AreWritten edits.now places.keys) }
    ensures failed { IsErrOf result StoreFault.Failed → ⊥ }
{
    let mut places = BTreeSet::new(alloc);
    for edit in edits {
        add_place(&mut places, edit)?;
    }
    Ok(places)
}

// The place that an edit writes, where it writes one.
fn add_place(places: &mut BTreeSet<(Text, Text)>, edit: &Edit) -> Result<(), StoreFault>
    ensures ok { OnOk result ((es : List Edit) → AreWritten es places.old.keys → Contains es edit.now → AreWritten es places.new.keys) }
    ensures failed { IsErrOf result StoreFault.Failed → ⊥ }
{
    match edit {
        Edit::Write { folder, file, .. } => {
            places.insert((folder.copy()?, file.copy()?))?;
            Ok(())
        }
        Edit::MakeFolder { .. } | Edit::Remove { .. } | Edit::RemoveFolder { .. } => Ok(()),
    }
}

// The folders that are made and the files that are written.
fn making_moves(alloc: Global, edits: &[Edit], beside: &[Text]) -> Result<Vec<Move>, StoreFault>
    ensures ok { IfOk result (λ moves. moves.items ≡ making edits.now beside.now) }
    ensures failed { IsErrOf result StoreFault.Failed → Named edits.now beside.now → ⊥ }
{
    let mut names = beside;
    let mut moves = Vec::new(alloc);
    for edit in edits {
        names = push_making(&mut moves, edit, names)?;
    }
    Ok(moves)
}

// What an edit makes or writes, and the names that are left for those behind it.
fn push_making<'a>(
    moves: &mut Vec<Move>,
    edit: &Edit,
    names: &'a [Text],
) -> Result<&'a [Text], StoreFault>
    ensures ok { IfOk result (λ rest. (es : _) → moves.old.items ++ making (edit.now ∷ es) names.now ≡ moves.new.items ++ making es rest.now) }
    ensures named { IfOk result (λ rest. (es : List Edit) → Named (edit.now ∷ es) names.now → Named es rest.now) }
    ensures failed { IsErrOf result StoreFault.Failed → (es : List Edit) → Named (edit.now ∷ es) names.now → ⊥ }
{
    match edit {
        Edit::MakeFolder { folder } => {
            let folder = folder.copy()?;
            moves.push(Move::MakeFolder { folder })?;
            Ok(names)
        }
        Edit::Write { folder, file, .. } => match names {
            [beside, rest @ ..] => {
                let (beside, folder, file) = (beside.copy()?, folder.copy()?, file.copy()?);
                moves.push(Move::TakePlace {
                    beside,
                    folder,
                    file,
                })?;
                Ok(rest)
            }
            [] => Err(StoreFault::Failed),
        },
        Edit::Remove { .. } | Edit::RemoveFolder { .. } => Ok(names),
    }
}
