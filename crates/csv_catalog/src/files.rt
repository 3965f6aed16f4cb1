//! The files of a database, one after the other.
ghost use Rattle.std.specs.Prelude.{◌≡◌, ◌≤◌, ◌+◌, [], ◌∷◌, ℕ, Some, None, true, map, length, IfOk, IfErr, OnOk, IsErrOf};
ghost use Rattle.std.specs.List.Sorted.{IsStrictlySortedBy};
ghost use Rattle.ss_text.specs.Texts.{text_cmp};
ghost use Rattle.outside.specs.Counts.{Rose};
ghost use Rattle.csv_catalog.specs.Loaded.{files_read, files_fault, relation_of, is_refusal};
ghost use Rattle.outside.specs.Reading.{OnlyRead};
ghost use Rattle.csv_catalog.specs.Reading.{WhereTold, AreKept, all_placed, names_of, rows_counted};
ghost use Rattle.schema_model.specs.Limits.{most_rows};

use crate::LoadFault;
use crate::file::read_relation;
use crate::listing::RelationFile;
use crate::place::place;
use crate::relation::ReadRelation;
use outside::Folders;
use ss_text::Text;
use std::alloc::Global;

// Reads these files in the folder of a database, in their order, where so many rows were counted before. The
// relations stand in the order of their names.
pub(crate) fn read_relations<F: Folders>(
    alloc: Global,
    store: &mut F,
    db: &Text,
    folder: &Text,
    files: Vec<RelationFile>,
    count: usize,
) -> Result<Vec<ReadRelation>, LoadFault>
    requires few { count ≤ most_rows }
    ensures sound { OnOk result (WhereTold (F.state store.old) (λ t. files_fault db.now count (files_read t folder.now files.items) ≡ None)) }
    ensures told { IfOk result (λ kept. WhereTold (F.state store.old) (λ t. kept.items ≡ all_placed (map relation_of (files_read t folder.now files.items)) [])) }
    ensures refused { IfErr result (λ e. is_refusal e ≡ true → WhereTold (F.state store.old) (λ t. files_fault db.now count (files_read t folder.now files.items) ≡ Some e)) }
    ensures kept { IfOk result (λ kept. AreKept count kept.items most_rows) }
    ensures length { IfOk result (λ kept. length kept.items ≤ length files.items) }
    ensures read_fault { IsErrOf result LoadFault.ReadFault → Rose ((F.state store.old).read_faults) ((F.state store.new).read_faults) }
    ensures store { OnlyRead (F.state store.old) (F.state store.new) }
{
    let mut kept = Vec::new(alloc);
    let mut counted = count;
    for file in files {
        match read_one_more(alloc, store, db, folder, file, &mut kept, counted) {
            Ok(now) => counted = now,
            Err(fault) => return Err(fault),
        }
    }
    Ok(kept)
}

// Reads one more file, and answers how many rows are counted then.
#[tactic(auto, using(crate::proofs::FilesLemmas::placed_none, crate::proofs::FilesLemmas::placed_one, crate::proofs::KeptLemmas::kept_more, crate::proofs::KeptLemmas::length_placed))]
fn read_one_more<F: Folders>(
    alloc: Global,
    store: &mut F,
    db: &Text,
    folder: &Text,
    file: RelationFile,
    kept: &mut Vec<ReadRelation>,
    counted: usize,
) -> Result<usize, LoadFault>
    requires few { counted ≤ most_rows }
    requires ascending { IsStrictlySortedBy text_cmp (names_of kept.old.items) }
    ensures sound { OnOk result (WhereTold (F.state store.old) (λ t. files_fault db.now counted (files_read t folder.now (file ∷ [])) ≡ None)) }
    ensures told { OnOk result (WhereTold (F.state store.old) (λ t. kept.new.items ≡ all_placed (map relation_of (files_read t folder.now (file ∷ []))) kept.old.items)) }
    ensures rows { IfOk result (λ n. WhereTold (F.state store.old) (λ t. n ≡ counted + rows_counted (map relation_of (files_read t folder.now (file ∷ []))))) }
    ensures refused { IfErr result (λ e. is_refusal e ≡ true → WhereTold (F.state store.old) (λ t. files_fault db.now counted (files_read t folder.now (file ∷ [])) ≡ Some e)) }
    ensures kept { IfOk result (λ n. (before : ℕ) → AreKept before kept.old.items counted → AreKept before kept.new.items n) }
    ensures few { IfOk result (λ n. n ≤ most_rows) }
    ensures length { OnOk result (length kept.new.items ≤ length kept.old.items + 1) }
    ensures read_fault { IsErrOf result LoadFault.ReadFault → Rose ((F.state store.old).read_faults) ((F.state store.new).read_faults) }
    ensures store { OnlyRead (F.state store.old) (F.state store.new) }
{
    match read_relation(alloc, store, db, folder, file, counted)? {
        Some(relation) => {
            let rows = relation.count();
            place(kept, relation)?;
            Ok(counted + rows)
        }
        None => Ok(counted),
    }
}
