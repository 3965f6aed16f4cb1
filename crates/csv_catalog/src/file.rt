//! One file of a database.
ghost use Rattle.std.specs.Prelude.{◌≡◌, ◌≤◌, [], ◌∷◌, Some, None, true, map, IfOk, IfErr, IfSome, OnOk, IsErrOf};
ghost use Rattle.std.specs.Option.{option_to_list};
ghost use Rattle.outside.specs.Counts.{Rose};
ghost use Rattle.csv_catalog.specs.Loaded.{files_read, files_fault, relation_of, is_refusal};
ghost use Rattle.outside.specs.Reading.{OnlyRead};
ghost use Rattle.csv_catalog.specs.Reading.{WhereTold, MayBeKept};
ghost use Rattle.schema_model.specs.Limits.{most_rows};

use crate::LoadFault;
use crate::found::{Found, found_file};
use crate::judge::{Judged, judged_records, told_fault};
use crate::listing::RelationFile;
use crate::relation::ReadRelation;
use outside::Folders;
use ss_text::Text;
use std::alloc::Global;

// Reads the relation of a file in the folder of a database, where so many rows were counted before. A file that
// is not there has none.
#[tactic(auto, using(crate::proofs::FileLemmas::file_missing, crate::proofs::FileLemmas::file_sound, crate::proofs::FileLemmas::file_refused, crate::proofs::FileLemmas::front_refused, crate::proofs::FaultLemmas::some_record, crate::proofs::AllRecords::records_have_fields))]
pub(crate) fn read_relation<F: Folders>(
    alloc: Global,
    store: &mut F,
    db: &Text,
    folder: &Text,
    file: RelationFile,
    count: usize,
) -> Result<Option<ReadRelation>, LoadFault>
    requires few { count ≤ most_rows }
    ensures sound { OnOk result (WhereTold (F.state store.old) (λ t. files_fault db.now count (files_read t folder.now (file ∷ [])) ≡ None)) }
    ensures told { IfOk result (λ read. WhereTold (F.state store.old) (λ t. map relation_of (files_read t folder.now (file ∷ [])) ≡ option_to_list read)) }
    ensures refused { IfErr result (λ e. is_refusal e ≡ true → WhereTold (F.state store.old) (λ t. files_fault db.now count (files_read t folder.now (file ∷ [])) ≡ Some e)) }
    ensures may_be_kept { IfOk result (λ read. IfSome read (λ r. MayBeKept r count)) }
    ensures read_fault { IsErrOf result LoadFault.ReadFault → Rose ((F.state store.old).read_faults) ((F.state store.new).read_faults) }
    ensures store { OnlyRead (F.state store.old) (F.state store.new) }
{
    let found = found_file(alloc, store, folder, file.name(), count)?;
    let (name, label) = file.into_names();
    let bytes = match found {
        Found::Missing => return Ok(None),
        Found::Whole { bytes } => bytes,
        Found::Refused { fault } => return Err(told_fault(db, name, fault)?),
    };
    match judged_records(alloc, store.seed(), bytes.as_slice(), count)? {
        Judged::Refused { fault } => Err(told_fault(db, name, fault)?),
        Judged::Sound { records } => Ok(Some(ReadRelation::of(label, records, count))),
    }
}
