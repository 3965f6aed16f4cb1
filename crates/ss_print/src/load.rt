//! Refusals of the source relations.
ghost use Rattle.std.specs.Prelude.{◌≡◌, IfOk};
ghost use Rattle.ss_print.specs.Fields.{counted, load_fields};

use crate::fields::Fields;
use csv_catalog::LoadFault;
use schema_model::Which;
use ss_text::{NoMemory, Row};
use std::alloc::Global;

/// The name and the fields of a refusal of the source relations. A fault of reading or of memory is no refusal,
/// and has no fields.
pub fn load_fields(alloc: Global, fault: &LoadFault) -> Result<Row, NoMemory>
    ensures { IfOk result (λ row. row ≡ load_fields fault.now) }
{
    let fields = match fault {
        LoadFault::NoHeader { db, file } => {
            Fields::named(alloc, b"no-header")?.text(db)?.text(file)?
        }
        LoadFault::NameTwice { db, file, name } => Fields::named(alloc, b"name-twice")?
            .text(db)?
            .text(file)?
            .text(name)?,
        LoadFault::Ragged {
            db,
            file,
            nth,
            want,
            got,
        } => Fields::named(alloc, b"ragged")?
            .text(db)?
            .text(file)?
            .number(alloc, *nth)?
            .number(alloc, *want as u64)?
            .number(alloc, *got as u64)?,
        LoadFault::Limit { which } => {
            Fields::named(alloc, b"limit")?.word(alloc, counted(*which))?
        }
        LoadFault::ReadFault | LoadFault::NoMemory => return Ok(Row::of(Vec::new(alloc))),
    };
    Ok(fields.row())
}

// What a limit counts.
pub(crate) fn counted(which: Which) -> &'static [u8]
    ensures { result.now ≡ counted which }
{
    match which {
        Which::Databases => b"databases",
        Which::Relations => b"relations",
        Which::Attributes => b"attributes",
        Which::Rows => b"rows",
    }
}
