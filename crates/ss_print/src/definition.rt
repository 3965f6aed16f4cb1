//! Refusals of a definition.
ghost use Rattle.std.specs.Prelude.{◌≡◌, ◌∷◌, [], IfOk, decimal};
ghost use Rattle.ss_print.specs.Fields.{parse_fields, type_fields};

use crate::fields::Fields;
use ss_parser::ParseFault;
use ss_text::{NoMemory, Row, Text};
use std::alloc::Global;
use var_typing::TypeFault;

/// The name and the fields of a view text that is no view. Want of memory is no refusal, and has no fields.
pub fn parse_fields(alloc: Global, fault: &ParseFault) -> Result<Row, NoMemory>
    ensures { IfOk result (λ row. row ≡ parse_fields fault.now) }
{
    match fault {
        ParseFault::BadByte { at } => placed(alloc, b"bad-byte", *at),
        ParseFault::OpenQuote { at } => placed(alloc, b"open-quote", *at),
        ParseFault::Unexpected { at } => placed(alloc, b"unexpected", *at),
        ParseFault::TooDeep { at } => placed(alloc, b"too-deep", *at),
        ParseFault::NoMemory => Ok(Row::of(Vec::new(alloc))),
    }
}

// A name and a place.
fn placed(alloc: Global, name: &[u8], at: usize) -> Result<Row, NoMemory>
    ensures { IfOk result (λ row. row ≡ name.now ∷ decimal at ∷ []) }
{
    let fields = Fields::named(alloc, name)?.number(alloc, at as u64)?;
    Ok(fields.row())
}

/// The name and the fields of a view that has no type. Want of memory is no refusal, and has no fields.
pub fn type_fields(alloc: Global, fault: &TypeFault) -> Result<Row, NoMemory>
    ensures { IfOk result (λ row. row ≡ type_fields fault.now) }
{
    match fault {
        TypeFault::DeclaredTwice { var } => about(alloc, b"declared-twice", var),
        TypeFault::NotDeclared { name } => about(alloc, b"not-declared", name),
        TypeFault::WrongKind { name } => about(alloc, b"wrong-kind", name),
        TypeFault::TwoVariableColumns { var } => about(alloc, b"two-variable-columns", var),
        TypeFault::TwoFolds { var } => about(alloc, b"two-folds", var),
        TypeFault::ColumnTwice { name } => about(alloc, b"column-twice", name),
        TypeFault::CountDiffers { columns, terms } => {
            let fields = Fields::named(alloc, b"count-differs")?
                .number(alloc, *columns as u64)?
                .number(alloc, *terms as u64)?;
            Ok(fields.row())
        }
        TypeFault::NoConstantColumn => {
            let fields = Fields::named(alloc, b"no-constant-column")?;
            Ok(fields.row())
        }
        TypeFault::TooMany { var } => about(alloc, b"too-many", var),
        TypeFault::BadLabel { name } => about(alloc, b"bad-label", name),
        TypeFault::NoMemory => Ok(Row::of(Vec::new(alloc))),
    }
}

// A name and a text.
fn about(alloc: Global, name: &[u8], text: &Text) -> Result<Row, NoMemory>
    ensures { IfOk result (λ row. row ≡ name.now ∷ text.now ∷ []) }
{
    let fields = Fields::named(alloc, name)?.text(text)?;
    Ok(fields.row())
}
