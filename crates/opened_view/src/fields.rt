//! The fields of refusals.
ghost use Rattle.std.specs.Prelude.{◌≡◌, ◌≢◌, IfOk, OnOk};
ghost use Rattle.ss_print.specs.Fields.{line_fields};
ghost use Rattle.schema_model.specs.declared.change.ChangeFault.TheVariants.{NoMemory as LacksMemory};
ghost use Rattle.opened_view.specs.Steps.{IsFaultFieldsOf, IsFieldsOf, IsHoldFieldsOf};

use flow_law::EvalFault;
use schema_model::{Change, ChangeFault};
use ss_print::{clash_fields, illegal_fields, line_fields, refusal_fields};
use ss_text::{NoMemory, Row};
use std::alloc::Global;
use view_session::{HoldRefused, Refused};

/// The fields of a line that says no change.
pub fn line_refusal(alloc: Global, row: &Row, fault: ChangeFault) -> Result<Row, NoMemory>
    ensures some { OnOk result (fault ≢ LacksMemory) }
    ensures row { IfOk result (λ fields. fields ≡ line_fields row.now fault) }
{
    match fault {
        ChangeFault::NoMemory => Err(NoMemory),
        _ => line_fields(alloc, row, fault),
    }
}

/// The fields of a view that has no tables.
pub fn fault_fields(alloc: Global, fault: EvalFault) -> Result<Row, NoMemory>
    ensures { IfOk result (λ row. IsFaultFieldsOf fault row) }
{
    match fault {
        EvalFault::Illegal(label) => illegal_fields(alloc, &label),
        EvalFault::Conflict(clash) => clash_fields(alloc, &clash),
        EvalFault::NoMemory => Err(NoMemory),
    }
}

/// The fields of a refused change.
pub fn refused_fields(alloc: Global, change: &Change, refused: Refused) -> Result<Row, NoMemory>
    ensures { IfOk result (λ row. IsFieldsOf change.now refused row) }
{
    match refused {
        Refused::Change(refusal) => refusal_fields(alloc, change, refusal),
        Refused::Illegal(label) => illegal_fields(alloc, &label),
        Refused::Conflict(clash) => clash_fields(alloc, &clash),
        Refused::NoMemory => Err(NoMemory),
    }
}

/// The fields of a change that is not held.
pub fn held_fields(alloc: Global, change: &Change, refused: &HoldRefused) -> Result<Row, NoMemory>
    ensures { IfOk result (λ row. IsHoldFieldsOf change.now refused.now row) }
{
    match refused {
        HoldRefused::Change(refusal) => refusal_fields(alloc, change, *refusal),
        HoldRefused::NoMemory => Err(NoMemory),
    }
}
