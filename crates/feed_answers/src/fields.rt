//! The fields of refusals.
ghost use Rattle.std.specs.Prelude.{◌≡◌, ◌≢◌, IfOk, OnOk};
ghost use Rattle.feed_answers.specs.declared.fault.FeedFault.TheVariants.{NoMemory as LacksMemory};
ghost use Rattle.feed_answers.specs.Fields.{line_fault_fields, reply_refused_fields};

use crate::FeedFault;
use apply_law::GroupRefused;
use schema_model::Change;
use ss_print::{
    clash_fields, count_fields, escape_fields, illegal_fields, number_fields, refusal_fields,
    verb_fields,
};
use ss_text::{NoMemory, Row};
use std::alloc::Global;

/// The name and the fields of a line that says nothing.
pub(crate) fn line_fault_fields(alloc: Global, fault: &FeedFault) -> Result<Row, NoMemory>
    ensures some { OnOk result (fault.now ≢ LacksMemory) }
    ensures row { IfOk result (λ row. row ≡ line_fault_fields fault.now) }
{
    match fault {
        FeedFault::BadEscape { at } => escape_fields(alloc, *at),
        FeedFault::UnknownVerb { verb } => verb_fields(alloc, verb),
        FeedFault::FieldCount { verb, got } => count_fields(alloc, verb, *got),
        FeedFault::BadNumber { number } => number_fields(alloc, number),
        FeedFault::NoMemory => Err(NoMemory),
    }
}

/// The name and the fields of a change that was not made.
pub(crate) fn reply_refused_fields(
    alloc: Global,
    change: &Change,
    refused: &GroupRefused,
) -> Result<Row, NoMemory>
    ensures { IfOk result (λ row. row ≡ reply_refused_fields change.now refused.now) }
{
    match refused {
        GroupRefused::Change { place: _, refusal } => refusal_fields(alloc, change, *refusal),
        GroupRefused::Illegal(label) => illegal_fields(alloc, label),
        GroupRefused::Conflict(clash) => clash_fields(alloc, clash),
        GroupRefused::NoMemory => Err(NoMemory),
    }
}
