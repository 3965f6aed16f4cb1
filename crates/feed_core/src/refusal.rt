//! Refusals that are kept.
ghost use Rattle.std.specs.Prelude.{◌≡◌, IfOk};
ghost use Rattle.feed_core.specs.Handled.{refusal_in};

use apply_law::GroupRefused;
use flow_law::{Clash, IllegalLabel};
use schema_model::Refusal;
use ss_text::NoMemory;
use std::alloc::Global;

/// Why a change was refused. Most are refused by the catalogue, which takes a third of the room of the others.
#[derive(Debug, Drop)]
pub(crate) enum KeptRefusal {
    Change { place: usize, refusal: Refusal },
    Other(Box<GroupRefused>),
}

/// What is kept of a refusal.
pub(crate) fn kept_refusal(alloc: Global, refused: GroupRefused) -> Result<KeptRefusal, NoMemory>
    ensures { IfOk result (λ kept. refusal_in kept ≡ refused) }
{
    match refused {
        GroupRefused::Change { place, refusal } => Ok(KeptRefusal::Change { place, refusal }),
        other => Ok(KeptRefusal::Other(Box::new(alloc, other)?)),
    }
}

/// The refusal of which this is kept.
pub(crate) fn refusal_of(kept: &KeptRefusal) -> Result<GroupRefused, NoMemory>
    ensures { IfOk result (λ refused. refused ≡ refusal_in kept.now) }
{
    match kept {
        KeptRefusal::Change { place, refusal } => Ok(GroupRefused::Change {
            place: *place,
            refusal: *refusal,
        }),
        KeptRefusal::Other(refused) => copied(refused),
    }
}

// An equal refusal.
fn copied(refused: &GroupRefused) -> Result<GroupRefused, NoMemory>
    ensures { IfOk result (λ copy. copy ≡ refused.now) }
{
    match refused {
        GroupRefused::Change { place, refusal } => Ok(GroupRefused::Change {
            place: *place,
            refusal: *refusal,
        }),
        GroupRefused::Illegal(label) => Ok(GroupRefused::Illegal(copied_label(label)?)),
        GroupRefused::Conflict(clash) => Ok(GroupRefused::Conflict(copied_clash(clash)?)),
        GroupRefused::NoMemory => Ok(GroupRefused::NoMemory),
    }
}

fn copied_label(label: &IllegalLabel) -> Result<IllegalLabel, NoMemory>
    ensures { IfOk result (λ copy. copy ≡ label.now) }
{
    let table = label.table.copy()?;
    let column = match &label.column {
        Some(column) => Some(column.copy()?),
        None => None,
    };
    Ok(IllegalLabel { table, column })
}

fn copied_clash(clash: &Clash) -> Result<Clash, NoMemory>
    ensures { IfOk result (λ copy. copy ≡ clash.now) }
{
    Ok(Clash {
        table: clash.table.copy()?,
        column: clash.column.copy()?,
        first: clash.first.copy()?,
        second: clash.second.copy()?,
        key: clash.key.copy()?,
    })
}
