//! The place of a relation among others, by its name.
ghost use Rattle.std.specs.Prelude.{◌≡◌, OnOk};
ghost use Rattle.std.specs.List.Sorted.{IsStrictlySortedBy};
ghost use Rattle.ss_text.specs.Texts.{text_cmp};
ghost use Rattle.ss_text.specs.Ascending.{with_element};
ghost use Rattle.csv_catalog.specs.Loaded.{by_name};
ghost use Rattle.csv_catalog.specs.Reading.{names_of};

use crate::relation::ReadRelation;
use ss_text::NoMemory;
use std::cmp::Ordering;

// Puts a relation among others at the place of its name, where none has this name.
pub(crate) fn place(kept: &mut Vec<ReadRelation>, relation: ReadRelation) -> Result<(), NoMemory>
    requires { IsStrictlySortedBy text_cmp (names_of kept.old.items) }
    ensures { OnOk result (kept.new.items ≡ with_element by_name relation kept.old.items) }
{
    let mut at = kept.len();
    while at > 0 {
        match relation.label().cmp(kept[at - 1].label()) {
            Ordering::Less => at -= 1,
            Ordering::Equal => return Ok(()),
            Ordering::Greater => break,
        }
    }
    kept.insert(at, relation)?;
    Ok(())
}
