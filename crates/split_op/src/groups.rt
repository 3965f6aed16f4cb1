//! Moves of fact rows, label by label.
ghost use Rattle.std.specs.Prelude.{◌≡◌, ◌<◌, [], length, map, All, IfOk, OnOk};
ghost use Rattle.std.specs.List.Sorted.{IsStrictlySortedBy};
ghost use Rattle.ss_text.specs.Texts.{text_cmp, text_eq};
ghost use Rattle.ss_text.specs.Places.{changed_where};
ghost use Rattle.split_op.specs.Labels.{label_in, labels_moved};
ghost use Rattle.split_op.specs.Groups.{group_label, grouped, with_move};

use operator_law::{Delta, Signed};
use ss_text::{NoMemory, Text, make_ascending};
use std::alloc::Global;

/// The moves of the rows that bear a label.
#[derive(Drop)]
pub struct Group {
    pub label: Text,
    pub moves: Delta,
}

fn label_of(m: &Signed) -> &Text
    requires { 0 < length m.now.row }
    ensures { result.now ≡ label_in m.now.row }
{
    &m.row.cells()[0]
}

// The labels that moves name, each once, ascending.
#[tactic(auto, using(ss_text::proofs::KeyLemmas::text_order))]
fn labels_moved(alloc: Global, moves: &[Signed]) -> Result<Vec<Text>, NoMemory>
    requires { All (λ m. 0 < length m.row) moves.now }
    ensures { IfOk result (λ labels. labels.items ≡ labels_moved moves.now) }
{
    let mut labels = Vec::new(alloc);
    for m in moves {
        labels.push(label_of(m).copy()?)?;
    }
    make_ascending(&mut labels)?;
    Ok(labels)
}

// A group without moves for each label.
fn empty_groups(alloc: Global, labels: Vec<Text>) -> Result<Vec<Group>, NoMemory>
    ensures { IfOk result (λ groups. groups.items ≡ grouped [] labels.items) }
{
    let mut groups = Vec::new(alloc);
    for label in labels {
        groups.push(Group {
            label,
            moves: Delta::none(alloc),
        })?;
    }
    Ok(groups)
}

// Puts a move behind the others of its label.
fn add_move(groups: &mut Vec<Group>, m: &Signed) -> Result<(), NoMemory>
    requires label { 0 < length m.now.row }
    requires ascend { IsStrictlySortedBy text_cmp (map group_label groups.old.items) }
    ensures { OnOk result (groups.new.items ≡ changed_where (λ g. text_eq (label_in m.now.row) g.label) (with_move m.now) groups.old.items) }
{
    let label = label_of(m);
    if let Ok(at) = groups.binary_search_by(|group| group.label.cmp(label)) {
        groups[at].moves.moves.push(m.copy()?)?;
    }
    Ok(())
}

/// The moves label by label, ascending, those of a label in their order.
pub fn groups_of(alloc: Global, change: &Delta) -> Result<Vec<Group>, NoMemory>
    requires { All (λ m. 0 < length m.row) change.now }
    ensures { IfOk result (λ groups. groups.items ≡ grouped change.now (labels_moved change.now)) }
{
    let labels = labels_moved(alloc, &change.moves)?;
    let mut groups = empty_groups(alloc, labels)?;
    for m in &change.moves {
        add_move(&mut groups, m)?;
    }
    Ok(groups)
}
