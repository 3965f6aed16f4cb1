//! Answers to lines.
ghost use Rattle.std.specs.Prelude.{◌≡◌, ◌≢◌, ◌≤◌, false, None, IfErr, OnOk, IsTrue};
ghost use Rattle.tab_lines.specs.Lines.{has_feed};
ghost use Rattle.outside.specs.Effects.{Does, world_of};
ghost use Rattle.outside.specs.Blame.{Blames, SinkBlames};
ghost use Rattle.schema_model.specs.Changes.{is_well_formed};
ghost use Rattle.schema_model.specs.Reading.{change_of};
ghost use Rattle.schema_model.specs.Refusals.{fault};
ghost use Rattle.view_session.specs.Session.{working};
ghost use Rattle.view_session.specs.Limits as session_limit;
ghost use Rattle.opened_view.specs.Limits as limits;
ghost use Rattle.opened_view.specs.Limits.{IsWithin};
ghost use Rattle.opened_view.specs.Answers.{finish, answer, by_row, by_change, by_fault, syncing, end_view};

use crate::group::{answer_word, end_group, hold_change};
use opened_view::{OpenView, line_refusal, refused_fields, word_of};
use outside::{Folders, Sink, Stop};
use schema_model::Change;
use ss_print::{escape_fields, print_script};
use ss_text::{Row, Steps};
use std::alloc::Global;
use std::sync::ledger::Ledger;
use tab_lines::{LineFault, read_line};

// Answers a change where no group is open.
#[tactic(auto, using(outside::proofs::Following::following, opened_view::proofs::AnswerLemmas::accepted_view, opened_view::proofs::AnswerLemmas::refused_view))]
fn apply_change<K: Sink, L: Ledger>(
    alloc: Global,
    view: &mut OpenView,
    output: &mut K,
    change: &Change,
    steps: &mut Steps<L>,
) -> Result<(), Stop>
    requires well_formed { IsTrue (is_well_formed change.now) }
    requires idle { view.old.session.held ≡ None }
    ensures does { (s : _) → Does (by_fault view.old change.now (fault (working view.old.session) change.now)).effects (world_of s (K.state output.old)) (world_of s (K.state output.new)) result }
    ensures view { OnOk result (view.new ≡ (by_fault view.old change.now (fault (working view.old.session) change.now)).view) }
    ensures blames { SinkBlames (K.state output.old) (K.state output.new) result }
    ensures rises { steps.old ≤ steps.new }
    ensures within { IsWithin (session_limit.limit_of view.old.session change.now) steps.old steps.new }
{
    match view.session.apply(alloc, change, steps) {
        Ok(script) => print_script(alloc, output, &script),
        Err(refused) => {
            let fields = refused_fields(alloc, change, refused)?;
            view.refuse(alloc, output, fields)
        }
    }
}

// Answers a change.
#[tactic(auto, using(opened_view::proofs::ViewLemmas::none_open))]
fn answer_change<K: Sink, L: Ledger>(
    alloc: Global,
    view: &mut OpenView,
    output: &mut K,
    change: &Change,
    steps: &mut Steps<L>,
) -> Result<(), Stop>
    requires { IsTrue (is_well_formed change.now) }
    ensures does { (s : _) → Does (by_fault view.old change.now (fault (working view.old.session) change.now)).effects (world_of s (K.state output.old)) (world_of s (K.state output.new)) result }
    ensures view { OnOk result (view.new ≡ (by_fault view.old change.now (fault (working view.old.session) change.now)).view) }
    ensures blames { SinkBlames (K.state output.old) (K.state output.new) result }
    ensures rises { steps.old ≤ steps.new }
    ensures within { IsWithin (limits.limit_of_change view.old change.now) steps.old steps.new }
{
    if view.in_group() {
        hold_change(alloc, view, output, change)
    } else {
        apply_change(alloc, view, output, change, steps)
    }
}

// Answers a line that begins with no word that stands alone.
#[tactic(auto, using(outside::proofs::Following::following, opened_view::proofs::AnswerLemmas::unread_view))]
fn answer_change_line<K: Sink, L: Ledger>(
    alloc: Global,
    view: &mut OpenView,
    output: &mut K,
    row: &Row,
    steps: &mut Steps<L>,
) -> Result<(), Stop>
    ensures does { (s : _) → Does (by_change view.old row.now (change_of row.now)).effects (world_of s (K.state output.old)) (world_of s (K.state output.new)) result }
    ensures view { OnOk result (view.new ≡ (by_change view.old row.now (change_of row.now)).view) }
    ensures blames { SinkBlames (K.state output.old) (K.state output.new) result }
    ensures rises { steps.old ≤ steps.new }
    ensures within { IsWithin (limits.by_change view.old (change_of row.now)) steps.old steps.new }
{
    match Change::read(alloc, row) {
        Ok(change) => answer_change(alloc, view, output, &change, steps),
        Err(fault) => {
            let fields = line_refusal(alloc, row, fault)?;
            view.refuse(alloc, output, fields)
        }
    }
}

/// Answers the row of a line.
#[tactic(auto, using(outside::proofs::Following::following, opened_view::proofs::AnswerLemmas::words_does))]
pub fn answer_row<F: Folders, K: Sink, L: Ledger>(
    alloc: Global,
    view: &mut OpenView,
    store: &mut F,
    output: &mut K,
    row: &Row,
    steps: &mut Steps<L>,
) -> Result<(), Stop>
    ensures does { Does (by_row syncing view.old row.now).effects (world_of (F.state store.old) (K.state output.old)) (world_of (F.state store.new) (K.state output.new)) result }
    ensures view { OnOk result (view.new ≡ (by_row syncing view.old row.now).view) }
    ensures no_read { IfErr result (λ e. e ≢ Stop.ReadFault) }
    ensures blames { Blames (world_of (F.state store.old) (K.state output.old)) (world_of (F.state store.new) (K.state output.new)) result }
    ensures rises { steps.old ≤ steps.new }
    ensures within { IsWithin (limits.by_row view.old row.now) steps.old steps.new }
{
    match word_of(row) {
        Some(word) => answer_word(alloc, view, store, output, row, word, steps),
        None => answer_change_line(alloc, view, output, row, steps),
    }
}

/// Answers a line.
#[tactic(auto, using(outside::proofs::Following::following, opened_view::proofs::AnswerLemmas::spelled_does, opened_view::proofs::AnswerLemmas::unspelled_does))]
pub(crate) fn answer_line<F: Folders, K: Sink, L: Ledger>(
    alloc: Global,
    view: &mut OpenView,
    store: &mut F,
    output: &mut K,
    line: &[u8],
    steps: &mut Steps<L>,
) -> Result<(), Stop>
    requires { has_feed line.now ≡ false }
    ensures does { Does (answer view.old line.now).effects (world_of (F.state store.old) (K.state output.old)) (world_of (F.state store.new) (K.state output.new)) result }
    ensures view { OnOk result (view.new ≡ (answer view.old line.now).view) }
    ensures no_read { IfErr result (λ e. e ≢ Stop.ReadFault) }
    ensures blames { Blames (world_of (F.state store.old) (K.state output.old)) (world_of (F.state store.new) (K.state output.new)) result }
    ensures rises { steps.old ≤ steps.new }
    ensures within { IsWithin (limits.limit view.old line.now) steps.old steps.new }
{
    match read_line(alloc, line) {
        Ok(row) => answer_row(alloc, view, store, output, &row, steps),
        Err(LineFault::BadEscape { at }) => {
            let fields = escape_fields(alloc, at)?;
            view.refuse(alloc, output, fields)
        }
        Err(LineFault::NoMemory) => Err(Stop::NoMemory),
    }
}

/// Refuses an open group at the end of the input, and syncs.
#[tactic(auto, using(outside::proofs::Following::following, outside::proofs::EffectLemmas::partly_more, outside::proofs::EffectLemmas::partly_later, outside::proofs::EffectLemmas::performed_append))]
pub(crate) fn end_input<F: Folders, K: Sink>(
    alloc: Global,
    view: &mut OpenView,
    store: &mut F,
    output: &mut K,
) -> Result<(), Stop>
    ensures does { Does (finish view.old).effects (world_of (F.state store.old) (K.state output.old)) (world_of (F.state store.new) (K.state output.new)) result }
    ensures view { OnOk result (view.new ≡ end_view view.old) }
    ensures no_read { IfErr result (λ e. e ≢ Stop.ReadFault) }
    ensures blames { Blames (world_of (F.state store.old) (K.state output.old)) (world_of (F.state store.new) (K.state output.new)) result }
{
    end_group(alloc, view, output)?;
    view.write_changed(alloc, store, output)
}
