//! Answers to the lines of a group, and to the words that stand alone.
ghost use Rattle.std.specs.Prelude.{◌≡◌, ◌≢◌, ◌≤◌, None, IfErr, OnOk, IsTrue, true, is_some};
ghost use Rattle.outside.specs.Effects.{Does, world_of};
ghost use Rattle.outside.specs.Blame.{Blames, SinkBlames};
ghost use Rattle.schema_model.specs.Changes.{is_well_formed};
ghost use Rattle.schema_model.specs.Refusals.{fault};
ghost use Rattle.view_session.specs.Session.{working};
ghost use Rattle.ss_print.specs.Fields.{in_group_fields, no_group_fields};
ghost use Rattle.view_stages.specs.Stages.{refusal_of};
ghost use Rattle.opened_view.specs.Limits as limits;
ghost use Rattle.opened_view.specs.Limits.{IsWithin};
ghost use Rattle.opened_view.specs.Answers.{by_fault, refusing, syncing, end_view, by_fields, by_word, by_broken, by_group, beginning, aborting, giving_up, end_effects};
ghost use Rattle.opened_view.specs.declared.word.Word.TheVariants as word;

use opened_view::{OpenView, Word, fault_fields, held_fields};
use outside::{Folders, Sink, Stop};
use schema_model::{Change, ChangeFault};
use ss_print::{
    group_broken_fields, in_group_fields, line_fields, no_group_fields, open_group_fields,
    print_aborted, print_begun, print_held, print_script,
};
use ss_text::{Row, Steps};
use std::alloc::Global;
use std::sync::ledger::Ledger;

// Refuses a line that does not stand in a group.
#[tactic(auto, using(outside::proofs::Following::following))]
fn refuse_inside<K: Sink>(
    alloc: Global,
    view: &mut OpenView,
    output: &mut K,
    row: &Row,
) -> Result<(), Stop>
    ensures does { (s : _) → Does (refusing view.old (in_group_fields row.now)).effects (world_of s (K.state output.old)) (world_of s (K.state output.new)) result }
    ensures view { OnOk result (view.new ≡ (refusing view.old (in_group_fields row.now)).view) }
    ensures blames { SinkBlames (K.state output.old) (K.state output.new) result }
{
    let fields = in_group_fields(alloc, row)?;
    view.refuse(alloc, output, fields)
}

// Refuses a line that stands only in a group.
#[tactic(auto, using(outside::proofs::Following::following))]
fn refuse_outside<K: Sink>(
    alloc: Global,
    view: &mut OpenView,
    output: &mut K,
    row: &Row,
) -> Result<(), Stop>
    ensures does { (s : _) → Does (refusing view.old (no_group_fields row.now)).effects (world_of s (K.state output.old)) (world_of s (K.state output.new)) result }
    ensures view { OnOk result (view.new ≡ (refusing view.old (no_group_fields row.now)).view) }
    ensures blames { SinkBlames (K.state output.old) (K.state output.new) result }
{
    let fields = no_group_fields(alloc, row)?;
    view.refuse(alloc, output, fields)
}

// Opens a group.
#[tactic(auto, using(outside::proofs::Following::following))]
fn begin_group<K: Sink>(alloc: Global, view: &mut OpenView, output: &mut K) -> Result<(), Stop>
    requires { view.old.session.held ≡ None }
    ensures does { (s : _) → Does (beginning view.old).effects (world_of s (K.state output.old)) (world_of s (K.state output.new)) result }
    ensures view { OnOk result (view.new ≡ (beginning view.old).view) }
    ensures blames { SinkBlames (K.state output.old) (K.state output.new) result }
{
    print_begun(alloc, output)?;
    view.session.begin(alloc);
    view.broken = 0;
    Ok(())
}

/// Answers a change in a group.
#[tactic(auto, using(outside::proofs::Following::following, opened_view::proofs::AnswerLemmas::held_view, opened_view::proofs::AnswerLemmas::unheld_view))]
pub(crate) fn hold_change<K: Sink>(
    alloc: Global,
    view: &mut OpenView,
    output: &mut K,
    change: &Change,
) -> Result<(), Stop>
    requires inside { is_some view.old.session.held ≡ true }
    requires well_formed { IsTrue (is_well_formed change.now) }
    ensures does { (s : _) → Does (by_fault view.old change.now (fault (working view.old.session) change.now)).effects (world_of s (K.state output.old)) (world_of s (K.state output.new)) result }
    ensures view { OnOk result (view.new ≡ (by_fault view.old change.now (fault (working view.old.session) change.now)).view) }
    ensures blames { SinkBlames (K.state output.old) (K.state output.new) result }
{
    match view.session.hold(alloc, change) {
        Ok(()) => print_held(alloc, output),
        Err(refused) => {
            let fields = held_fields(alloc, change, &refused)?;
            view.refuse(alloc, output, fields)
        }
    }
}

// Gives a group up.
#[tactic(auto, using(outside::proofs::Following::following))]
fn abort_group<K: Sink>(alloc: Global, view: &mut OpenView, output: &mut K) -> Result<(), Stop>
    requires { is_some view.old.session.held ≡ true }
    ensures does { (s : _) → Does (aborting view.old).effects (world_of s (K.state output.old)) (world_of s (K.state output.new)) result }
    ensures view { OnOk result (view.new ≡ (aborting view.old).view) }
    ensures blames { SinkBlames (K.state output.old) (K.state output.new) result }
{
    print_aborted(alloc, output)?;
    view.session.abort_group();
    view.broken = 0;
    Ok(())
}

// Refuses a group, which gives it up.
#[tactic(auto, using(outside::proofs::Following::following))]
fn give_up<K: Sink>(
    alloc: Global,
    view: &mut OpenView,
    output: &mut K,
    fields: Row,
) -> Result<(), Stop>
    requires { is_some view.old.session.held ≡ true }
    ensures does { (s : _) → Does (giving_up view.old fields).effects (world_of s (K.state output.old)) (world_of s (K.state output.new)) result }
    ensures view { OnOk result (view.new ≡ (giving_up view.old fields).view) }
    ensures blames { SinkBlames (K.state output.old) (K.state output.new) result }
{
    view.session.abort_group();
    view.refuse_group(alloc, output, fields)
}

// Makes the changes of a group, or refuses it.
#[tactic(auto, using(outside::proofs::Following::following, opened_view::proofs::AnswerLemmas::made_view, opened_view::proofs::AnswerLemmas::stopped_view))]
fn make_group<K: Sink, L: Ledger>(
    alloc: Global,
    view: &mut OpenView,
    output: &mut K,
    steps: &mut Steps<L>,
) -> Result<(), Stop>
    requires { is_some view.old.session.held ≡ true }
    ensures does { (s : _)
        → Does (by_group view.old (refusal_of (working view.old.session) view.old.session.query)).effects (world_of s (K.state output.old)) (world_of s (K.state output.new)) result }
    ensures view { OnOk result (view.new ≡ (by_group view.old (refusal_of (working view.old.session) view.old.session.query)).view) }
    ensures blames { SinkBlames (K.state output.old) (K.state output.new) result }
    ensures rises { steps.old ≤ steps.new }
{
    match view.session.commit_group(alloc, steps) {
        Ok(script) => {
            view.broken = 0;
            print_script(alloc, output, &script)
        }
        Err(fault) => {
            let fields = fault_fields(alloc, fault)?;
            view.refuse_group(alloc, output, fields)
        }
    }
}

// Ends a group, which is refused where a line was.
#[tactic(auto, using(outside::proofs::Following::following, opened_view::proofs::AnswerLemmas::unbroken_view, opened_view::proofs::AnswerLemmas::broken_view, opened_view::proofs::AnswerLemmas::unbroken_does))]
fn commit_group<K: Sink, L: Ledger>(
    alloc: Global,
    view: &mut OpenView,
    output: &mut K,
    steps: &mut Steps<L>,
) -> Result<(), Stop>
    requires { is_some view.old.session.held ≡ true }
    ensures does { (s : _) → Does (by_broken view.old view.old.broken).effects (world_of s (K.state output.old)) (world_of s (K.state output.new)) result }
    ensures view { OnOk result (view.new ≡ (by_broken view.old view.old.broken).view) }
    ensures blames { SinkBlames (K.state output.old) (K.state output.new) result }
    ensures rises { steps.old ≤ steps.new }
{
    if view.broken == 0 {
        return make_group(alloc, view, output, steps);
    }
    let fields = group_broken_fields(alloc, view.broken)?;
    give_up(alloc, view, output, fields)
}

// Answers `begin` alone.
#[tactic(auto, using(outside::proofs::Following::following, opened_view::proofs::ViewLemmas::none_open))]
fn answer_begin<K: Sink>(
    alloc: Global,
    view: &mut OpenView,
    output: &mut K,
    row: &Row,
) -> Result<(), Stop>
    ensures does { (s : _) → Does (by_word syncing view.old row.now word.Begin).effects (world_of s (K.state output.old)) (world_of s (K.state output.new)) result }
    ensures view { OnOk result (view.new ≡ (by_word syncing view.old row.now word.Begin).view) }
    ensures blames { SinkBlames (K.state output.old) (K.state output.new) result }
{
    if view.in_group() {
        refuse_inside(alloc, view, output, row)
    } else {
        begin_group(alloc, view, output)
    }
}

// Answers `commit` alone.
#[tactic(auto, using(outside::proofs::Following::following))]
fn answer_commit<K: Sink, L: Ledger>(
    alloc: Global,
    view: &mut OpenView,
    output: &mut K,
    row: &Row,
    steps: &mut Steps<L>,
) -> Result<(), Stop>
    ensures does { (s : _) → Does (by_word syncing view.old row.now word.Commit).effects (world_of s (K.state output.old)) (world_of s (K.state output.new)) result }
    ensures view { OnOk result (view.new ≡ (by_word syncing view.old row.now word.Commit).view) }
    ensures blames { SinkBlames (K.state output.old) (K.state output.new) result }
    ensures rises { steps.old ≤ steps.new }
    ensures within { IsWithin (limits.by_word view.old word.Commit) steps.old steps.new }
{
    if view.in_group() {
        commit_group(alloc, view, output, steps)
    } else {
        refuse_outside(alloc, view, output, row)
    }
}

// Answers `abort` alone.
#[tactic(auto, using(outside::proofs::Following::following))]
fn answer_abort<K: Sink>(
    alloc: Global,
    view: &mut OpenView,
    output: &mut K,
    row: &Row,
) -> Result<(), Stop>
    ensures does { (s : _) → Does (by_word syncing view.old row.now word.Abort).effects (world_of s (K.state output.old)) (world_of s (K.state output.new)) result }
    ensures view { OnOk result (view.new ≡ (by_word syncing view.old row.now word.Abort).view) }
    ensures blames { SinkBlames (K.state output.old) (K.state output.new) result }
{
    if view.in_group() {
        abort_group(alloc, view, output)
    } else {
        refuse_outside(alloc, view, output, row)
    }
}

// Answers `sync` alone.
#[tactic(auto, using(outside::proofs::Following::following, opened_view::proofs::ViewLemmas::none_open))]
fn answer_sync<F: Folders, K: Sink>(
    alloc: Global,
    view: &mut OpenView,
    store: &mut F,
    output: &mut K,
    row: &Row,
) -> Result<(), Stop>
    ensures does { Does (by_word syncing view.old row.now word.Sync).effects (world_of (F.state store.old) (K.state output.old)) (world_of (F.state store.new) (K.state output.new)) result }
    ensures view { OnOk result (view.new ≡ (by_word syncing view.old row.now word.Sync).view) }
    ensures no_read { IfErr result (λ e. e ≢ Stop.ReadFault) }
    ensures blames { Blames (world_of (F.state store.old) (K.state output.old)) (world_of (F.state store.new) (K.state output.new)) result }
{
    if view.in_group() {
        refuse_inside(alloc, view, output, row)
    } else {
        view.sync(alloc, store, output)
    }
}

// Answers a word alone.
#[tactic(auto, using(outside::proofs::Following::following))]
fn answer_alone<F: Folders, K: Sink, L: Ledger>(
    alloc: Global,
    view: &mut OpenView,
    store: &mut F,
    output: &mut K,
    row: &Row,
    word: Word,
    steps: &mut Steps<L>,
) -> Result<(), Stop>
    ensures does { Does (by_word syncing view.old row.now word).effects (world_of (F.state store.old) (K.state output.old)) (world_of (F.state store.new) (K.state output.new)) result }
    ensures view { OnOk result (view.new ≡ (by_word syncing view.old row.now word).view) }
    ensures no_read { IfErr result (λ e. e ≢ Stop.ReadFault) }
    ensures blames { Blames (world_of (F.state store.old) (K.state output.old)) (world_of (F.state store.new) (K.state output.new)) result }
    ensures rises { steps.old ≤ steps.new }
    ensures within { IsWithin (limits.by_word view.old word) steps.old steps.new }
{
    match word {
        Word::Begin => answer_begin(alloc, view, output, row),
        Word::Commit => answer_commit(alloc, view, output, row, steps),
        Word::Abort => answer_abort(alloc, view, output, row),
        Word::Sync => answer_sync(alloc, view, store, output, row),
    }
}

/// Answers a line that begins with a word.
#[tactic(auto, using(outside::proofs::Following::following, opened_view::proofs::AnswerLemmas::one_word_does, opened_view::proofs::AnswerLemmas::one_word_view, opened_view::proofs::AnswerLemmas::more_words_view))]
pub(crate) fn answer_word<F: Folders, K: Sink, L: Ledger>(
    alloc: Global,
    view: &mut OpenView,
    store: &mut F,
    output: &mut K,
    row: &Row,
    word: Word,
    steps: &mut Steps<L>,
) -> Result<(), Stop>
    ensures does { Does (by_fields syncing view.old row.now word).effects (world_of (F.state store.old) (K.state output.old)) (world_of (F.state store.new) (K.state output.new)) result }
    ensures view { OnOk result (view.new ≡ (by_fields syncing view.old row.now word).view) }
    ensures no_read { IfErr result (λ e. e ≢ Stop.ReadFault) }
    ensures blames { Blames (world_of (F.state store.old) (K.state output.old)) (world_of (F.state store.new) (K.state output.new)) result }
    ensures rises { steps.old ≤ steps.new }
    ensures within { IsWithin (limits.by_fields view.old row.now word) steps.old steps.new }
{
    let got = row.cells().len();
    if got == 1 {
        return answer_alone(alloc, view, store, output, row, word, steps);
    }
    let fields = line_fields(alloc, row, ChangeFault::FieldCount { got })?;
    view.refuse(alloc, output, fields)
}

/// Refuses an open group at the end of the input.
#[tactic(auto, using(outside::proofs::Following::following))]
pub fn end_group<K: Sink>(alloc: Global, view: &mut OpenView, output: &mut K) -> Result<(), Stop>
    ensures does { (s : _) → Does (end_effects view.old) (world_of s (K.state output.old)) (world_of s (K.state output.new)) result }
    ensures view { OnOk result (view.new ≡ end_view view.old) }
    ensures blames { SinkBlames (K.state output.old) (K.state output.new) result }
{
    match view.session.held() {
        Some(changes) => {
            let fields = open_group_fields(alloc, changes)?;
            give_up(alloc, view, output, fields)
        }
        None => Ok(()),
    }
}
