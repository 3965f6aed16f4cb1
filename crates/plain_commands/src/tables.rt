//! The tables of a view.
ghost use Rattle.std.specs.Prelude.{IfOk};
ghost use Rattle.view_def.specs.Query.{query_of};
ghost use Rattle.view_stages.specs.Stages.{refusal_of, files_of_view};
ghost use Rattle.plain_commands.specs.Steps.{Shows, AreNamed};
ghost use Rattle.view_stages.specs.Records.{HasRecords};

use bumpalo::Bump;
use flow_law::EvalFault;
use schema_model::Catalogue;
use ss_print::{clash_fields, illegal_fields};
use ss_text::{NoMemory, Row, Text};
use std::alloc::Global;
use valuation_meaning::{ViewFacts, ordered_facts};
use view_def::View;
use view_folder::{File, TableTexts};
use view_meaning::shape_of;

/// What a view gives over a catalogue: the files of its tables, or a refusal with these fields.
#[derive(Drop)]
pub(crate) enum Showing {
    Files(Vec<File>),
    Refused(Row),
}

// The files of a view's tables, in the order of their labels. They are written from the facts of the view, which stand
// in an arena for so long, and no table is made.
#[tactic(auto, using(view_stages::proofs::StageLemmas::meaning_fits, view_stages::proofs::StageLemmas::not_refused, view_stages::proofs::StageLemmas::refused_label, view_stages::proofs::StageLemmas::refused_clash), unfolding(view_stages::specs::Stages::files_of_view))]
pub(crate) fn show_tables(
    alloc: Global,
    catalogue: &Catalogue,
    view: &View,
) -> Result<Showing, NoMemory>
    requires { HasRecords (query_of view.now) }
    ensures shows { IfOk result (λ r. Shows r (refusal_of catalogue.now.databases (query_of view.now)) (files_of_view catalogue.now.databases (query_of view.now))) }
    ensures named { IfOk result AreNamed }
{
    let empty = Text::empty(alloc);
    let arena = Bump::new(alloc);
    let shape = shape_of(view)?;
    match ordered_facts(alloc, &arena, catalogue, view, &shape, &empty) {
        Ok(facts) => {
            let files = match facts {
                ViewFacts::Bare(facts) => facts.files(alloc, &shape)?,
                ViewFacts::WithCells(facts) => facts.files(alloc, &shape)?,
            };
            Ok(Showing::Files(files))
        }
        Err(EvalFault::Illegal(label)) => {
            let fields = illegal_fields(alloc, &label)?;
            Ok(Showing::Refused(fields))
        }
        Err(EvalFault::Conflict(clash)) => {
            let fields = clash_fields(alloc, &clash)?;
            Ok(Showing::Refused(fields))
        }
        Err(EvalFault::NoMemory) => Err(NoMemory),
    }
}
