//! Opening an engine.
ghost use Rattle.std.specs.Prelude.{◌≡◌, ◌≤◌, [], None, IfOk};
ghost use Rattle.view_def.specs.Query.{query_of};
ghost use Rattle.view_def.specs.Profile.{IsViewOfProfile};
ghost use Rattle.fact_tables.specs.Counted.{EachAsOften, each_fact};
ghost use Rattle.view_meaning.specs.Meaning.{facts as view_facts, shape_of};
ghost use Rattle.view_meaning.specs.Refusal.{refusal};
ghost use Rattle.view_engine.specs.Forms.{KeepsTables};
ghost use Rattle.view_engine.specs.Engines.{view_in, EngineStands};

use crate::{Engine, ViewTables};
use fact_tables::{AllFacts, FactCell};
use plan_translate::translate;
use schema_model::Catalogue;
use ss_text::{NoMemory, Seed, Steps};
use std::alloc::Global;
use std::sync::ledger::Ledger;
use view_def::View;
use view_meaning::shape_of;

// The tables of a view, without facts, where so many are to come.
fn tables_of(alloc: Global, seed: Seed, view: &View, facts: usize) -> Result<ViewTables, NoMemory>
    requires { IsViewOfProfile (query_of view.now) }
    ensures { IfOk result (λ tables. KeepsTables (shape_of (query_of view.now)) tables []) }
{
    let shape = shape_of(view)?;
    let tables = ViewTables::new(alloc, seed, shape, facts)?;
    Ok(tables)
}

impl Engine {
    /// The engine of a view that is not refused over a catalogue, for which the engine stands. The facts are the view's over
    /// the catalogue.
    pub fn open<C: FactCell, L: Ledger>(
        alloc: Global,
        catalogue: &Catalogue,
        view: &View,
        facts: AllFacts<'_, C>,
        steps: &mut Steps<L>,
    ) -> Result<Engine, NoMemory>
        requires profile { IsViewOfProfile (query_of view.now) }
        requires allowed { refusal catalogue.now.databases (query_of view.now) ≡ None }
        requires facts { EachAsOften (view_facts catalogue.now.databases (query_of view.now)) (each_fact facts) }
        ensures view { IfOk result (λ engine. view_in engine ≡ query_of view.now) }
        ensures stands { IfOk result (EngineStands catalogue.now.databases) }
        ensures steps { steps.new ≡ steps.old }
        ensures rises { steps.old ≤ steps.new }
    {
        // What a catalogue has is sound.
        let _databases = catalogue.databases();
        let mut tables = tables_of(alloc, catalogue.seed(), view, facts.count_once())?;
        let mut plan = translate(alloc, catalogue.seed(), view)?;
        plan.fill(alloc, catalogue)?;
        tables.fill(alloc, facts)?;
        Ok(Engine { plan, tables })
    }
}
