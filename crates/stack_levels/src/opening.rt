//! Opens views over one another.
ghost use Rattle.std.specs.Prelude.{◌≡◌, ◌≤◌, ◌<◌, ◌+◌, ◌∷◌, [], ℕ, Option, None, length, option_map, IfOk, IfErr, OnOk, IfSome, IfNone};
ghost use Rattle.schema_model.specs.Catalogue.{CatalogueValue};
ghost use Rattle.schema_model.specs.declared.refusal.Which.{Which as WhichValue};
ghost use Rattle.view_def.specs.Query.{Query, query_of};
ghost use Rattle.flow_law.specs.Faults.{IsFault};
ghost use Rattle.view_meaning.specs.Refusal.{refusal};
ghost use Rattle.view_stack.specs.Limits.{first_limit, IsLiftFault};
ghost use Rattle.view_stages.specs.Stages.{refusal_of};
ghost use Rattle.view_stack.specs.Stands.{given_by};
ghost use Rattle.stack_levels.specs.Levels.{database_by, refused_at, one_up, limit_refusal, opening_refusal};
ghost use Rattle.stack_levels.specs.States.{AreLevels};
ghost use Rattle.stack_levels.specs.Opening.{defined_views, level_opened, levels_opened, AreFresh, IsOpenFault, IsAmong};
ghost use Rattle.stack_levels.specs.declared.refusal.LevelRefusal.{LevelRefusal as LevelRefusalValue};

use crate::refusal::limit_fields;
use crate::{Level, LevelRefusal, Levels, OpenFault};
use apply_law::Applies;
use flow_law::EvalFault;
use schema_model::Catalogue;
use ss_print::{clash_fields, illegal_fields};
use ss_text::{NoMemory, Steps};
use std::alloc::Global;
use std::sync::ledger::Ledger;
use view_stack::{LiftFault, catalogue_of};
use view_stages::Definition;

/// Opens views, the first over a catalogue and each other over the database that the tables of the one before it are; or
/// tells the first that is refused, or that could not read that database since it would pass a limit. No step is counted.
pub fn open<L: Ledger>(
    alloc: Global,
    catalogue: Catalogue,
    definitions: Vec<Definition>,
    steps: &mut Steps<L>,
) -> Result<Levels, OpenFault>
    requires { 1 ≤ length definitions.items }
    ensures opened { IfOk result (λ levels. levels ≡ levels_opened catalogue.databases (defined_views definitions.items)) }
    ensures unrefused { OnOk result (opening_refusal catalogue.databases (defined_views definitions.items) ≡ None) }
    ensures levels { IfOk result AreLevels }
    ensures fresh { IfOk result (λ levels. AreFresh levels catalogue.databases (defined_views definitions.items)) }
    ensures refused { IfErr result (IsOpenFault (opening_refusal catalogue.databases (defined_views definitions.items))) }
    ensures steps { steps.new ≡ steps.old }
{
    let levels = levels_over(alloc, catalogue, definitions, steps)?;
    let levels = Levels::of(alloc, levels)?;
    Ok(levels)
}

// The levels of views over a catalogue, or the first refusal.
fn levels_over<L: Ledger>(
    alloc: Global,
    catalogue: Catalogue,
    mut definitions: Vec<Definition>,
    steps: &mut Steps<L>,
) -> Result<Vec<Level>, OpenFault>
    ensures opened { IfOk result (λ levels. levels.items ≡ levels_opened catalogue.databases (defined_views definitions.items)) }
    ensures unrefused { OnOk result (opening_refusal catalogue.databases (defined_views definitions.items) ≡ None) }
    ensures refused { IfErr result (IsOpenFault (opening_refusal catalogue.databases (defined_views definitions.items))) }
    ensures within { IfErr result (IsAmong (length definitions.items)) }
    ensures steps { steps.new ≡ steps.old }
{
    let Some(definition) = take_first(&mut definitions) else {
        return Ok(Vec::new(alloc));
    };
    let level = level_over(alloc, catalogue, definition, steps)?;
    if definitions.is_empty() {
        let alone = put_below(Vec::new(alloc), level)?;
        return Ok(alone);
    }
    match given_by(alloc, &level) {
        Ok(given) => match levels_over(alloc, given, definitions, steps) {
            Ok(above) => {
                let levels = put_below(above, level)?;
                Ok(levels)
            }
            Err(fault) => Err(one_up(fault)),
        },
        Err(limit) => Err(limit),
    }
}

// Takes the first of definitions, if there is one.
fn take_first(definitions: &mut Vec<Definition>) -> Option<Definition>
    ensures none { IfNone result (definitions.old.items ≡ []) }
    ensures first { IfSome result (λ first. definitions.old.items ≡ first ∷ definitions.new.items) }
{
    if definitions.is_empty() {
        return None;
    }
    Some(definitions.remove(0))
}

// Levels with one more below.
fn put_below(mut levels: Vec<Level>, level: Level) -> Result<Vec<Level>, NoMemory>
    ensures { IfOk result (λ all. all.items ≡ level ∷ levels.items) }
{
    levels.insert(0, level)?;
    Ok(levels)
}

// The level of a view over a catalogue, as the lowest.
#[tactic(auto, using(view_stages::proofs::StageLemmas::not_refused))]
fn level_over<L: Ledger>(
    alloc: Global,
    catalogue: Catalogue,
    definition: Definition,
    steps: &mut Steps<L>,
) -> Result<Level, OpenFault>
    ensures level { IfOk result (λ level. level ≡ level_opened catalogue.databases (query_of definition.view.value)) }
    ensures unrefused { OnOk result (refusal_of catalogue.databases (query_of definition.view.value) ≡ None) }
    ensures refused { IfErr result (IsOpenFault (option_map (refused_at 1) (refusal_of catalogue.databases (query_of definition.view.value)))) }
    ensures within { IfErr result (IsAmong 1) }
    ensures steps { steps.new ≡ steps.old }
{
    match Level::open(alloc, catalogue, definition, steps) {
        Ok(level) => Ok(level),
        Err(fault) => Err(view_fault(alloc, fault)),
    }
}

// Why the lowest view is not opened.
#[tactic(auto, using(view_stages::proofs::StageLemmas::refused_label, view_stages::proofs::StageLemmas::refused_clash))]
fn view_fault(alloc: Global, fault: EvalFault) -> OpenFault
    ensures refused { (c : CatalogueValue) (q : Query) → IsFault (refusal c q) fault → IsOpenFault (option_map (refused_at 1) (refusal_of c q)) result }
    ensures within { IsAmong 1 result }
{
    match fault {
        EvalFault::Illegal(label) => OpenFault::at(1, illegal_fields(alloc, &label)),
        EvalFault::Conflict(clash) => OpenFault::at(1, clash_fields(alloc, &clash)),
        EvalFault::NoMemory => OpenFault::NoMemory,
    }
}

// The catalogue that the tables of a level are for the level above, or the limit that it would pass.
fn given_by(alloc: Global, level: &Level) -> Result<Catalogue, OpenFault>
    ensures given { IfOk result (λ c. c.databases ≡ given_by level.now.session.catalogue level.now.session.query) }
    ensures within { OnOk result (first_limit (database_by level.now.session.catalogue level.now.session.query) ≡ None) }
    ensures refused { IfErr result (IsOpenFault (option_map limit_refusal (first_limit (database_by level.now.session.catalogue level.now.session.query)))) }
    ensures among { IfErr result (IsAmong 2) }
{
    let seed = level.session().catalogue().seed();
    match catalogue_of(alloc, seed, level.view_db(), level.shape(), level.tables()) {
        Ok(catalogue) => Ok(catalogue),
        Err(fault) => Err(limit_fault(alloc, fault)),
    }
}

// Why the view above the lowest could not read what that one gives.
fn limit_fault(alloc: Global, fault: LiftFault) -> OpenFault
    ensures refused { (o : Option WhichValue) → IsLiftFault o fault → IsOpenFault (option_map limit_refusal o) result }
    ensures within { IsAmong 2 result }
{
    match fault {
        LiftFault::Limit { which } => OpenFault::at(2, limit_fields(alloc, which)),
        LiftFault::NoMemory => OpenFault::NoMemory,
    }
}

// The same with one more view below.
fn one_up(fault: OpenFault) -> OpenFault
    requires { (n : ℕ) × IsAmong n fault × (n < usize.MAX) }
    ensures refused { (o : Option LevelRefusalValue) → IsOpenFault o fault → IsOpenFault (option_map one_up o) result }
    ensures within { (n : ℕ) → IsAmong n fault → IsAmong (n + 1) result }
{
    match fault {
        OpenFault::Refused(LevelRefusal { level, fields }) => OpenFault::Refused(LevelRefusal {
            level: level + 1,
            fields,
        }),
        OpenFault::NoMemory => OpenFault::NoMemory,
    }
}
