//! The session that a run begins with.
ghost use Rattle.std.specs.Prelude.{◌≡◌, ◌≤◌, [], IfOk, OnOk};
ghost use Rattle.schema_model.specs.States.{settled};
ghost use Rattle.view_def.specs.declared.typed.Place.TheVariants.{Fixed};
ghost use Rattle.view_def.specs.declared.typed.Term.TheVariants.{Cell};
ghost use Rattle.view_def.specs.Query.{query_of};
ghost use Rattle.view_session.specs.Session.{opened};
ghost use Rattle.load_run.specs.Start.{header, catalogue, query};

use flow_law::EvalFault;
use schema_model::Catalogue;
use ss_text::{NoMemory, Row, Steps, Text};
use std::alloc::Global;
use std::sync::ledger::Ledger;
use view_def::{Place, Range, Term, View};
use view_session::Session;

// The view over the relation without rows, which has no facts and so is not refused.
#[tactic(auto, using(crate::proofs::StartLemmas::not_refused))]
pub(crate) fn session<L: Ledger>(alloc: Global, steps: &mut Steps<L>) -> Result<Session, NoMemory>
    ensures session { IfOk result (λ session. session ≡ opened query catalogue) }
    ensures rises { steps.old ≤ steps.new }
{
    let view = boxed_view(alloc)?;
    let catalogue = catalogue(alloc)?;
    match Session::open(alloc, catalogue, view, steps) {
        Ok(session) => Ok(session),
        Err(EvalFault::Illegal(_) | EvalFault::Conflict(_)) => unreachable!(),
        Err(EvalFault::NoMemory) => Err(NoMemory),
    }
}

fn boxed_view(alloc: Global) -> Result<Box<View>, NoMemory>
    ensures { IfOk result (λ view. query_of view.value ≡ query) }
{
    Ok(Box::new(alloc, view(alloc)?)?)
}

// The database `g` with the relation `r`, which has no rows.
fn catalogue(alloc: Global) -> Result<Catalogue, NoMemory>
    ensures { IfOk result (λ built. built ≡ settled catalogue) }
{
    let mut built = Catalogue::empty(alloc);
    match put_relation(alloc, &mut built) {
        Ok(()) => Ok(built),
        Err(fault) => Err(fault),
    }
}

// Puts them into a catalogue that has nothing.
#[tactic(auto, using(crate::proofs::StartLemmas::database_named, crate::proofs::StartLemmas::relation_named, crate::proofs::StartLemmas::header_sound))]
fn put_relation(alloc: Global, empty: &mut Catalogue) -> Result<(), NoMemory>
    requires { empty.old ≡ settled [] }
    ensures { OnOk result (empty.new ≡ settled catalogue) }
{
    empty.put_database(Text::of(alloc, b"g")?)?;
    let header = header(alloc)?;
    empty.put_relation(0, Text::of(alloc, b"r")?, header)?;
    Ok(())
}

// The attributes of the relation.
fn header(alloc: Global) -> Result<Row, NoMemory>
    ensures { IfOk result (λ row. row ≡ header) }
{
    let mut attributes = Vec::new(alloc);
    attributes.push(Text::of(alloc, b"k")?)?;
    attributes.push(Text::of(alloc, b"d")?)?;
    attributes.push(Text::of(alloc, b"v")?)?;
    Ok(Row::of(attributes))
}

/// The view `create view G::t(k, D) as select T.k, T.v from g::r T, T.d D`.
pub fn view(alloc: Global) -> Result<View, NoMemory>
    ensures { IfOk result (λ view. query_of view ≡ query) }
{
    let rows = Range::Tuples(name(alloc, b"g")?, name(alloc, b"r")?);
    let column = Range::Alias(0, name(alloc, b"d")?);
    Ok(View {
        view_db: Text::of(alloc, b"G")?,
        label: name(alloc, b"t")?,
        constants: Row::of(vec![in alloc; Text::of(alloc, b"k")?]?),
        keys: vec![in alloc; cell(alloc, b"k")?]?,
        spot: Some(1),
        column: Some(Place::Var(1)),
        value: Some(cell(alloc, b"v")?),
        decls: vec![in alloc; rows, column]?,
        filter: None,
    })
}

fn name(alloc: Global, name: &[u8]) -> Result<Place, NoMemory>
    ensures { IfOk result (λ place. place ≡ Fixed name.now) }
{
    Ok(Place::Fixed(Text::of(alloc, name)?))
}

// A cell of the relation's row.
fn cell(alloc: Global, attribute: &[u8]) -> Result<Term, NoMemory>
    ensures { IfOk result (λ term. term ≡ Cell 0 (Fixed attribute.now)) }
{
    Ok(Term::Cell(0, name(alloc, attribute)?))
}
