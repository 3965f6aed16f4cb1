//! Stacks of sessions from texts.
ghost use Rattle.std.specs.Prelude.{◌≡◌, ◌∷◌, map, IfOk, IfSome, OnOk, IsTrue};
ghost use Rattle.std.specs.List.{AllByRecursion};
ghost use Rattle.ss_text.specs.Texts.{Text as TextValue};
ghost use Rattle.schema_model.specs.Changes.{is_well_formed};
ghost use Rattle.apply_law.specs.Standing.{Standing, Idle, tables_of};
ghost use Rattle.view_session.specs.Verdicts.{standing_of, waiting_of};
ghost use Rattle.view_stack.specs.Stands.{stands};
ghost use Rattle.view_stack.specs.Stacks.{AreStacked, AreIdle, IsStack};

mod chance;
mod worked;

use crate::building::boxed;
use apply_law::Applies;
use flow_law::EvalFault;
use schema_model::{Catalogue, Change};
use ss_text::{NoMemory, Seed, Steps, Text, table_label_legal};
use std::alloc::Global;
use std::sync::ledger::Ledger;
use std::test::Fail;
use view_session::Session;
use view_stack::{LiftFault, Stack, catalogue_of};

/// The database that the tables of a view are for the level above, and the view's text.
pub type Named = (&'static str, &'static str);

/// Makes changes of a catalogue one after another, and tells whether it refused none.
pub fn make_all(catalogue: &mut Catalogue, changes: &[Change]) -> Result<bool, NoMemory>
    requires { AllByRecursion (λ g. IsTrue (is_well_formed g)) changes.now }
{
    for change in changes {
        if catalogue.judge(change).is_some() {
            return Ok(false);
        }
        let ready = catalogue.reserve(change)?;
        catalogue.commit(ready);
    }
    Ok(true)
}

/// A session of a view over a catalogue, if the view is not refused over it.
pub fn session_over<L: Ledger>(
    alloc: Global,
    catalogue: Catalogue,
    text: &str,
    steps: &mut Steps<L>,
) -> Result<Option<Session>, Fail>
    ensures { IfOk result (λ told. IfSome told (λ session. (session.catalogue ≡ catalogue.databases) × (waiting_of session ≡ Idle))) }
{
    let view = boxed(alloc, text)?;
    match Session::open(alloc, catalogue, view, steps) {
        Ok(session) => Ok(Some(session)),
        Err(EvalFault::NoMemory) => Err(NoMemory.into()),
        Err(EvalFault::Illegal(_) | EvalFault::Conflict(_)) => Ok(None),
    }
}

/// The catalogue that the tables of a level are under a name, if it passes no limit.
pub fn catalogue_above<A: Applies>(
    alloc: Global,
    name: &Text,
    level: &A,
) -> Result<Option<Catalogue>, NoMemory>
    ensures { IfOk result (λ told. IfSome told (λ c. stands name.now (A.state level.now).shape (tables_of (A.state level.now)) c.databases)) }
{
    if !table_label_legal(name) {
        return Ok(None);
    }
    match catalogue_of(alloc, Seed::fixed(), name, level.shape(), level.tables()) {
        Ok(catalogue) => Ok(Some(catalogue)),
        Err(LiftFault::NoMemory) => Err(NoMemory),
        Err(LiftFault::Limit { .. }) => Ok(None),
    }
}

// Sessions over one another, and the names of the databases that their tables are.
#[derive(Drop)]
struct Levels {
    sessions: Vec<Session>,
    names: Vec<Text>,
}

impl Levels {
    // Puts a level below all others.
    fn put_below(&mut self, session: Session, name: Text) -> Result<(), NoMemory>
        ensures sessions { OnOk result (self.new.sessions.items ≡ session ∷ self.old.sessions.items) }
        ensures names { OnOk result (self.new.names.items ≡ name ∷ self.old.names.items) }
    {
        self.sessions.insert(0, session)?;
        self.names.insert(0, name)?;
        Ok(())
    }
}

// The sessions of views, the first over a catalogue and each other over the tables of the one before, if none is refused.
fn levels_over<L: Ledger>(
    alloc: Global,
    catalogue: Catalogue,
    views: &[Named],
    steps: &mut Steps<L>,
) -> Result<Option<Levels>, Fail>
    ensures stack { IfOk result (λ told. IfSome told (λ l. IsStack (map standing_of l.sessions.items) (map waiting_of l.sessions.items) l.names.items)) }
    ensures over { IfOk result (λ told. IfSome told (λ l. (s : Standing) (name : TextValue) → stands name s.shape (tables_of s) catalogue.databases
        → AreStacked (s ∷ map standing_of l.sessions.items) (name ∷ l.names.items))) }
{
    let Some(((db, text), above)) = views.split_first() else {
        return Ok(None);
    };
    let Some(session) = session_over(alloc, catalogue, text, steps)? else {
        return Ok(None);
    };
    let name = Text::of(alloc, db.as_bytes())?;
    let mut levels = Levels {
        sessions: Vec::new(alloc),
        names: Vec::new(alloc),
    };
    if !above.is_empty() {
        let Some(catalogue) = catalogue_above(alloc, &name, &session)? else {
            return Ok(None);
        };
        match levels_over(alloc, catalogue, above, steps)? {
            Some(others) => levels = others,
            None => return Ok(None),
        }
    }
    levels.put_below(session, name)?;
    Ok(Some(levels))
}

/// The stack of views over a catalogue, if none is refused.
pub fn stack_over<L: Ledger>(
    alloc: Global,
    catalogue: Catalogue,
    views: &[Named],
    steps: &mut Steps<L>,
) -> Result<Option<Stack<Session>>, Fail>
    ensures { IfOk result (λ told. IfSome told (λ s. IsStack (map standing_of s.levels) (map waiting_of s.levels) s.names)) }
{
    match levels_over(alloc, catalogue, views, steps)? {
        Some(levels) => {
            let Levels { sessions, names } = levels;
            Ok(Some(Stack::of(sessions, names)))
        }
        None => Ok(None),
    }
}
