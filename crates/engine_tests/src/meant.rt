//! What sessions keep beside what views mean, after changes by chance.
ghost use Rattle.std.specs.Prelude.{◌≡◌, ◌<◌, None, IsTrue};
ghost use Rattle.schema_model.specs.Changes.{is_well_formed};
ghost use Rattle.view_def.specs.Query.{query_of};
ghost use Rattle.view_def.specs.Profile.{IsViewOfProfile};

use crate::building::{boxed, make, make_all, opened, typed};
use crate::chance::Chance;
use crate::same::are_same;
use flow_law::{EvalFault, Tables};
use schema_model::{Catalogue, Change, ChangeFault};
use ss_text::{NoMemory, Steps};
use std::alloc::Global;
use std::marker::Brand;
use std::sync::ledger::{Blank, Ledger};
use std::test::Fail;
use valuation_meaning::evaluate;
use view_def::View;
use view_session::{Refused, Session};

const VIEWS: &[&str] = &[
    // Values become columns, of one table and of one for each database.
    "create view V::t(a, D) as select T.a, T.c from d::r T, T.b D",
    "create view V::X(a, D) as select T.a, T.b from -> X, X::r T, T.c D where D <> ''",
    // Values become tables, and relations stay such.
    "create view V::D(a, c) as select T.a, T.c from d::r T, T.b D where D <> ''",
    "create view V::R(a, b) as select T.a, T.b from d -> R, d::R T",
    // Columns become values.
    "create view V::t(a, n, v) as select T.a, D, T.D from d::r -> D, d::r T where D <> 'a'",
    // A self-join, and joins of two relations, of which one makes tables and columns.
    "create view V::t(x, y) as select T.a, U.b from d::r T, d::r U where T.b = U.a",
    "create view V::t(x, y) as select T.a, S.b from d::r T, d::s S where T.b = S.a",
    "create view V::L(x, D) as select T.a, S.c from d::r T, d::s S, T.b L, S.b D where S.a = T.a and L <> ''",
    // Attributes, relations and databases as values, and cells alone.
    "create view V::t(r, n) as select R, D from d -> R, d::R -> D",
    "create view V::t(x, r, a) as select X, R, T.a from -> X, X -> R, X::R T",
    "create view V::t(p, q) as select P, Q from d::r.a P, d::s.b Q",
    // A condition with OR and NOT.
    "create view V::t(x, y) as select T.a, T.b from d::r T, d::s S where not (T.a = '1' or T.b < S.b) or T.c = S.a and T.a <> T.b",
];

// The changes that each catalogue begins with, before those by chance.
const BEFORE: &[&str] = &[
    "create-database d",
    "create-database e",
    "create-relation d r a b c",
    "create-relation d s a b c",
    "create-relation d t a b",
    "create-relation e r b c",
    "create-relation e s a b",
    "insert d r 1 b 2",
    "insert d r 2 1 ",
    "insert d s b 2 1",
    "insert e r 1 b",
];

// How many catalogues each view has, and how many changes each catalogue.
const CATALOGUES: u32 = 30;

const CHANGES: usize = 30;

// Makes tables those of a view over a catalogue, and tells whether it is not refused.
fn is_meant(
    alloc: Global,
    catalogue: &Catalogue,
    view: &View,
    tables: &mut Tables,
) -> Result<bool, NoMemory> {
    match evaluate(alloc, catalogue, view) {
        Ok(meant) => {
            *tables = meant;
            Ok(true)
        }
        Err(EvalFault::NoMemory) => Err(NoMemory),
        Err(EvalFault::Illegal(_) | EvalFault::Conflict(_)) => Ok(false),
    }
}

// Whether a view is refused over a catalogue.
fn is_refused(alloc: Global, catalogue: &Catalogue, view: &View) -> Result<bool, NoMemory> {
    let mut tables = Tables::new(alloc);
    let meant = is_meant(alloc, catalogue, view, &mut tables);
    drop(tables);
    Ok(!meant?)
}

// Whether the catalogue refuses a change, or the view is refused over the catalogue after it.
fn is_stopped(
    alloc: Global,
    catalogue: &Catalogue,
    view: &View,
    change: &Change,
) -> Result<bool, NoMemory>
    requires { IsTrue (is_well_formed change.now) }
{
    if catalogue.judge(change).is_some() {
        return Ok(true);
    }
    let mut after = catalogue.copy()?;
    let made = make(&mut after, change);
    let refused = is_refused(alloc, &after, view);
    drop(after);
    made?;
    refused
}

// Makes a change, and tells whether it was made.
fn is_made<L: Ledger>(
    alloc: Global,
    session: &mut Session,
    change: &Change,
    steps: &mut Steps<L>,
) -> Result<bool, NoMemory>
    requires well_formed { IsTrue (is_well_formed change.now) }
    requires idle { (session.old.held ≡ None) × (session.old.proposed ≡ None) }
    ensures { (session.new.held ≡ None) × (session.new.proposed ≡ None) }
{
    match session.apply(alloc, change, steps) {
        Ok(_) => Ok(true),
        Err(Refused::NoMemory) => Err(NoMemory),
        Err(Refused::Change(_) | Refused::Illegal(_) | Refused::Conflict(_)) => Ok(false),
    }
}

// Makes tables those after a change, which are as before where it was to be refused, and tells whether it was made or
// refused as it was to be.
fn is_due(
    alloc: Global,
    catalogue: &Catalogue,
    view: &View,
    change: &Change,
    made: bool,
    tables: &mut Tables,
) -> Result<bool, NoMemory>
    requires { IsTrue (is_well_formed change.now) }
{
    if made {
        is_meant(alloc, catalogue, view, tables)
    } else {
        is_stopped(alloc, catalogue, view, change)
    }
}

// Makes the next change, and tells whether the session then keeps the tables that it is to.
fn step<L: Ledger>(
    alloc: Global,
    session: &mut Session,
    view: &View,
    change: &Change,
    tables: &mut Tables,
    steps: &mut Steps<L>,
) -> Result<bool, NoMemory>
    requires well_formed { IsTrue (is_well_formed change.now) }
    requires idle { (session.old.held ≡ None) × (session.old.proposed ≡ None) }
    ensures { (session.new.held ≡ None) × (session.new.proposed ≡ None) }
{
    let made = is_made(alloc, session, change, steps)?;
    let due = is_due(alloc, session.catalogue(), view, change, made, tables)?;
    Ok(due && are_same(session.tables(), tables))
}

// The place of the first change, from 1, after which the session keeps other tables than it is to.
fn first_other<L: Ledger>(
    alloc: Global,
    session: &mut Session,
    view: &View,
    chance: &mut Chance,
    tables: &mut Tables,
    steps: &mut Steps<L>,
) -> Result<Option<usize>, ChangeFault>
    requires { (session.old.held ≡ None) × (session.old.proposed ≡ None) }
{
    for place in 0..CHANGES {
        let change = chance.change(alloc, session.catalogue())?;
        let same = step(alloc, session, view, &change, tables, steps);
        drop(change);
        if !same? {
            return Ok(Some(place + 1));
        }
    }
    Ok(None)
}

// The same of a session that was just opened, where the opening is the change at 0.
fn first_opened<L: Ledger>(
    alloc: Global,
    session: &mut Session,
    view: &View,
    chance: &mut Chance,
    steps: &mut Steps<L>,
) -> Result<Option<usize>, ChangeFault>
    requires { (session.old.held ≡ None) × (session.old.proposed ≡ None) }
{
    let mut tables = Tables::new(alloc);
    let meant = is_meant(alloc, session.catalogue(), view, &mut tables);
    let other = first_other(alloc, session, view, chance, &mut tables, steps);
    drop(tables);
    if !meant? {
        return Ok(Some(0));
    }
    other
}

// And over a catalogue, with the view once more.
fn first_over<L: Ledger>(
    alloc: Global,
    catalogue: &Catalogue,
    view: &View,
    same: Box<View>,
    chance: &mut Chance,
    blank: Blank,
) -> Result<Option<usize>, ChangeFault>
    requires profile { IsViewOfProfile (query_of same.value) }
    requires name { blank.name ≡ L.name }
    requires parts { blank.parts ≡ L.parts }
    requires some { 0 < L.parts }
{
    let mut steps = Steps::<L>::of(blank);
    let Some(mut session) = opened(alloc, catalogue, same, &mut steps)? else {
        let refused = is_refused(alloc, catalogue, view)?;
        return Ok(if refused { None } else { Some(0) });
    };
    let other = first_opened(alloc, &mut session, view, chance, &mut steps);
    drop(session);
    other
}

// Makes the changes before, and some by chance.
fn fill(
    alloc: Global,
    catalogue: &mut Catalogue,
    chance: &mut Chance,
    count: usize,
) -> Result<(), ChangeFault> {
    make_all(alloc, catalogue, BEFORE)?;
    chance.make(alloc, catalogue, count)
}

// And over the catalogue of a seed, which is put into one that has nothing.
fn first_filled(
    alloc: Global,
    catalogue: &mut Catalogue,
    text: &str,
    view: &View,
    seed: u32,
) -> Result<Option<usize>, Fail> {
    let mut chance = Chance::of(seed);
    fill(alloc, catalogue, &mut chance, (seed % 12) as usize)?;
    let same = boxed(alloc, text)?;
    let other = first_over::<Brand>(alloc, catalogue, view, same, &mut chance, Blank::new(1))?;
    Ok(other)
}

fn first_by(alloc: Global, text: &str, view: &View, seed: u32) -> Result<Option<usize>, Fail> {
    let mut catalogue = Catalogue::empty(alloc);
    let other = first_filled(alloc, &mut catalogue, text, view, seed);
    drop(catalogue);
    other
}

// The first seed and the place of the change at which the session of a view keeps other tables.
fn first_seed(alloc: Global, text: &str, view: &View) -> Result<Option<(u32, usize)>, Fail> {
    for seed in 0..CATALOGUES {
        if let Some(place) = first_by(alloc, text, view, seed)? {
            return Ok(Some((seed, place)));
        }
    }
    Ok(None)
}

fn first_of(alloc: Global, text: &str) -> Result<Option<(u32, usize)>, Fail> {
    let view = typed(alloc, text)?;
    let other = first_seed(alloc, text, &view);
    drop(view);
    other
}

#[test]
fn kept_tables_are_meant(rt: HostRuntime) -> Result<(), Fail> {
    for &view in VIEWS {
        assert_eq!(rt; first_of(rt.alloc(), view)?, None, "at {view}");
    }
    Ok(())
}
