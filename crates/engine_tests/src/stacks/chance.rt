//! Stacks after changes by chance, beside stacks that are opened anew over the changed sources.
ghost use Rattle.std.specs.Prelude.{◌≡◌, ◌<◌, map, IsTrue};
ghost use Rattle.std.specs.List.{AllByRecursion};
ghost use Rattle.schema_model.specs.Changes.{is_well_formed};
ghost use Rattle.view_session.specs.Verdicts.{standing_of, waiting_of};
ghost use Rattle.view_stack.specs.Stacks.{IsStack};

use crate::building::changes_of;
use crate::kept::are_same;
use crate::stacks::{Named, make_all, stack_over};
use apply_law::GroupRefused;
use schema_model::{Catalogue, Change};
use ss_text::{NoMemory, Steps};
use std::alloc::Global;
use std::marker::Brand;
use std::sync::ledger::{Blank, Ledger};
use std::test::Fail;
use view_session::Session;
use view_stack::{Stack, StackRefused};

const STACKS: [&[Named]; 3] = [
    // Values become columns, and columns values.
    &[
        (
            "L",
            "create view L::t(a, D) as select T.a, T.c from d::r T, T.b D",
        ),
        (
            "M",
            "create view M::u(a, n, v) as select T.a, D, T.D from L::t -> D, L::t T where D <> 'a'",
        ),
    ],
    // Values become tables, tables values, and these columns.
    &[
        (
            "L",
            "create view L::D(a, c) as select T.a, T.c from d::r T, T.b D where D <> ''",
        ),
        (
            "M",
            "create view M::u(r, a, c) as select R, T.a, T.c from L -> R, L::R T",
        ),
        (
            "N",
            "create view N::w(a, D) as select T.a, T.c from M::u T, T.r D",
        ),
    ],
    // A level above refuses what the one below takes, and joins it with itself.
    &[
        ("L", "create view L::t(a, b) as select T.a, T.b from d::r T"),
        (
            "M",
            "create view M::u(a, D) as select T.b, U.a from L::t T, L::t U, T.a D where T.b = U.b",
        ),
    ],
];

const BEFORE: [&str; 3] = [
    "create-database d",
    "create-relation d r a b c",
    "insert d r 1 x 2",
];

const CHANGES: [&str; 24] = [
    "insert d r 1 x 2",
    "insert d r 1 y 2",
    "insert d r 1 y 3",
    "insert d r 2 x 3",
    "insert d r 2 y ",
    "insert d r 3 z 1",
    "insert d r 3 x ",
    "insert d r  z 2",
    "delete d r 1 x 2",
    "delete d r 1 y 2",
    "delete d r 1 y 3",
    "delete d r 2 x 3",
    "delete d r 2 y ",
    "delete d r 3 z 1",
    "delete d r 3 x ",
    "delete d r  z 2",
    "rename-attribute d r b e",
    "rename-attribute d r e b",
    "rename-attribute d r c g",
    "rename-attribute d r g c",
    "add-attribute d r h 5",
    "drop-attribute d r h",
    "rename-relation d r q",
    "rename-relation d q r",
];

// How many sources each stack has, and how many groups of changes each of these.
const SOURCES: u32 = 4;

const GROUPS: usize = 16;

// A counter that tells what comes next.
#[derive(Clone, Copy)]
struct Chance {
    state: u32,
}

impl Chance {
    // One of the changes.
    fn change(&mut self) -> &'static str {
        self.state = self
            .state
            .wrapping_mul(1_664_525)
            .wrapping_add(1_013_904_223);
        let place = (self.state >> 16) as usize % CHANGES.len();
        CHANGES[place]
    }

    // Two changes out of three, and else one.
    fn group(&mut self, alloc: Global) -> Result<Vec<&'static str>, NoMemory> {
        let mut lines = Vec::new(alloc);
        lines.push(self.change())?;
        if self.state % 3 != 0 {
            lines.push(self.change())?;
        }
        Ok(lines)
    }
}

// Whether each level has the same tables as that of another stack.
fn are_all_same(
    alloc: Global,
    stack: &Stack<Session>,
    other: &Stack<Session>,
) -> Result<bool, NoMemory> {
    if stack.count() != other.count() {
        return Ok(false);
    }
    for place in 0..stack.count() {
        if !are_same(
            alloc,
            stack.level(place).tables(),
            other.level(place).tables(),
        )? {
            return Ok(false);
        }
    }
    Ok(true)
}

// Makes changes of a stack, and tells whether they were made.
fn is_made<L: Ledger>(
    alloc: Global,
    stack: &mut Stack<Session>,
    changes: &[Change],
    steps: &mut Steps<L>,
) -> Result<bool, NoMemory>
    requires stack { IsStack (map standing_of stack.old.levels) (map waiting_of stack.old.levels) stack.old.names }
    requires well_formed { AllByRecursion (λ g. IsTrue (is_well_formed g)) changes.now }
    ensures { IsStack (map standing_of stack.new.levels) (map waiting_of stack.new.levels) stack.new.names }
{
    match stack.apply(alloc, changes, steps) {
        Ok(_) => Ok(true),
        Err(
            StackRefused {
                why: GroupRefused::NoMemory,
                ..
            },
        ) => Err(NoMemory),
        Err(_) => Ok(false),
    }
}

// Whether a stack has the tables of one that is opened over a catalogue, or where none is opened.
fn is_as_opened<L: Ledger>(
    alloc: Global,
    catalogue: Catalogue,
    views: &[Named],
    stack: &Stack<Session>,
    steps: &mut Steps<L>,
) -> Result<Option<bool>, Fail> {
    match stack_over(alloc, catalogue, views, steps)? {
        Some(opened) => Ok(Some(are_all_same(alloc, stack, &opened)?)),
        None => Ok(None),
    }
}

// Makes changes of a stack, and tells whether it then has the tables of one that is opened over the changed sources, or
// where these or a view refuse, of one over the sources before.
fn is_due<L: Ledger>(
    alloc: Global,
    stack: &mut Stack<Session>,
    views: &[Named],
    changes: &[Change],
    steps: &mut Steps<L>,
) -> Result<bool, Fail>
    requires stack { IsStack (map standing_of stack.old.levels) (map waiting_of stack.old.levels) stack.old.names }
    requires well_formed { AllByRecursion (λ g. IsTrue (is_well_formed g)) changes.now }
    ensures { IsStack (map standing_of stack.new.levels) (map waiting_of stack.new.levels) stack.new.names }
{
    if stack.count() == 0 {
        return Ok(false);
    }
    let before = stack.level(0).catalogue().copy()?;
    let mut after = before.copy()?;
    let accepted = make_all(&mut after, changes)?;
    let made = is_made(alloc, stack, changes, steps)?;
    let as_changed = is_as_opened(alloc, after, views, stack, steps)?;
    if made {
        return Ok(accepted && as_changed == Some(true));
    }
    let as_before = is_as_opened(alloc, before, views, stack, steps)?;
    Ok(as_before == Some(true) && !(accepted && as_changed.is_some()))
}

// The place of the first group, from 1, after which a stack has other tables than it is to.
fn first_other<L: Ledger>(
    alloc: Global,
    stack: &mut Stack<Session>,
    views: &[Named],
    chance: &mut Chance,
    steps: &mut Steps<L>,
) -> Result<Option<usize>, Fail>
    requires { IsStack (map standing_of stack.old.levels) (map waiting_of stack.old.levels) stack.old.names }
{
    for place in 0..GROUPS {
        let lines = chance.group(alloc)?;
        let changes = changes_of(alloc, &lines)?;
        if !is_due(alloc, stack, views, &changes, steps)? {
            return Ok(Some(place + 1));
        }
    }
    Ok(None)
}

// That of a stack over a catalogue, where the opening is the group at 0.
fn first_over<L: Ledger>(
    alloc: Global,
    catalogue: Catalogue,
    views: &[Named],
    chance: &mut Chance,
    blank: Blank,
) -> Result<Option<usize>, Fail>
    requires name { blank.name ≡ L.name }
    requires parts { blank.parts ≡ L.parts }
    requires some { 0 < L.parts }
{
    let mut steps = Steps::<L>::of(blank);
    let Some(mut stack) = stack_over(alloc, catalogue, views, &mut steps)? else {
        return Ok(Some(0));
    };
    first_other(alloc, &mut stack, views, chance, &mut steps)
}

fn first_by(alloc: Global, views: &[Named], seed: u32) -> Result<Option<usize>, Fail> {
    let mut catalogue = Catalogue::empty(alloc);
    let before = changes_of(alloc, &BEFORE)?;
    make_all(&mut catalogue, &before)?;
    let mut chance = Chance { state: seed };
    let other = first_over::<Brand>(alloc, catalogue, views, &mut chance, Blank::new(1))?;
    Ok(other)
}

// The first seed, and the place of the group after which a stack has other tables.
fn first_of(alloc: Global, views: &[Named]) -> Result<Option<(u32, usize)>, Fail> {
    for seed in 0..SOURCES {
        if let Some(place) = first_by(alloc, views, seed)? {
            return Ok(Some((seed, place)));
        }
    }
    Ok(None)
}

#[test]
fn levels_are_as_opened(rt: HostRuntime) -> Result<(), Fail> {
    for (place, views) in STACKS.iter().enumerate() {
        assert_eq!(rt; first_of(rt.alloc(), views)?, None, "at {place}");
    }
    Ok(())
}
