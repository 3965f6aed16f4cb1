//! What is answered to arrivals.
ghost use Rattle.std.specs.Prelude.{◌≡◌, ◌<◌, ◌≤◌, IfOk, IsTrue};
ghost use Rattle.schema_model.specs.Changes.{is_well_formed};
ghost use Rattle.apply_law.specs.Standing.{Idle};

use crate::Plain;
use apply_law::Applies;
use feed_core::{Arrival, Feeds, Outcome};
use flow_law::Shape;
use schema_model::{Catalogue, Change};
use ss_text::{Row, Seed, Steps, Text};
use std::alloc::Global;
use std::marker::Brand;
use std::sync::ledger::{Blank, Ledger};
use std::test::Fail;

// A source, a number, the fields of a change, parted by spaces, what is answered, and whether its reply is a refusal.
type Sent = (&'static str, u64, &'static str, Outcome, bool);

const SENT: &[Sent] = &[
    // The second of a source before its first, and its first twice.
    (
        "hr",
        2,
        "create-relation d r a",
        Outcome::Early { want: 1 },
        false,
    ),
    ("hr", 1, "create-database d", Outcome::Fresh, false),
    ("hr", 1, "create-database d", Outcome::Kept, false),
    // Another source has numbers of its own. What is refused has used its number.
    ("pay", 1, "create-database d", Outcome::Fresh, true),
    ("pay", 1, "create-database d", Outcome::Kept, true),
    ("pay", 1, "create-database e", Outcome::OtherChange, true),
    ("pay", 2, "create-database e", Outcome::Fresh, false),
    // What came first does not change what is kept.
    ("hr", 2, "drop-database d", Outcome::Fresh, false),
    ("pay", 1, "create-database d", Outcome::Kept, true),
    ("hr", 1, "create-database d", Outcome::Kept, false),
    (
        "hr",
        4,
        "drop-database e",
        Outcome::Early { want: 3 },
        false,
    ),
];

// The change that a line says, its fields parted by spaces.
fn change(alloc: Global, line: &str) -> Result<Change, Fail>
    ensures { IfOk result (λ change. IsTrue (is_well_formed change)) }
{
    let mut cells = Vec::new(alloc);
    for cell in line.split(' ') {
        cells.push(Text::of(alloc, cell.as_bytes())?)?;
    }
    Ok(Change::read(alloc, &Row::of(cells))?)
}

// What is answered to an arrival, and whether its reply is a refusal.
fn replied<A: Applies, L: Ledger>(
    alloc: Global,
    feeds: &mut Feeds,
    to: &mut A,
    source: &str,
    number: u64,
    line: &str,
    steps: &mut Steps<L>,
) -> Result<(Outcome, bool), Fail>
    requires number { 1 ≤ number }
    requires idle { A.waits to.old ≡ Idle }
    ensures { A.waits to.new ≡ Idle }
{
    let source = Text::of(alloc, source.as_bytes())?;
    let change = change(alloc, line)?;
    let arrival = Arrival {
        source: source.copy()?,
        number,
        change,
    };
    let answer = feeds.arrive(alloc, to, arrival, steps)?;
    let refused = match feeds.handled(&source, number) {
        Some(handled) => handled.reply(alloc)?.as_result().is_err(),
        None => false,
    };
    Ok((answer, refused))
}

// The place of the first arrival that is not answered so.
fn first_other<A: Applies, L: Ledger>(
    alloc: Global,
    to: &mut A,
    steps: &mut Steps<L>,
) -> Result<Option<usize>, Fail>
    requires { A.waits to.old ≡ Idle }
{
    let mut feeds = Feeds::new(alloc, Seed::fixed());
    for (place, (source, number, line, wanted, is_refused)) in SENT.iter().enumerate() {
        if *number == 0 {
            return Ok(Some(place));
        }
        let (answer, refused) = replied(alloc, &mut feeds, to, source, *number, line, steps)?;
        if answer != *wanted || refused != *is_refused {
            return Ok(Some(place));
        }
    }
    Ok(None)
}

// That of arrivals at a catalogue that has nothing.
#[tactic(auto, using(crate::proofs::PlainLemmas::one_constant))]
fn first_at_nothing<L: Ledger>(alloc: Global, blank: Blank) -> Result<Option<usize>, Fail>
    requires name { blank.name ≡ L.name }
    requires parts { blank.parts ≡ L.parts }
    requires some { 0 < L.parts }
{
    let mut steps = Steps::<L>::of(blank);
    let mut constants = Vec::new(alloc);
    constants.push(Text::of(alloc, b"a")?)?;
    let shape = Shape {
        label: None,
        constants: Row::of(constants),
        spot: None,
    };
    let mut to = Plain::of(alloc, Catalogue::empty(alloc), shape);
    let other = first_other(alloc, &mut to, &mut steps);
    drop(to);
    other
}

// That of all.
fn first_of_all(alloc: Global) -> Result<Option<usize>, Fail> {
    let other = first_at_nothing::<Brand>(alloc, Blank::new(1))?;
    Ok(other)
}

#[test]
fn arrivals_are_answered_in_turn(rt: HostRuntime) -> Result<(), Fail> {
    assert_eq!(rt; first_of_all(rt.alloc())?, None);
    Ok(())
}
