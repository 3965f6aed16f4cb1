//! Changes that are proposed, and dropped or made, by whoever takes changes in two steps.
ghost use Rattle.std.specs.Prelude.{◌≡◌, ◌<◌, None, IfOk, IsTrue};
ghost use Rattle.std.specs.List.{AllByRecursion};
ghost use Rattle.schema_model.specs.Changes.{is_well_formed};
ghost use Rattle.view_def.specs.Query.{query_of};
ghost use Rattle.view_def.specs.Profile.{IsViewOfProfile};
ghost use Rattle.apply_law.specs.Standing.{Idle};
ghost use Rattle.view_session.specs.Verdicts.{waiting_of};

use crate::building::{boxed, changes_of, make_all, opened};
use crate::worked::script_text;
use apply_law::{Applies, GroupRefused};
use schema_model::{Catalogue, Change};
use ss_text::{NoMemory, Steps, Text};
use std::alloc::Global;
use std::marker::Brand;
use std::sync::ledger::{Blank, Ledger};
use std::test::Fail;
use view_def::View;
use view_session::Session;

// A view, the changes before it is opened, and lists of changes with the lines of their scripts, parted by commas, or
// with why they are refused. Each list is proposed over the same catalogue, and at last one that is made.
struct Proposals {
    view: &'static str,
    before: &'static [&'static str],
    lists: &'static [(&'static [&'static str], &'static str)],
    made: (&'static [&'static str], &'static str),
}

const PROPOSALS: [Proposals; 2] = [
    // Each of the eleven kinds alone, several together, and none.
    Proposals {
        view: "create view V::t(x, r, a) as select X, R, T.a from -> X, X -> R, X::R T",
        before: &[
            "create-database d",
            "create-relation d r a b",
            "insert d r 1 2",
            "insert d r 3 4",
            "create-database e",
            "create-relation e s a",
            "insert e s 5",
            "create-relation e u b",
            "insert e u 6",
        ],
        lists: &[
            (&["insert d r 7 8"], "row+ t d r 7"),
            (&["delete d r 1 2"], "row- t d r 1"),
            (&["add-attribute e u a 9"], "row+ t e u 9"),
            (&["drop-attribute d r a"], "row- t d r 1,row- t d r 3"),
            (&["rename-attribute d r a z"], "row- t d r 1,row- t d r 3"),
            (&["create-relation d q a"], ""),
            (&["drop-relation e s"], "row- t e s 5"),
            (&["rename-relation e s w"], "row- t e s 5,row+ t e w 5"),
            (&["create-database f"], ""),
            (&["drop-database d"], "row- t d r 1,row- t d r 3"),
            (
                &["rename-database d g"],
                "row- t d r 1,row- t d r 3,row+ t g r 1,row+ t g r 3",
            ),
            (
                &["insert d r 7 8", "rename-relation d r k", "delete d k 1 2"],
                "row- t d r 1,row- t d r 3,row+ t d k 3,row+ t d k 7",
            ),
            (&["insert d r 7 8", "delete d r 9 9"], "refused at 1"),
            (&["insert d r 7"], "refused at 0"),
            (&[], ""),
        ],
        made: (
            &["insert d r 7 8", "delete d r 1 2"],
            "row- t d r 1,row+ t d r 7",
        ),
    },
    // A view that refuses what the catalogue takes.
    Proposals {
        view: "create view AtoB::salInfo(category, D) as select A.category, A.salFloor from univ-A::salInfo A, A.dept D",
        before: &[
            "create-database univ-A",
            "create-relation univ-A salInfo category dept salFloor",
            "insert univ-A salInfo Prof cs 72000",
        ],
        lists: &[
            (&["insert univ-A salInfo Prof cs 99"], "conflict"),
            (
                &[
                    "insert univ-A salInfo Prof cs 99",
                    "delete univ-A salInfo Prof cs 72000",
                ],
                "cell salInfo cs 99 Prof",
            ),
            (
                &[
                    "insert univ-A salInfo Assoc cs 5",
                    "insert univ-A salInfo Prof category 1",
                ],
                "illegal-label",
            ),
        ],
        made: (
            &["insert univ-A salInfo Prof physics 70000"],
            "column+ salInfo physics,cell salInfo physics 70000 Prof",
        ),
    },
];

// What a refusal says, but for want of memory.
fn refusal_text(alloc: Global, refused: GroupRefused) -> Result<Text, NoMemory> {
    match refused {
        GroupRefused::Change { place: 0, .. } => Text::of(alloc, b"refused at 0"),
        GroupRefused::Change { place: 1, .. } => Text::of(alloc, b"refused at 1"),
        GroupRefused::Change { .. } => Text::of(alloc, b"refused"),
        GroupRefused::Illegal(_) => Text::of(alloc, b"illegal-label"),
        GroupRefused::Conflict(_) => Text::of(alloc, b"conflict"),
        GroupRefused::NoMemory => Err(NoMemory),
    }
}

/// What changes answer that are proposed and dropped.
pub fn dropped<A: Applies, L: Ledger>(
    alloc: Global,
    taker: &mut A,
    changes: &[Change],
    steps: &mut Steps<L>,
) -> Result<Text, NoMemory>
    requires well_formed { AllByRecursion (λ g. IsTrue (is_well_formed g)) changes.now }
    requires idle { A.waits taker.old ≡ Idle }
    ensures same { A.state taker.new ≡ A.state taker.old }
    ensures idle { A.waits taker.new ≡ Idle }
{
    match taker.propose(alloc, changes, steps) {
        Ok(script) => {
            taker.dismiss();
            script_text(alloc, &script)
        }
        Err(refused) => refusal_text(alloc, refused),
    }
}

/// What changes answer that are proposed and made.
pub fn made<A: Applies, L: Ledger>(
    alloc: Global,
    taker: &mut A,
    changes: &[Change],
    steps: &mut Steps<L>,
) -> Result<Text, NoMemory>
    requires well_formed { AllByRecursion (λ g. IsTrue (is_well_formed g)) changes.now }
    requires idle { A.waits taker.old ≡ Idle }
    ensures { A.waits taker.new ≡ Idle }
{
    match taker.propose(alloc, changes, steps) {
        Ok(script) => {
            taker.accept();
            script_text(alloc, &script)
        }
        Err(refused) => refusal_text(alloc, refused),
    }
}

// Whether changes answer this, twice since nothing is changed between.
fn answer_so<A: Applies, L: Ledger>(
    alloc: Global,
    taker: &mut A,
    changes: &[Change],
    told: &str,
    steps: &mut Steps<L>,
) -> Result<bool, NoMemory>
    requires well_formed { AllByRecursion (λ g. IsTrue (is_well_formed g)) changes.now }
    requires idle { A.waits taker.old ≡ Idle }
    ensures same { A.state taker.new ≡ A.state taker.old }
    ensures idle { A.waits taker.new ≡ Idle }
{
    let once = dropped(alloc, taker, changes, steps)?;
    let again = dropped(alloc, taker, changes, steps)?;
    Ok(once == again && once.as_slice() == told.as_bytes())
}

// Whether the changes that lines say do.
fn lines_answer_so<A: Applies, L: Ledger>(
    alloc: Global,
    taker: &mut A,
    lines: &[&str],
    told: &str,
    steps: &mut Steps<L>,
) -> Result<bool, Fail>
    requires { A.waits taker.old ≡ Idle }
    ensures same { A.state taker.new ≡ A.state taker.old }
    ensures idle { A.waits taker.new ≡ Idle }
{
    let changes = changes_of(alloc, lines)?;
    let so = answer_so(alloc, taker, &changes, told, steps);
    drop(changes);
    Ok(so?)
}

// The place of the first list that does not.
fn first_other<A: Applies, L: Ledger>(
    alloc: Global,
    taker: &mut A,
    lists: &[(&'static [&'static str], &'static str)],
    steps: &mut Steps<L>,
) -> Result<Option<usize>, Fail>
    requires { A.waits taker.old ≡ Idle }
    ensures { A.waits taker.new ≡ Idle }
{
    for (place, (lines, told)) in lists.iter().enumerate() {
        if !lines_answer_so(alloc, taker, lines, told, steps)? {
            return Ok(Some(place));
        }
    }
    Ok(None)
}

// Whether the changes that lines say answer this where they are made, and name something.
fn lines_are_made_so<L: Ledger>(
    alloc: Global,
    session: &mut Session,
    lines: &[&str],
    told: &str,
    steps: &mut Steps<L>,
) -> Result<bool, Fail>
    requires { waiting_of session.old ≡ Idle }
{
    let changes = changes_of(alloc, lines)?;
    let answer = made(alloc, session, &changes, steps);
    drop(changes);
    let named = !session.changed_labels().is_empty() && !session.changed_relations().is_empty();
    Ok(named && answer?.as_slice() == told.as_bytes())
}

// Whether nothing was named.
fn is_unnamed(session: &Session) -> bool {
    session.changed_labels().is_empty()
        && session.changed_relations().is_empty()
        && session.changed_databases().is_empty()
}

// The place of the first list that answers something else, and behind all the last one that is made, where it does or
// where a list that was dropped named something.
fn first_other_or_last<L: Ledger>(
    alloc: Global,
    session: &mut Session,
    proposals: &Proposals,
    steps: &mut Steps<L>,
) -> Result<Option<usize>, Fail>
    requires { waiting_of session.old ≡ Idle }
{
    if let Some(place) = first_other(alloc, session, proposals.lists, steps)? {
        return Ok(Some(place));
    }
    let (lines, told) = proposals.made;
    if is_unnamed(session) && lines_are_made_so(alloc, session, lines, told, steps)? {
        Ok(None)
    } else {
        Ok(Some(proposals.lists.len()))
    }
}

// That of a session that was just opened.
fn first_opened<L: Ledger>(
    alloc: Global,
    session: &mut Session,
    proposals: &Proposals,
    steps: &mut Steps<L>,
) -> Result<Option<usize>, Fail>
    requires { (session.old.held ≡ None) × (session.old.proposed ≡ None) }
{
    first_other_or_last(alloc, session, proposals, steps)
}

// That of a session over a catalogue.
fn first_over<L: Ledger>(
    alloc: Global,
    catalogue: &Catalogue,
    view: Box<View>,
    proposals: &Proposals,
    blank: Blank,
) -> Result<Option<usize>, Fail>
    requires profile { IsViewOfProfile (query_of view.value) }
    requires name { blank.name ≡ L.name }
    requires parts { blank.parts ≡ L.parts }
    requires some { 0 < L.parts }
{
    let mut steps = Steps::<L>::of(blank);
    let Some(mut session) = opened(alloc, catalogue, view, &mut steps)? else {
        return Ok(Some(usize::MAX));
    };
    let other = first_opened(alloc, &mut session, proposals, &mut steps);
    drop(session);
    other
}

// And over the catalogue before, which is put into one that has nothing.
fn first_filled(
    alloc: Global,
    catalogue: &mut Catalogue,
    proposals: &Proposals,
) -> Result<Option<usize>, Fail> {
    make_all(alloc, catalogue, proposals.before)?;
    let view = boxed(alloc, proposals.view)?;
    let other = first_over::<Brand>(alloc, catalogue, view, proposals, Blank::new(1))?;
    Ok(other)
}

fn first_of(alloc: Global, proposals: &Proposals) -> Result<Option<usize>, Fail> {
    let mut catalogue = Catalogue::empty(alloc);
    let other = first_filled(alloc, &mut catalogue, proposals);
    drop(catalogue);
    other
}

#[test]
fn dropped_changes_leave_all_as_it_was(rt: HostRuntime) -> Result<(), Fail> {
    for proposals in &PROPOSALS {
        assert_eq!(rt;
            first_of(rt.alloc(), proposals)?,
            None,
            "at {}",
            proposals.view
        );
    }
    Ok(())
}
