//! Moves of flat rows that pass the tests of their declaration, in net.
ghost use Rattle.std.specs.Prelude.{◌≡◌, List, map, length, IfOk};
ghost use Rattle.std.specs.List.{AllZip, AllByRecursion};
ghost use Rattle.operator_law.specs.declared.delta.Signed.{Signed as SignedValue};
ghost use Rattle.schema_delta.specs.Net.{SameNet, IsNet};
ghost use Rattle.plan_translate.specs.Parts.{passing, each_passing, own_tests};

use operator_law::Delta;
use plan_form::{Equal, passes};
use schema_delta::each_net;
use ss_text::{NoMemory, Seed};
use std::alloc::Global;

// The moves of rows that pass.
fn passing(alloc: Global, tests: &[Equal], delta: Delta) -> Result<Delta, NoMemory>
    ensures { IfOk result (λ d. d ≡ passing tests.now delta) }
{
    let mut moves = Vec::new(alloc);
    for m in delta.moves {
        if passes(tests, &m.row) {
            moves.push(m)?;
        }
    }
    Ok(Delta { moves })
}

// For each declaration.
fn each_passing(
    alloc: Global,
    tests: &[Vec<Equal>],
    deltas: Vec<Delta>,
) -> Result<Vec<Delta>, NoMemory>
    requires { length deltas.items ≡ length tests.now }
    ensures { IfOk result (λ own. own.items ≡ each_passing (own_tests tests.now) deltas.items) }
{
    let mut own = Vec::with_capacity(alloc, tests.len())?;
    for delta in deltas {
        let test = &tests[own.len()];
        own.push(passing(alloc, test, delta)?)?;
    }
    Ok(own)
}

/// The moves of each declaration's flat rows that pass its tests, in net. These are hashed by a seed.
pub(crate) fn own_moves(
    alloc: Global,
    seed: Seed,
    tests: &[Vec<Equal>],
    deltas: Vec<Delta>,
) -> Result<Vec<Delta>, NoMemory>
    requires { length deltas.items ≡ length tests.now }
    ensures moves { IfOk result (λ own. (nets : List (List SignedValue)) × AllZip SameNet deltas.items nets × (own.items ≡ each_passing (own_tests tests.now) nets)) }
    ensures net { IfOk result (λ own. AllByRecursion IsNet own.items) }
    ensures each { IfOk result (λ own. length own.items ≡ length tests.now) }
{
    let nets = each_net(alloc, seed, deltas)?;
    let own = each_passing(alloc, tests, nets)?;
    Ok(own)
}
