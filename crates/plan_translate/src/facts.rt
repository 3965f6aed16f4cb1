//! Moves of fact rows.
ghost use Rattle.std.specs.Prelude.{◌≡◌, ◌++◌, [], ◌∷◌, IfOk, OnOk};
ghost use Rattle.view_def.specs.Query.{Query};
ghost use Rattle.schema_delta.specs.Net.{SameNet, IsNet};
ghost use Rattle.plan_law.specs.PlanMoves.{fact_moves};
ghost use Rattle.plan_form.specs.Forms.{IsOutputOf};

use operator_law::{Delta, Signed};
use plan_form::{Output, fact_row};
use schema_delta::net;
use ss_text::{NoMemory, Seed};
use std::alloc::Global;

// Adds how a move of a full row moves its fact row, where the row counts.
fn push_fact(
    alloc: Global,
    output: &Output,
    m: &Signed,
    facts: &mut Vec<Signed>,
) -> Result<(), NoMemory>
    ensures { (q : Query) → IsOutputOf q output.now → OnOk result (facts.new.items ≡ facts.old.items ++ fact_moves q (m.now ∷ [])) }
{
    match fact_row(alloc, output, &m.row)? {
        None => Ok(()),
        Some(row) => Ok(facts.push(Signed { row, up: m.up })?),
    }
}

// How moves of full rows move their fact rows.
fn fact_moves(alloc: Global, output: &Output, rows: &Delta) -> Result<Delta, NoMemory>
    ensures { (q : Query) → IsOutputOf q output.now → IfOk result (λ facts. facts ≡ fact_moves q rows.now) }
{
    let mut moves = Vec::new(alloc);
    for m in &rows.moves {
        push_fact(alloc, output, m, &mut moves)?;
    }
    Ok(Delta { moves })
}

/// How moves of full rows move their fact rows, in net. These are hashed by a seed.
pub(crate) fn facts(
    alloc: Global,
    seed: Seed,
    output: &Output,
    rows: &Delta,
) -> Result<Delta, NoMemory>
    ensures same { (q : Query) → IsOutputOf q output.now → IfOk result (SameNet (fact_moves q rows.now)) }
    ensures net { IfOk result IsNet }
{
    let moves = fact_moves(alloc, output, rows)?;
    let facts = net(alloc, seed, moves)?;
    Ok(facts)
}
