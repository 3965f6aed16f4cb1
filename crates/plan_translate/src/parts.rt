//! What a plan has of each declaration.
ghost use Rattle.std.specs.Prelude.{◌≡◌, [], map, drop, None, IfOk};
ghost use Rattle.plan_form.specs.Bases.{BaseValue, base_value};
ghost use Rattle.plan_translate.specs.Parts.{fresh_join};

use join_delta::{Join, KeyPlaces};
use plan_form::{Base, Equal};
use schema_delta::FlatSpec;
use ss_text::{NoMemory, Seed};
use std::alloc::Global;

// The join with a declaration, which keeps no rows.
fn join_of(alloc: Global, seed: Seed, base: &Base) -> Result<Join, NoMemory>
    ensures { IfOk result (λ join. join ≡ fresh_join base.now) }
{
    let left = KeyPlaces::of(alloc, &base.left_key)?;
    let right = KeyPlaces::of(alloc, &base.right_key)?;
    let join = Join::new(alloc, seed, left, right)?;
    Ok(join)
}

/// The joins with all declarations behind the first, which hash by a seed.
pub(crate) fn joins_of(alloc: Global, seed: Seed, bases: &[Base]) -> Result<Vec<Join>, NoMemory>
    ensures { IfOk result (λ joins. joins.items ≡ map fresh_join (drop 1 bases.now)) }
{
    let mut joins = Vec::new(alloc);
    if let [_first, further @ ..] = bases {
        for base in further {
            joins.push(join_of(alloc, seed, base)?)?;
        }
    }
    Ok(joins)
}

/// What is asked of a catalogue for each declaration, and the tests of its flat rows.
pub(crate) fn asked(
    alloc: Global,
    bases: Vec<Base>,
) -> Result<(Vec<FlatSpec>, Vec<Vec<Equal>>), NoMemory>
    ensures specs { IfOk result (λ r. r.0.items ≡ map (λ (b : BaseValue). b.spec) (map base_value bases.items)) }
    ensures tests { IfOk result (λ r. map (λ t. t.items) r.1.items ≡ map (λ (b : BaseValue). b.own) (map base_value bases.items)) }
{
    let mut specs = Vec::with_capacity(alloc, bases.len())?;
    let mut tests = Vec::with_capacity(alloc, bases.len())?;
    for base in bases {
        specs.push(base.spec)?;
        tests.push(base.own)?;
    }
    Ok((specs, tests))
}
