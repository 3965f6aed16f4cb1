//! What the first values of keys begin with.
ghost use Rattle.std.specs.Prelude.{◌≡◌, ◌≤◌, length};

use crate::fact::Fact;
use crate::fact_cell::FactCell;
use bumpalo::Bump;
use ss_text::{NoMemory, Text};
use std::alloc::Global;

/// Finds what the first values of all keys begin with. They compare from now on by what stands behind it, so that keys
/// which begin alike are not read to be compared.
pub fn share_beginning<'a, C: FactCell>(
    alloc: Global,
    arena: &'a Bump<Global>,
    facts: &mut [Fact<'a, C>],
) -> Result<(), NoMemory>
    ensures { facts.new ≡ facts.old }
{
    let shared = beginning(facts);
    if !shared.is_empty() {
        let text = Text::of(alloc, shared)?;
        stand_behind(facts, arena.try_alloc(text)?);
    }
    Ok(())
}

// Lets all keys that begin so compare by what stands behind this beginning.
fn stand_behind<'a, C: FactCell>(facts: &mut [Fact<'a, C>], beginning: &'a Text)
    ensures { facts.new ≡ facts.old }
{
    for place in 0..facts.len() {
        facts[place].stand_behind(beginning);
    }
}

// What the first values of all keys begin with.
fn beginning<'a, C: FactCell>(facts: &[Fact<'a, C>]) -> &'a [u8] {
    let mut facts = facts.iter();
    let mut shared: &'a [u8] = match facts.next() {
        Some(fact) => fact.first(),
        None => &[],
    };
    for fact in facts {
        shared = &shared[..like(shared, fact.first())];
        if shared.is_empty() {
            break;
        }
    }
    shared
}

// How many bytes at the front are the same.
fn like(bytes: &[u8], others: &[u8]) -> usize
    ensures { result ≤ length bytes.now }
{
    bytes
        .iter()
        .zip(others.iter())
        .take_while(|(byte, other)| byte == other)
        .count()
}
