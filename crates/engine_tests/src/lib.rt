//! Worked rows of the engine, layer by layer: rows that are linked or on shelves, changes of a catalogue, operators and
//! joins by themselves, the flat rows of declarations, plans, tables of each form, and sessions, with changes by chance
//! beside the meaning of their views; stacks of sessions, beside stacks that are opened anew; and views in another form
//! with the views back.
//!
//! It has tests alone. What they want is worked out by hand, or evaluated anew.
#![tactic(auto)]

#[cfg(test)]
mod answer;
#[cfg(test)]
mod bags;
#[cfg(test)]
mod building;
#[cfg(test)]
mod chance;
#[cfg(test)]
mod facts;
#[cfg(test)]
mod flat;
#[cfg(test)]
mod groups;
#[cfg(test)]
mod joins;
#[cfg(test)]
mod kept;
#[cfg(test)]
mod links;
#[cfg(test)]
mod loads;
#[cfg(test)]
mod meant;
#[cfg(test)]
mod operators;
#[cfg(test)]
mod pages;
#[cfg(test)]
mod plans;
#[cfg(test)]
mod proposals;
#[cfg(test)]
mod same;
#[cfg(test)]
mod shelves;
#[cfg(test)]
mod stacks;
#[cfg(test)]
mod tables;
#[cfg(test)]
mod trips;
#[cfg(test)]
mod worked;
