//! Worked rows of the layers beside the engine: the language, lines and scripts, changes that wait, the objects in memory,
//! records as they are read and written, catalogues that are loaded and saved, feeds over a small thing that takes changes
//! in two steps, syncs that are stopped at each of their calls, and journals, with every image that a crash may leave of a
//! small group.
//!
//! It has tests alone, so that none of these layers is proved again with them. What they want comes from outside, never from
//! the program. A function that owns something large does its work over a borrow, and lets go once.
#![tactic(auto)]

#[cfg(test)]
mod drafts;
#[cfg(test)]
mod feeds;
#[cfg(test)]
mod journals;
#[cfg(test)]
mod lines;
#[cfg(test)]
mod names;
#[cfg(test)]
mod objects;
mod plain;
#[cfg(test)]
mod prints;
#[cfg(test)]
mod scripts;
#[cfg(test)]
mod sources;
#[cfg(test)]
mod spellings;
#[cfg(test)]
mod syncs;
#[cfg(test)]
mod tables;
#[cfg(test)]
mod tokens;
#[cfg(test)]
mod trees;
#[cfg(test)]
mod types;

pub use plain::Plain;
