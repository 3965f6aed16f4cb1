//! Worked rows of the whole program, over folders, streams and a disk in memory, and runs of each command with
//! each of their calls failing in turn.
//!
//! It has tests alone. What they want comes from outside, never from the program.
#![tactic(auto)]

#[cfg(test)]
mod answered;
#[cfg(test)]
mod applied;
#[cfg(test)]
mod commands;
#[cfg(test)]
mod failing;
#[cfg(test)]
mod fed;
#[cfg(test)]
mod grouped;
#[cfg(test)]
mod journaled;
#[cfg(test)]
mod journaled_failing;
#[cfg(test)]
mod long;
#[cfg(test)]
mod maintained;
#[cfg(test)]
mod maintained_failing;
#[cfg(test)]
mod offices;
#[cfg(test)]
mod place;
#[cfg(test)]
mod row;
#[cfg(test)]
mod rows;
#[cfg(test)]
mod saved;
#[cfg(test)]
mod schemas;
#[cfg(test)]
mod stacked;
#[cfg(test)]
mod stacked_failing;
#[cfg(test)]
mod stacked_limits;
#[cfg(test)]
mod sweeps;
#[cfg(test)]
mod world;
