//! Tests: worked rows that cross crates.
#![tactic(auto)]

#[cfg(test)]
mod cuts;
#[cfg(test)]
mod edges;
#[cfg(test)]
mod gap;
#[cfg(test)]
mod held;
#[cfg(test)]
mod histories;
#[cfg(test)]
mod log;
#[cfg(test)]
mod points;
#[cfg(test)]
mod pool;
#[cfg(test)]
mod replays;
#[cfg(test)]
mod runs;
#[cfg(test)]
mod schedules;
#[cfg(test)]
mod search;
#[cfg(test)]
mod senses;
#[cfg(test)]
mod shared;
#[cfg(test)]
mod simplex;
#[cfg(test)]
mod tree;
#[cfg(test)]
mod words;
#[cfg(test)]
mod workers;
#[cfg(test)]
mod writing;
