//! Tests of the index of who reaches what, and of the cache of its answers.
#![tactic(auto)]

#[cfg(test)]
mod cache;
#[cfg(test)]
mod graphs;
#[cfg(test)]
mod index;
#[cfg(test)]
mod made;
#[cfg(test)]
mod opened;
#[cfg(test)]
mod plain;
#[cfg(test)]
mod steps;
