//! Tests of keepers, in memory, over databases and over folders.
#![tactic(auto)]

#[cfg(test)]
mod asking;
#[cfg(test)]
mod databases;
#[cfg(test)]
mod folders;
#[cfg(test)]
mod memory;
#[cfg(test)]
mod stops;
