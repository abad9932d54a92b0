//! Tests of a node over a keeper in memory, of its bench, and of what its index tells.
#![tactic(auto)]

#[cfg(test)]
mod batches;
#[cfg(test)]
mod benches;
#[cfg(test)]
mod gossip;
#[cfg(test)]
mod opened;
#[cfg(test)]
mod restarts;
#[cfg(test)]
mod steps;
#[cfg(test)]
mod views;
