//! Tests of crews: batches of jobs and packets, gates, keepers that break, and restarts.
#![tactic(auto)]

#[cfg(test)]
mod batches;
#[cfg(test)]
mod gates;
#[cfg(test)]
mod held;
#[cfg(test)]
mod messages;
#[cfg(test)]
mod orders;
#[cfg(test)]
mod restarts;
#[cfg(test)]
mod scene;
