//! Tests of worlds over keepers in memory, and over files.
#![tactic(auto)]

pub mod handed;
#[cfg(test)]
mod hiccup;
#[cfg(test)]
mod keepers;
#[cfg(test)]
mod lagging;
#[cfg(test)]
mod mending;
#[cfg(test)]
mod reopening;
#[cfg(test)]
mod scene;
