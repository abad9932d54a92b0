//! Tests of boards: presses, desks and looks.
#![tactic(auto)]

#[cfg(test)]
mod desks;
#[cfg(test)]
mod publishing;
#[cfg(test)]
mod scene;
