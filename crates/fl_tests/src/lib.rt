//! Tests of whole runs in pieces, and over streams and keepers that fail. Scripts that are only
//! answered are rows of examples/rows.
#![tactic(auto)]

#[cfg(test)]
mod keepers;
#[cfg(test)]
mod rows;
#[cfg(test)]
mod rows_keepers;
#[cfg(test)]
mod streams;
#[cfg(test)]
mod tests;
#[cfg(test)]
mod tests_keepers;
