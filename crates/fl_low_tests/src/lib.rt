//! Tests of names and sets, operations and packets and their bytes, sets of operations and their
//! windows, letters, aliases, the text of answers, and the bytes that wait to be written.
#![tactic(auto)]

#[cfg(test)]
mod aliases;
#[cfg(test)]
mod answers;
#[cfg(test)]
mod bytes;
#[cfg(test)]
mod caps;
#[cfg(test)]
mod gossip;
#[cfg(test)]
mod labels;
#[cfg(test)]
mod laws;
#[cfg(test)]
mod mailbox;
#[cfg(test)]
mod operations;
#[cfg(test)]
mod packets;
#[cfg(test)]
mod registries;
#[cfg(test)]
mod rows;
#[cfg(test)]
mod seals;
#[cfg(test)]
mod secrets;
#[cfg(test)]
mod sink;
#[cfg(test)]
mod words;
