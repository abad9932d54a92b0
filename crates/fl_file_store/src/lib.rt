//! A keeper over the files of a database, which can be opened again once it is broken.
#![tactic(auto)]

mod again;
pub mod file_keeper;
pub mod unmended;
