// Writes packed panel files by a builder that takes one record at a time.
#![tactic(auto)]

pub mod builder;
pub mod bytes;
pub mod codes;
pub mod error;
pub mod records;
pub mod rows;
pub mod table;
