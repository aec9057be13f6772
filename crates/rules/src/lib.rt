// The rules that the records of an admitted component keep.
#![tactic(auto)]

pub mod firsts;
pub mod order;
pub mod records;
