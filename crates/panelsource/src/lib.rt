// A readable source language for packed panel files: one statement to a line,
// each of which asks one thing of the builder.
#![tactic(auto)]

pub mod source;
pub mod words;
