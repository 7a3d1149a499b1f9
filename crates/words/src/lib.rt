// The words of an answer and of each record, put into a buffer of the caller's.
#![tactic(auto)]

pub mod records;
pub mod rows;
pub mod word;
