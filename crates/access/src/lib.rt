// The words of a table's records, read and written, and a copy of a table.
#![tactic(auto)]

pub mod words;
pub mod writing;
