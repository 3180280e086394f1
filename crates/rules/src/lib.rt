// The rules of the register's calls, the book that writes the fair copy of a run of calls, and the
// law of that copy. The records that the rules speak of are declared here, for the code of the calls
// to use the same ones.
#![tactic(auto)]

pub mod calls;
pub mod cases;
pub mod laws;
pub mod lines;
pub mod refusals;
pub mod rows;
#[cfg(test)]
mod tests;
