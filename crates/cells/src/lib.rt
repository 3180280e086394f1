// Kinds of cell: one interface that every kind keeps, the crossing law that it must show, and three
// kinds that show it.
#![tactic(auto)]

pub mod answers;
pub mod kinds;
pub mod levels;
pub mod marks;
pub mod sequences;
#[cfg(test)]
mod tests;
pub mod totals;
