// What the register does at the limits of its tables, shown on examples. What it does everywhere is
// proved in the crate `register`.
#![tactic(auto)]

#[cfg(test)]
mod lending;
#[cfg(test)]
mod nesting;
#[cfg(test)]
mod numbers;
#[cfg(test)]
mod old_records;
#[cfg(test)]
mod room;
#[cfg(test)]
mod soundness;
