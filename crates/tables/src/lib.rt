// The register's tables: containers over the slices that the host hands over, the look-ups in the
// standing rows with the elder test, and the way of a posting through the standing lines.
#![tactic(auto)]

pub mod elders;
pub mod lending;
pub mod records;
pub mod searches;
pub mod values;
