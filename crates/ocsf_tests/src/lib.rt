//! Tests of what no row of a table can say: the forms in memory and of the system with their failing calls, and
//! streams.
//! What rows can say is in `ocsf_rows` and `ocsf_run_rows`. The tests stand in a crate of their own, as a crate that
//! has tests is proved again with them.
#![tactic(auto)]

#[cfg(test)]
mod of_edge;
#[cfg(test)]
mod of_lines;
#[cfg(test)]
mod of_tree;
