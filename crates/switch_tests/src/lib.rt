//! Tests of path_switch, apart from it since a crate with tests is proved twice.
#![tactic(auto)]

#[cfg(test)]
mod plans;
