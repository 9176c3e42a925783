//! Tests of node_ports, apart from it since a crate with tests is proved twice.
#![tactic(auto)]

#[cfg(test)]
mod ports;
#[cfg(test)]
mod rows;
#[cfg(test)]
mod small;
