//! Tests of pdcp_tx and pdcp_rx, apart from them since a crate with tests is proved twice.
#![tactic(auto)]

#[cfg(test)]
mod rows;
#[cfg(test)]
mod rx;
#[cfg(test)]
mod tx;
