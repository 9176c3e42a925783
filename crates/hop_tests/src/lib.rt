//! Tests of rlc_am_rx, rlc_am_tx and rlc_hop, apart from them since a crate with tests is proved twice.
#![tactic(auto)]

#[cfg(test)]
mod tests;
