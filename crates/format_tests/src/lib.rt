//! Tests of the formats: rlc_pdu, rlc_status, pdcp_pdu and srap_header, apart from them since a crate with tests is proved twice.
#![tactic(auto)]

#[cfg(test)]
mod tests;
