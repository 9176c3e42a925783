//! Tests of script_text and pdu_text, apart from them since a crate with tests is proved twice.
#![tactic(auto)]

#[cfg(test)]
mod tests;
