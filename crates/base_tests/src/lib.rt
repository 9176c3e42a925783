//! Tests of link_base, link_io and byte_spans, apart from them since a crate with tests is proved twice.
#![tactic(auto)]

#[cfg(test)]
mod deduced_numbers;
#[cfg(test)]
mod lists;
#[cfg(test)]
mod places;
#[cfg(test)]
mod streams;
