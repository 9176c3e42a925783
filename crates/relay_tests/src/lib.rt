//! Tests of relay_core, apart from it since a crate with tests is proved twice.
#![tactic(auto)]

#[cfg(test)]
mod called;
#[cfg(test)]
mod many;
#[cfg(test)]
mod names;
#[cfg(test)]
mod premises;
#[cfg(test)]
mod rows;
#[cfg(test)]
mod switches;
#[cfg(test)]
mod tables;
#[cfg(test)]
mod texts;
