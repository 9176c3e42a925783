// Rows of the tables of calls.
use std::process::Abort;

/// A row's call, and what it answers, which stands behind a bar.
pub(crate) fn call_and_answer<'a>(rt: &impl Abort, row: &'a str) -> (&'a str, &'a str) {
    let Some(parts) = row.split_once('|') else {
        panic!(rt; "a row without a bar");
    };
    parts
}
