//! The language of scripts and traces: lines as they are spelt, where each may stand, and the texts of replies and events.
#![tactic(auto)]

mod event;
mod event_texts;
mod hex_words;
mod laws;
mod limits;
mod line;
mod lines;
mod next_line;
mod numbers;
mod parse;
mod ports;
mod reader;
mod reason;
mod reply;
mod reply_texts;
mod stage;
mod text;
mod trace;

pub use event::{Event, EventList};
pub use event_texts::event_text;
pub use hex_words::{hex_bytes, push_hex};
pub use laws::{
    one_answer_is_parsed, one_answer_is_told, one_history_is_told, one_line_is_spelt,
    text_is_read_back, what_is_spelt_is_read,
};
pub use limits::{LONGEST_LINE, LONGEST_SCRIPT};
pub use line::Line;
pub use lines::line_text;
pub use next_line::{NextLine, next_line_of};
pub use parse::{is_skipped, parse_line};
pub use reason::{LineFault, Reason};
pub use reply::Reply;
pub use reply_texts::{amd_fault_text, reply_text, status_fault_text};
pub use stage::{Part, ScriptStage};
pub use trace::{
    Total, TotalList, push_answer, push_bad_line, push_too_long, push_totals_and_done,
};
