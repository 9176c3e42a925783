//! Plays a script: reads it, carries its lines out and writes the trace.
#![tactic(auto)]

mod carried;
mod command;
mod foundations;
mod laws;
mod play;
mod player_state;
mod program_call;
mod shown;
mod top_call;

pub use command::Command;
pub use laws::{one_ending, one_status, one_text, scripts_end};
pub use play::{Ending, play_script};
pub use player_state::{Player, Progress};
pub use program_call::{program, standard_program};
pub use shown::show;
pub use top_call::{RunFault, run, top};
