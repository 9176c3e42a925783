// A whole run over the bytes of a script.
ghost use Rattle.std.specs.Prelude.{◌≡◌, ◌++◌, List, [], IfOk, IsSome, OnOk, string_bytes};
ghost use Rattle.script_text.specs.Texts.{bad_text, reason_text, too_long_text};
ghost use Rattle.script_text.specs.History.{trace};
ghost use Rattle.chain_model.specs.Runs.{Turn, entries};
ghost use Rattle.player.specs.Plays.{Plays, IsUnderWay};
ghost use Rattle.player.specs.Turns.{TurnsAt, StopsAtEnd, Finishes};
ghost use Rattle.player.specs.Runs.{IsRun};

use crate::foundations::laws_of_runs;
use crate::{Player, Progress};
use link_base::Memory;
use script_text::{
    NextLine, Reason, next_line_of, push_bad_line, push_too_long, push_totals_and_done,
};
use std::alloc::Global;

/// Why a run ended.
#[derive(Clone, Copy, Debug, PartialEq, Eq)]
pub enum Ending {
    /// The script was read to its `end` line, or to the input's end behind `go`.
    Done,
    /// A line is no line of the script, or the input ended before `go`.
    Bad(Reason),
    /// A line is of a form that isn't carried out yet.
    Later,
    /// A line ends past the script's greatest length.
    TooLong,
}

/// Runs the script that the input is. Its trace is added to an empty text.
pub fn play_script(alloc: Global, input: &[u8], out: &mut String) -> Result<Ending, Memory>
    requires { string_bytes out.old ≡ [] }
    ensures { IfOk result (λ ending. IsRun input.now ending (string_bytes out.new)) }
{
    let mut player = Player::new(alloc)?;
    play_lines(alloc, &mut player, input, out)
}

/// Runs the lines of the input with a player that has read nothing.
fn play_lines(
    alloc: Global,
    player: &mut Player,
    input: &[u8],
    out: &mut String,
) -> Result<Ending, Memory>
    requires plays { Plays player.old [] }
    requires empty { string_bytes out.old ≡ [] }
    ensures { IfOk result (λ ending. IsRun input.now ending (string_bytes out.new)) }
{
    laws_of_runs();
    let mut rest = input;
    let mut number: u64 = 1;
    loop {
        if player.has_ended() {
            let ending = end(player, out)?;
            return Ok(ending);
        }
        match next_line_of(rest, input.len() - rest.len()) {
            NextLine::Line(text, after) => {
                if let Some(ending) = read_line(alloc, player, out, text, number)? {
                    return Ok(ending);
                }
                rest = after;
                number += 1;
            }
            NextLine::Long => {
                let ending = stop_at(out, number, Reason::Line)?;
                return Ok(ending);
            }
            NextLine::TooLong => {
                let ending = stop_past_limit(out)?;
                return Ok(ending);
            }
            NextLine::End => {
                let ending = stop_at_end(player, out, number)?;
                return Ok(ending);
            }
        }
    }
}

/// Reads a line with its number and carries it out. None where the run goes on.
fn read_line(
    alloc: Global,
    player: &mut Player,
    out: &mut String,
    text: &[u8],
    number: u64,
) -> Result<Option<Ending>, Memory>
    requires { IsUnderWay player.old }
    ensures { (h : List Turn) → Plays player.old h → string_bytes out.old ≡ trace (entries h) →
        IfOk result (λ ending.
        TurnsAt text.now h player.old.stage number ending player.new (string_bytes out.new)) }
{
    match player.read(alloc, out, text)? {
        Progress::Skipped | Progress::Carried => Ok(None),
        Progress::Later => {
            push_bad_line(out, number, "later")?;
            Ok(Some(Ending::Later))
        }
        Progress::Bad(reason) => {
            push_bad_line(out, number, reason.word())?;
            Ok(Some(Ending::Bad(reason)))
        }
    }
}

/// The run stops at a line with this number, which is bad for this reason.
fn stop_at(out: &mut String, number: u64, reason: Reason) -> Result<Ending, Memory>
    ensures { IfOk result
        (λ ending. (ending ≡ Ending.Bad reason)
        × (string_bytes out.new ≡ string_bytes out.old ++ bad_text number (reason_text reason))) }
{
    push_bad_line(out, number, reason.word())?;
    Ok(Ending::Bad(reason))
}

/// The run stops at a line that ends past the script's greatest length.
fn stop_past_limit(out: &mut String) -> Result<Ending, Memory>
    ensures { IfOk result
        (λ ending. (ending ≡ Ending.TooLong)
        × (string_bytes out.new ≡ string_bytes out.old ++ too_long_text)) }
{
    push_too_long(out)?;
    Ok(Ending::TooLong)
}

/// The run stops at the input's end, where a line would have this number.
fn stop_at_end(player: &Player, out: &mut String, number: u64) -> Result<Ending, Memory>
    requires { IsUnderWay player.now }
    ensures { IfOk result
        (λ ending. StopsAtEnd player.now number (string_bytes out.old) ending
        (string_bytes out.new)) }
{
    if player.is_running() {
        let ending = end(player, out)?;
        return Ok(ending);
    }
    let ending = stop_at(out, number, Reason::End)?;
    Ok(ending)
}

/// The run comes to its end.
fn end(player: &Player, out: &mut String) -> Result<Ending, Memory>
    requires { IsSome player.now.chain }
    ensures { IfOk result
        (λ ending. (ending ≡ Ending.Done)
        × Finishes player.now (string_bytes out.old) (string_bytes out.new)) }
{
    finish(player, out)?;
    Ok(Ending::Done)
}

/// Adds the totals of a run that came to its end, and its last line.
fn finish(player: &Player, out: &mut String) -> Result<(), Memory>
    requires { IsSome player.now.chain }
    ensures { OnOk result (Finishes player.now (string_bytes out.old) (string_bytes out.new)) }
{
    let totals = player.totals()?;
    push_totals_and_done(out, totals.as_slice())?;
    Ok(())
}
