// A player reads one line after the other.
ghost use Rattle.std.specs.Prelude.{◌≡◌, [], IfOk, OnOk, is_some};
ghost use Rattle.script_text.specs.Lines.{part_of};
ghost use Rattle.script_text.specs.Stages.{is_past_go, part_after};
ghost use Rattle.chain_model.specs.Runs.{Behaves, Turns, contents};
ghost use Rattle.chain_model.specs.State.{opened};
ghost use Rattle.player.specs.Plays.{chain_or, turn_of};
ghost use Rattle.chain_core.specs.Opening.{CanOpen};
ghost use Rattle.player.specs.Carrying.{CanCarry, CanPlay, is_end};

use crate::carried::is_carried;
use crate::foundations::laws_of_lines;
use bearer_map::Tables;
use chain_core::Chain;
use link_base::Memory;
use script_text::{
    EventList, Line, LineFault, Part, Reason, Reply, ScriptStage, TotalList, parse_line,
    push_answer,
};
use std::alloc::Global;

/// What became of a line.
#[derive(Clone, Copy, Debug, PartialEq, Eq)]
pub enum Progress {
    /// It is one that is skipped.
    Skipped,
    /// It was carried out.
    Carried,
    /// It is a line of a script, but of a form that isn't carried out yet.
    Later,
    /// It is no line of a script, for this reason.
    Bad(Reason),
}

/// A script that is under way.
#[derive(Drop)]
pub struct Player {
    /// How far the script has come, and what its table lines have declared.
    pub stage: ScriptStage,
    /// The chain that the tables opened, behind `go`.
    pub chain: Option<Chain>,
}

impl Player {
    ghost use Rattle.std.specs.Prelude.{◌≡◌, ◌++◌, List, [], map, Some, IsSome, IfOk, string_bytes};
    ghost use Rattle.script_text.specs.Texts.{is_running};
    ghost use Rattle.script_text.specs.History.{trace};
    ghost use Rattle.chain_model.specs.Runs.{Turn, entries};
    ghost use Rattle.player.specs.Ended.{is_ended};
    ghost use Rattle.chain_model.specs.State.{Chain};
    ghost use Rattle.node_model.specs.Tables.{keys};
    ghost use Rattle.chain_core.specs.Chain.{total_of};
    ghost use Rattle.player.specs.Plays.{Plays, IsUnderWay, ReadsText};

    /// A player that has read nothing.
    pub fn new(alloc: Global) -> Result<Self, Memory>
        ensures { IfOk result (λ player. Plays player []) }
    {
        let stage = ScriptStage::new(alloc)?;
        Ok(Player { stage, chain: None })
    }

    /// Whether an `end` line was carried out.
    pub fn has_ended(&self) -> bool
        ensures { result ≡ is_ended self.now.stage.part }
    {
        matches!(self.stage.part(), Part::Ended)
    }

    /// Whether the script stands behind `go`, and before an `end` line.
    pub fn is_running(&self) -> bool
        ensures { result ≡ is_running self.now.stage.part }
    {
        matches!(self.stage.part(), Part::Running)
    }

    /// What became of each key, in key order. It needs a player that has a chain.
    pub fn totals(&self) -> Result<TotalList, Memory>
        requires { IsSome self.now.chain }
        ensures { (chain : Chain) → self.now.chain ≡ Some chain → IfOk result
            (λ totals. totals ≡ map (total_of chain) (keys chain.tables)) }
    {
        let Some(chain) = &self.chain else {
            unreachable!()
        };
        chain.totals()
    }

    /// Reads a line, carries it out, and adds what it prints to the text. It needs a player to which some lines have led.
    pub fn read(&mut self, alloc: Global, out: &mut String, text: &[u8]) -> Result<Progress, Memory>
        requires { IsUnderWay self.old }
        ensures { (h : List Turn) → Plays self.old h → string_bytes out.old ≡ trace (entries h) →
            IfOk result (λ progress.
            ReadsText text.now h self.old.stage progress self.new (string_bytes out.new)) }
    {
        match parse_line(alloc, &mut self.stage, text) {
            Ok(None) => Ok(Progress::Skipped),
            Err(LineFault::Bad(reason)) => Ok(Progress::Bad(reason)),
            Err(LineFault::Memory) => Err(Memory),
            Ok(Some(line)) => {
                if !is_carried(&line) {
                    return Ok(Progress::Later);
                }
                laws_of_lines();
                let mut events = EventList::new(alloc);
                let reply = carry(alloc, &self.stage, &mut self.chain, &line, &mut events)?;
                push_answer(out, &line, events.as_slice(), &reply)?;
                Ok(Progress::Carried)
            }
        }
    }
}

/// Carries out a line, behind which the script stands at this stage, and logs its events in an empty log: `go` opens the chain
/// of the tables, and the lines before it bring nothing about.
fn carry(
    alloc: Global,
    stage: &ScriptStage,
    chain: &mut Option<Chain>,
    line: &Line,
    log: &mut EventList,
) -> Result<Reply, Memory>
    requires can { CanCarry stage.now chain.old line.now }
    requires empty { log.old ≡ [] }
    ensures turns { IfOk result (λ reply. Turns (part_of line.now) stage.now
        (chain_or stage.now chain.old) (turn_of line.now log.new reply)
        (chain_or stage.now chain.new)) }
    ensures runs { OnOk result (is_some chain.new ≡ is_past_go (part_after (part_of line.now) line.now)) }
{
    if let Some(chain) = chain {
        return play(chain, line, log);
    }
    if matches!(line, Line::Go) {
        *chain = Some(open(alloc, stage)?);
    }
    Ok(Reply::Ok)
}

/// Carries out a line behind `go`, and logs its events in an empty log.
fn play(chain: &mut Chain, line: &Line, log: &mut EventList) -> Result<Reply, Memory>
    requires can { CanPlay chain.old line.now }
    requires empty { log.old ≡ [] }
    ensures { IfOk result
        (λ reply. Behaves chain.old [] line.now log.new reply chain.new) }
{
    if is_end(line) {
        return Ok(Reply::Ok);
    }
    let reply = chain.step(line, log)?;
    Ok(reply)
}

fn is_end(line: &Line) -> bool
    ensures { result ≡ is_end line.now }
{
    matches!(line, Line::End)
}

/// The chain that the tables of a stage open.
fn open(alloc: Global, stage: &ScriptStage) -> Result<Chain, Memory>
    requires { CanOpen (contents stage.now) }
    ensures { IfOk result (λ chain. chain ≡ opened (contents stage.now)) }
{
    let tables = match stage.tables() {
        Some(tables) => tables.copy(alloc)?,
        None => Tables::new(alloc)?,
    };
    let chain = Chain::new(alloc, tables)?;
    Ok(chain)
}
