// How far a script has come, and what its table lines have declared.
ghost use Rattle.std.specs.Prelude.{◌≡◌, IfOk, IfSome, IfNone, Some, None, if◌then◌else◌};
ghost use Rattle.bearer_map.specs.Lines.{Follows};
ghost use Rattle.bearer_map.specs.Contents.{nothing};
ghost use Rattle.script_text.specs.Stages.{EntersStage, after, sn_bits, first_stage, is_past_go, part_after, table_line, without_tables};

use crate::Line;
use bearer_map::{TableFault, Tables};
use link_base::{Memory, SnSize};
use std::alloc::Global;

/// A part of a script.
#[derive(Clone, Copy, Debug, PartialEq, Eq)]
pub enum Part {
    /// Before the first line that isn't skipped.
    Start,
    /// Among the table lines.
    Tables,
    /// Behind `go`.
    Running,
    /// Behind `end`.
    Ended,
}

/// How far a script has come, and what its table lines have declared.
#[derive(Debug, Drop)]
pub struct ScriptStage {
    pub(crate) part: Part,
    pub(crate) tables: Option<Tables>,
}

impl ScriptStage {
    /// Before the first line.
    pub fn new(alloc: Global) -> Result<ScriptStage, Memory>
        ensures { IfOk result (λ stage. stage ≡ first_stage) }
    {
        Ok(ScriptStage {
            part: Part::Start,
            tables: Some(Tables::new(alloc)?),
        })
    }

    /// The part of the script in which the next line stands.
    pub fn part(&self) -> Part
        ensures { result ≡ self.now.part }
    {
        self.part
    }

    /// What the table lines have declared, or None where it was taken.
    pub fn tables(&self) -> Option<&Tables>
        ensures some { IfSome result (λ tables. self.now.tables ≡ Some tables.now) }
        ensures none { IfNone result (self.now.tables ≡ None) }
    {
        self.tables.as_ref()
    }

    /// Gives the tables away once `go` was read; None where it wasn't read yet, or where they were taken before. The
    /// lines behind `go` are read without them.
    pub fn take_tables(&mut self) -> Option<Tables>
        ensures taken { result ≡ (if is_past_go self.old.part then self.old.tables else None) }
        ensures left { self.new
            ≡ (if is_past_go self.old.part then without_tables self.old else self.old) }
    {
        match self.part {
            Part::Start | Part::Tables => None,
            Part::Running | Part::Ended => self.tables.take(),
        }
    }

    /// Reads a line of this part. After an `Err` the stage is as it was.
    pub(crate) fn enter(&mut self, line: &Line) -> Result<(), TableFault>
        ensures { EntersStage result self.old self.new (after self.old line.now) }
    {
        match &mut self.tables {
            Some(tables) => declare(tables, line)?,
            None => {}
        }
        self.part = part_after(self.part, line);
        Ok(())
    }
}

/// The part of the script behind a line.
fn part_after(part: Part, line: &Line) -> Part
    ensures { result ≡ part_after part line.now }
{
    match line {
        Line::Version { .. } => Part::Tables,
        Line::Go => Part::Running,
        Line::End => Part::Ended,
        _ => part,
    }
}

/// Enters what a table line declares. After an `Err` the tables are as they were.
fn declare(tables: &mut Tables, line: &Line) -> Result<(), TableFault>
    ensures { Follows result tables.old tables.new (table_line tables.old line.now) }
{
    match line {
        Line::Set { name, value } => tables.set(*name, *value),
        Line::Remote { remote } => tables.remote(u32::from(remote.0)),
        Line::Bearer {
            remote,
            drb,
            pdcp,
            direct,
        } => tables.bearer(
            u32::from(remote.0),
            u32::from(drb.0),
            bits(*pdcp),
            bits(*direct),
        ),
        Line::Uu { chan, size } => tables.uu(u32::from(chan.0), bits(*size)),
        Line::Pc5 { remote, chan, size } => tables.pc5(
            u32::from(remote.0),
            u32::from(chan.0),
            bits(*size),
        ),
        Line::Map {
            remote,
            drb,
            pc5,
            uu,
        } => tables.map(
            u32::from(remote.0),
            u32::from(drb.0),
            u32::from(pc5.0),
            u32::from(uu.0),
        ),
        Line::Start { key, first } => tables.start(
            u32::from(key.remote.0),
            u32::from(key.drb.0),
            key.way,
            *first,
        ),
        Line::Path { remote, goal } => tables.path(u32::from(remote.0), *goal),
        Line::Go => tables.check(),
        _ => Ok(()),
    }
}

/// How many bits a sequence number has.
fn bits(size: SnSize) -> u32
    ensures { result ≡ sn_bits size }
{
    match size {
        SnSize::S12 => 12,
        SnSize::S18 => 18,
    }
}
