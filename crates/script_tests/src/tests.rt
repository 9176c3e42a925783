// Each form of line, at the ends of its ranges and past them, each reason to refuse one, and each form of PDU shown.
mod forms;
mod misspellings;
mod routes;
mod shown_pdus;
mod tables;
mod texts;

use link_base::Memory;
use script_text::{Line, LineFault, ScriptStage, line_text, parse_line};
use std::alloc::{AllocError, Global};
use std::process::Abort;

/// The lines before the first one behind `go`, where there are no tables.
const RUNNING: &str = "relayscript 1\ngo";

/// A stage behind these lines.
fn stage_behind(alloc: Global, lines: &str) -> Result<ScriptStage, LineFault> {
    let mut stage = ScriptStage::new(alloc)?;
    for line in lines.split('\n') {
        parse_line(alloc, &mut stage, line.as_bytes())?;
    }
    Ok(stage)
}

/// What reading a line at a stage says: that it is `ok` or `skipped`, or the word of the reason.
fn verdict(alloc: Global, stage: &mut ScriptStage, line: &[u8]) -> &'static str {
    match parse_line(alloc, stage, line) {
        Ok(None) => "skipped",
        Ok(Some(_)) => "ok",
        Err(LineFault::Bad(reason)) => reason.word(),
        Err(LineFault::Memory) => "memory",
    }
}

/// Reads the lines of a table at a stage. Each row is what reading says, a bar, and the line.
fn check_rows(rt: &impl Abort, alloc: Global, stage: &mut ScriptStage, rows: &str) {
    for row in rows.split('\n') {
        let Some((want, line)) = row.split_once('|') else {
            panic!(rt; "a row without a bar");
        };
        let said = verdict(alloc, stage, line.as_bytes());
        assert_eq!(rt; said, want, "{line}");
    }
}

/// The line that a text spells at a stage.
fn line_at(rt: &impl Abort, alloc: Global, stage: &mut ScriptStage, text: &str) -> Line {
    match parse_line(alloc, stage, text.as_bytes()) {
        Ok(Some(line)) => line,
        _ => panic!(rt; "refused: {text}"),
    }
}

/// Reads each line at a stage and writes it. What is written is what was read.
fn check_round_trips(
    rt: &impl Abort,
    alloc: Global,
    stage: &mut ScriptStage,
    lines: &str,
) -> Result<(), Memory> {
    for text in lines.split('\n') {
        let line = line_at(rt, alloc, stage, text);
        let written = line_text(alloc, &line)?;
        assert_eq!(rt; written.as_slice(), text.as_bytes(), "{text}");
    }
    Ok(())
}

/// Reads the lines of a table at a stage. Each row is the line's value as `Debug` shows it, a bar, and the line.
fn check_values(
    rt: &impl Abort,
    alloc: Global,
    stage: &mut ScriptStage,
    rows: &str,
) -> Result<(), AllocError> {
    for row in rows.split('\n') {
        let Some((want, text)) = row.split_once('|') else {
            panic!(rt; "a row without a bar");
        };
        let line = line_at(rt, alloc, stage, text);
        let shown = format!(in alloc; "{line:?}")?;
        assert_eq!(rt; shown.as_str(), want, "{text}");
    }
    Ok(())
}

/// A line with a text added before the word at a place, which counts from 0.
fn with_text_before(
    alloc: Global,
    line: &str,
    place: usize,
    added: &str,
) -> Result<String, AllocError> {
    let mut text = String::new(alloc);
    for (at, word) in line.split(' ').enumerate() {
        if at > 0 {
            text.push_str(" ")?;
        }
        if at == place {
            text.push_str(added)?;
        }
        text.push_str(word)?;
    }
    Ok(text)
}
