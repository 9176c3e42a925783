// Pieces of text that lines, replies and events share.
ghost use Rattle.std.specs.Prelude.{◌≡◌, ◌++◌, ◌∷◌, map, OnOk, string_bytes};
ghost use Rattle.std.specs.Fmt.{decimal};
ghost use Rattle.script_text.specs.Fields.{field_text, spaced};
ghost use Rattle.script_text.specs.Words.{hex_text, node_text, port_text, setting_text, side_text, size_text, timer_text, way_text};
ghost use Rattle.script_text.specs.Lines.{goal_fields};
ghost use Rattle.script_text.specs.Texts.{key_words};

use crate::hex_words::push_hex;
use bearer_map::SetName;
use link_base::{Goal, Key, Node, PortName, Side, SnSize, Timer, Way};
use std::alloc::AllocError;

/// Adds the name of a port.
pub(crate) fn push_port(out: &mut String, port: PortName) -> Result<(), AllocError>
    ensures { OnOk result (string_bytes out.new ≡ string_bytes out.old ++ port_text port) }
{
    match port {
        PortName::Direct(remote, drb) => {
            let remote = remote.0;
            let drb = drb.0;
            write!(out, "d{remote}.{drb}")
        }
        PortName::Pc5(remote, chan) => {
            let remote = remote.0;
            let chan = chan.0;
            write!(out, "p{remote}.{chan}")
        }
        PortName::Uu(chan) => {
            let chan = chan.0;
            write!(out, "u{chan}")
        }
    }
}

/// The text of a way.
pub(crate) fn way_text(way: Way) -> &'static str
    ensures { result.now ≡ way_text way }
{
    match way {
        Way::Ul => "ul",
        Way::Dl => "dl",
    }
}

/// Adds remote, bearer and way, each behind a space.
pub(crate) fn push_key(out: &mut String, key: &Key) -> Result<(), AllocError>
    ensures { OnOk result
        (string_bytes out.new ≡ string_bytes out.old ++ spaced (key_words key.now)) }
{
    let remote = key.remote.0;
    let drb = key.drb.0;
    let way = way_text(key.way);
    write!(out, " {remote} {drb} {way}")
}

/// Adds a word behind a space.
pub(crate) fn push_word(out: &mut String, word: &str) -> Result<(), AllocError>
    ensures { OnOk result (string_bytes out.new ≡ string_bytes out.old ++ 32 ∷ word.now) }
{
    out.push_str(" ")?;
    out.push_str(word)
}

/// Adds a number behind a space.
pub(crate) fn push_number(out: &mut String, number: u64) -> Result<(), AllocError>
    ensures { OnOk result (string_bytes out.new ≡ string_bytes out.old ++ 32 ∷ decimal number) }
{
    write!(out, " {number}")
}

/// Adds the name of a port behind a space.
pub(crate) fn push_port_word(out: &mut String, port: PortName) -> Result<(), AllocError>
    ensures { OnOk result (string_bytes out.new ≡ string_bytes out.old ++ 32 ∷ port_text port) }
{
    out.push_str(" ")?;
    push_port(out, port)
}

/// Adds bytes behind a space.
pub(crate) fn push_hex_word(out: &mut String, bytes: &[u8]) -> Result<(), AllocError>
    ensures { OnOk result (string_bytes out.new ≡ string_bytes out.old ++ 32 ∷ hex_text bytes.now) }
{
    out.push_str(" ")?;
    push_hex(out, bytes)
}

/// Adds a path, each of its words behind a space.
pub(crate) fn push_goal(out: &mut String, goal: Goal) -> Result<(), AllocError>
    ensures { OnOk result
        (string_bytes out.new ≡ string_bytes out.old
        ++ spaced (map field_text (goal_fields goal))) }
{
    match goal {
        Goal::Direct => out.push_str(" direct"),
        Goal::Relay(id) => write!(out, " relay {}", id.0),
    }
}

pub(crate) fn size_text(size: SnSize) -> &'static str
    ensures { result.now ≡ size_text size }
{
    match size {
        SnSize::S12 => "12",
        SnSize::S18 => "18",
    }
}

pub(crate) fn side_text(side: Side) -> &'static str
    ensures { result.now ≡ side_text side }
{
    match side {
        Side::Low => "low",
        Side::High => "high",
    }
}

pub(crate) fn timer_text(timer: Timer) -> &'static str
    ensures { result.now ≡ timer_text timer }
{
    match timer {
        Timer::Poll => "poll",
        Timer::Reasm => "reasm",
        Timer::Prohibit => "prohibit",
    }
}

pub(crate) fn node_text(node: Node) -> &'static str
    ensures { result.now ≡ node_text node }
{
    match node {
        Node::Remote => "remote",
        Node::Relay => "relay",
        Node::Gnb => "gnb",
    }
}

pub(crate) fn setting_text(name: SetName) -> &'static str
    ensures { result.now ≡ setting_text name }
{
    match name {
        SetName::Queue => "queue",
        SetName::Report => "report",
        SetName::PollPdu => "pollpdu",
        SetName::PollByte => "pollbyte",
        SetName::MaxRetx => "maxretx",
    }
}
