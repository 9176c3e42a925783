// The words of a line, read in turn. What is wrong with one is kept until all were read, since a word that has no form is
// told before a number outside its range, wherever each stands.
ghost use Rattle.std.specs.Prelude.{◌≡◌, ◌≤◌, ◌∷◌, [], drop, true, IfOk, IsTrue, ◌↔◌};
ghost use Rattle.std.specs.Str.{bytes_eq};
ghost use Rattle.script_text.specs.Words.{words_of};
ghost use Rattle.script_text.specs.Fields.{Field, Number, Size, Hex, Port, Way as WayField, Side as SideField, Timer as TimerField, Node as NodeField, Setting};
ghost use Rattle.script_text.specs.Lines.{remote, drb, chan, value_of, goal_fields};
ghost use Rattle.script_text.specs.Reading.{words_left, next_word, fault_in, Reads, ReadsAll, Skips, Misspells};

use crate::Reason;
use crate::hex_words::{hex_bytes, is_hex};
use crate::next_line::place_of;
use crate::numbers::{is_numeral, number};
use crate::ports::{is_port_form, port};
use bearer_map::SetName;
use link_base::{
    Bytes, Chan, Drb, Goal, Key, LocalId, Memory, Node, PortName, Remote, Side, SnSize, Timer, Way,
};
use std::alloc::Global;

const SPACE: u8 = 32;

/// Reads the words of a line in turn.
#[derive(Drop)]
pub(crate) struct Reader<'a> {
    // What stands behind the words that were read, unless all were.
    rest: &'a [u8],
    is_done: bool,
    // Whether each word that was read has the form of what it was read as, and whether it spells that.
    is_formed: bool,
    is_spelt: bool,
}

impl<'a> Reader<'a> {
    /// Of a line none of whose words were read.
    pub(crate) fn new(line: &'a [u8]) -> Reader<'a>
        ensures words { words_left result ≡ words_of line.now }
        ensures formed { result.is_formed ≡ true }
        ensures spelt { result.is_spelt ≡ true }
    {
        Reader {
            rest: line,
            is_done: false,
            is_formed: true,
            is_spelt: true,
        }
    }

    /// What is wrong with the words that were read, or that some are left.
    pub(crate) fn fault(&self) -> Option<Reason>
        ensures { result ≡ fault_in self.now }
    {
        if !self.is_done || !self.is_formed {
            Some(Reason::Form)
        } else if !self.is_spelt {
            Some(Reason::Range)
        } else {
            None
        }
    }

    /// The next word, or an empty one where none is left.
    pub(crate) fn next_word(&mut self) -> &'a [u8]
        ensures word { result.now ≡ next_word self.old }
        ensures skips { Skips self.old self.new }
    {
        if self.is_done {
            return &[];
        }
        let rest = self.rest;
        match place_of(SPACE, rest) {
            Some(at) => {
                self.rest = &rest[at + 1..];
                &rest[..at]
            }
            None => {
                self.is_done = true;
                rest
            }
        }
    }

    /// The last word doesn't spell what it was read as. It may still have the form of that.
    fn misspell(&mut self, has_form: bool)
        ensures { Misspells has_form self.old self.new }
    {
        self.is_formed = has_form && self.is_formed;
        self.is_spelt = false;
    }

    /// A number from `low` to `high`.
    pub(crate) fn number(&mut self, low: u64, high: u64) -> u64
        requires { low ≤ high }
        ensures reads { Reads self.old (Number low high result) self.new }
        ensures low { low ≤ result }
        ensures high { result ≤ high }
    {
        let word = self.next_word();
        match number(word, low, high) {
            Some(n) => n,
            None => {
                self.misspell(is_numeral(word));
                low
            }
        }
    }

    pub(crate) fn remote(&mut self) -> Remote
        ensures { Reads self.old (remote result) self.new }
    {
        Remote(self.number(1, 65_535) as u16)
    }

    pub(crate) fn drb(&mut self) -> Drb
        ensures { Reads self.old (drb result) self.new }
    {
        Drb(self.number(1, 32) as u8)
    }

    pub(crate) fn chan(&mut self) -> Chan
        ensures { Reads self.old (chan result) self.new }
    {
        Chan(self.number(1, 8) as u8)
    }

    /// A value in a setting's range.
    pub(crate) fn value(&mut self, name: SetName) -> u32
        ensures { Reads self.old (value_of name result) self.new }
    {
        match name {
            SetName::Queue => self.number(1, 1_024) as u32,
            SetName::Report => self.number(0, 65_536) as u32,
            SetName::PollPdu => self.number(0, 65_536) as u32,
            SetName::PollByte => self.number(0, 16_777_216) as u32,
            SetName::MaxRetx => self.number(1, 255) as u32,
        }
    }

    /// The size of sequence numbers: 12 or 18.
    pub(crate) fn size(&mut self) -> SnSize
        ensures { Reads self.old (Size result) self.new }
    {
        let word = self.next_word();
        if is_word(word, "12") {
            return SnSize::S12;
        }
        if is_word(word, "18") {
            return SnSize::S18;
        }
        self.misspell(is_numeral(word));
        SnSize::S12
    }

    pub(crate) fn hex(&mut self, alloc: Global) -> Result<Bytes, Memory>
        ensures { IfOk result (λ bytes. Reads self.old (Hex bytes) self.new) }
    {
        let word = self.next_word();
        match hex_bytes(alloc, word)? {
            Some(bytes) => Ok(bytes),
            None => {
                self.misspell(is_hex(word));
                Ok(Bytes::new(alloc))
            }
        }
    }

    pub(crate) fn port(&mut self) -> PortName
        ensures { Reads self.old (Port result) self.new }
    {
        let word = self.next_word();
        match port(word) {
            Some(port) => port,
            None => {
                self.misspell(is_port_form(word));
                PortName::Uu(Chan(1))
            }
        }
    }

    pub(crate) fn way(&mut self) -> Way
        ensures { Reads self.old (WayField result) self.new }
    {
        let word = self.next_word();
        if is_word(word, "ul") {
            return Way::Ul;
        }
        if is_word(word, "dl") {
            return Way::Dl;
        }
        self.misspell(false);
        Way::Ul
    }

    pub(crate) fn side(&mut self) -> Side
        ensures { Reads self.old (SideField result) self.new }
    {
        let word = self.next_word();
        if is_word(word, "low") {
            return Side::Low;
        }
        if is_word(word, "high") {
            return Side::High;
        }
        self.misspell(false);
        Side::Low
    }

    pub(crate) fn timer(&mut self) -> Timer
        ensures { Reads self.old (TimerField result) self.new }
    {
        let word = self.next_word();
        if is_word(word, "poll") {
            return Timer::Poll;
        }
        if is_word(word, "reasm") {
            return Timer::Reasm;
        }
        if is_word(word, "prohibit") {
            return Timer::Prohibit;
        }
        self.misspell(false);
        Timer::Poll
    }

    pub(crate) fn node(&mut self) -> Node
        ensures { Reads self.old (NodeField result) self.new }
    {
        let word = self.next_word();
        if is_word(word, "remote") {
            return Node::Remote;
        }
        if is_word(word, "relay") {
            return Node::Relay;
        }
        if is_word(word, "gnb") {
            return Node::Gnb;
        }
        self.misspell(false);
        Node::Remote
    }

    pub(crate) fn setting(&mut self) -> SetName
        ensures { Reads self.old (Setting result) self.new }
    {
        let word = self.next_word();
        if is_word(word, "queue") {
            return SetName::Queue;
        }
        if is_word(word, "report") {
            return SetName::Report;
        }
        if is_word(word, "pollpdu") {
            return SetName::PollPdu;
        }
        if is_word(word, "pollbyte") {
            return SetName::PollByte;
        }
        if is_word(word, "maxretx") {
            return SetName::MaxRetx;
        }
        self.misspell(false);
        SetName::Queue
    }

    /// Remote, bearer and way.
    pub(crate) fn key(&mut self) -> Key
        ensures { ReadsAll self.old
            (remote result.remote ∷ drb result.drb ∷ WayField result.way ∷ [])
            self.new }
    {
        let remote = self.remote();
        let drb = self.drb();
        let way = self.way();
        Key { remote, drb, way }
    }

    /// A path: `direct`, or `relay ID` with an ID from 0 to 255.
    pub(crate) fn goal(&mut self) -> Goal
        ensures { ReadsAll self.old (goal_fields result) self.new }
    {
        let word = self.next_word();
        if is_word(word, "relay") {
            let id = self.number(0, 255);
            return Goal::Relay(LocalId(id as u8));
        }
        if is_word(word, "direct") {
            return Goal::Direct;
        }
        self.misspell(false);
        Goal::Direct
    }
}

/// Whether the word is this text.
pub(crate) fn is_word(word: &[u8], text: &str) -> bool
    ensures same { IsTrue result ↔ (word.now ≡ text.now) }
    ensures test { result ≡ bytes_eq word.now text.now }
{
    word == text.as_bytes()
}
