// Why a line is bad.
ghost use Rattle.std.specs.Prelude.{◌≡◌};
ghost use Rattle.script_text.specs.Texts.{reason_text};

use link_base::Memory;

/// Why a line is no line of a script. Of several reasons the one named first here is answered.
#[derive(Clone, Copy, Debug, PartialEq, Eq)]
pub enum Reason {
    /// It has more than 65,536 bytes.
    Line,
    /// A byte isn't from 32 to 126.
    Text,
    /// It is the first line that isn't skipped, and isn't `relayscript 1`.
    Version,
    /// Its first word begins no line of this part of the script.
    Word,
    /// The number of its words, or the form of a word, is that of no line with this first word.
    Form,
    /// A number is outside its range.
    Range,
    /// A name is declared already; a setting, a map row, a first COUNT or a path is given already; or a path's local
    /// identity is that of another path.
    Twice,
    /// A remote, a bearer or a channel that a table line names isn't declared.
    Unknown,
    /// It would be a ninth remote, or a ninth bearer of a remote.
    Limit,
    /// It is `go`, and a remote that begins on the relay has a bearer without a map row.
    Map,
    /// The input ends before `go`.
    End,
}

impl Reason {
    /// The word that a trace has for it.
    pub fn word(self) -> &'static str
        ensures { result.now ≡ reason_text self }
    {
        match self {
            Reason::Line => "line",
            Reason::Text => "text",
            Reason::Version => "version",
            Reason::Word => "word",
            Reason::Form => "form",
            Reason::Range => "range",
            Reason::Twice => "twice",
            Reason::Unknown => "unknown",
            Reason::Limit => "limit",
            Reason::Map => "map",
            Reason::End => "end",
        }
    }
}

/// Why a line can't be read.
#[derive(Clone, Copy, Debug, PartialEq, Eq)]
pub enum LineFault {
    /// It is bad.
    Bad(Reason),
    /// Memory was refused.
    Memory,
}

impl From<Memory> for LineFault {
    ghost use Rattle.script_text.specs.declared.reason.LineFault.TheVariants as faults;

    ghost from_gives = { λ _ fault. fault ≡ faults.Memory };

    fn from(_: Memory) -> Self {
        LineFault::Memory
    }
}
