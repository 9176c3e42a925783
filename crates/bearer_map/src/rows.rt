// The rows of the tables, and why a table line is refused.
ghost use Rattle.std.specs.Prelude.{◌≡◌};

use link_base::{Chan, Drb, Goal, Memory, Remote, SnSize};

/// A remote.
#[derive(Clone, Copy, Debug, PartialEq, Eq)]
pub struct RemoteRow {
    /// Its name, from 1 to 65,535.
    pub remote: Remote,
    /// The path at the start.
    pub goal: Goal,
}

/// A data radio bearer between a remote and the gNB.
#[derive(Clone, Copy, Debug, PartialEq, Eq)]
pub struct BearerRow {
    /// The remote that has the bearer.
    pub remote: Remote,
    /// The bearer's identity, from 1 to 32.
    pub drb: Drb,
    /// The size of its PDCP sequence numbers.
    pub pdcp: SnSize,
    /// The size of the RLC sequence numbers of its direct port.
    pub direct: SnSize,
    /// The first COUNT uplink, from 0 to 2^32 - 2.
    pub first_ul: u32,
    /// The first COUNT downlink, from 0 to 2^32 - 2.
    pub first_dl: u32,
}

/// An RLC channel between the relay and the gNB.
#[derive(Clone, Copy, Debug, PartialEq, Eq)]
pub struct UuRow {
    /// The channel, from 1 to 8.
    pub chan: Chan,
    /// The size of its RLC sequence numbers.
    pub size: SnSize,
}

/// An RLC channel between a remote and the relay.
#[derive(Clone, Copy, Debug, PartialEq, Eq)]
pub struct Pc5Row {
    /// The remote at its low side.
    pub remote: Remote,
    /// The channel, among those of its remote, from 1 to 8.
    pub chan: Chan,
    /// The size of its RLC sequence numbers.
    pub size: SnSize,
}

/// Which channels a bearer uses on the relay path (TS 38.351 clause 5.2).
#[derive(Clone, Copy, Debug, PartialEq, Eq)]
pub struct MapRow {
    /// The remote that has the bearer.
    pub remote: Remote,
    /// The bearer.
    pub drb: Drb,
    /// Its channel between the remote and the relay.
    pub pc5: Chan,
    /// Its channel between the relay and the gNB.
    pub uu: Chan,
}

/// Why a table line is refused. Of several causes the one named first here is answered.
#[derive(Clone, Copy, Debug, PartialEq, Eq)]
pub enum TableFault {
    /// A number is outside its range.
    Range,
    /// A name is declared already; a setting, a map row, a first COUNT or a path is given already; or a path's local
    /// identity is that of another path.
    Twice,
    /// A remote, a bearer or a channel that the line names isn't declared.
    Unknown,
    /// It would be a ninth remote, or a ninth bearer of a remote.
    Limit,
    /// A remote that begins on the relay has a bearer without a map row.
    NoMap,
    /// Memory was refused.
    Memory,
}

impl From<Memory> for TableFault {
    ghost use Rattle.bearer_map.specs.declared.rows.TableFault.TheVariants as faults;

    ghost from_gives = { λ _ e. e ≡ faults.Memory };

    fn from(_: Memory) -> Self {
        TableFault::Memory
    }
}
