// Names of nodes, bearers, channels and ports, as scripts and traces use them.
ghost use Rattle.std.specs.Prelude.{◌≡◌};
ghost use Rattle.link_base.specs.SequenceNumbers.{modulus, window, most_unconfirmed};

/// How many bits a sequence number has on the air (TS 38.322 clause 6.2.3.3, TS 38.323 clause 6.3.2).
#[derive(Clone, Copy, Debug, PartialEq, Eq)]
pub enum SnSize {
    /// 12 bits: numbers from 0 to 4,095.
    S12,
    /// 18 bits: numbers from 0 to 262,143.
    S18,
}

impl SnSize {
    /// How many sequence numbers there are: 4,096 or 262,144.
    pub fn modulus(self) -> u64
        ensures { result ≡ modulus self }
    {
        match self {
            SnSize::S12 => 4_096,
            SnSize::S18 => 262_144,
        }
    }

    /// Half as many, the size of a window of numbers (TS 38.322 clause 7.2, TS 38.323 clause 7.2): 2,048 or 131,072.
    pub fn window(self) -> u64
        ensures { result ≡ window self }
    {
        match self {
            SnSize::S12 => 2_048,
            SnSize::S18 => 131_072,
        }
    }

    /// How many SDUs a PDCP sender keeps at most that are not confirmed: 2,048 or 65,536. The profile bounds them so that a
    /// status report names each by a bit of a bitmap of at most 8,192 octets.
    pub fn most_unconfirmed(self) -> u64
        ensures { result ≡ most_unconfirmed self }
    {
        match self {
            SnSize::S12 => 2_048,
            SnSize::S18 => 65_536,
        }
    }
}

/// The direction of a PDU along a port.
#[derive(Clone, Copy, Debug, PartialEq, Eq)]
pub enum Way {
    /// Uplink, from the low side to the high side.
    Ul,
    /// Downlink, from the high side to the low side.
    Dl,
}

/// One of the two ends of a port.
#[derive(Clone, Copy, Debug, PartialEq, Eq)]
pub enum Side {
    /// The end nearer to the remote.
    Low,
    /// The end nearer to the gNB.
    High,
}

/// A kind of node (TS 38.300 clause 16.12).
#[derive(Clone, Copy, Debug, PartialEq, Eq)]
pub enum Node {
    /// The U2N remote UE.
    Remote,
    /// The U2N relay UE.
    Relay,
    /// The base station.
    Gnb,
}

/// A timer of an RLC entity (TS 38.322 clause 7.3).
#[derive(Clone, Copy, Debug, PartialEq, Eq)]
pub enum Timer {
    /// t-PollRetransmit of the transmitting side.
    Poll,
    /// t-Reassembly of the receiving side.
    Reasm,
    /// t-StatusProhibit of the receiving side.
    Prohibit,
}

/// A remote, from 1 to 65,535.
#[derive(Clone, Copy, Debug, PartialEq, Eq)]
pub struct Remote(pub u16);

/// The identity of a data radio bearer, from 1 to 32.
#[derive(Clone, Copy, Debug, PartialEq, Eq)]
pub struct Drb(pub u8);

/// An RLC channel of the PC5 or the Uu interface, from 1 to 8.
#[derive(Clone, Copy, Debug, PartialEq, Eq)]
pub struct Chan(pub u8);

/// The local identity by which a SRAP header names a remote, its UE ID (TS 38.351 clause 6.3.2), from 0 to 255.
#[derive(Clone, Copy, Debug, PartialEq, Eq)]
pub struct LocalId(pub u8);

/// A bearer in one way.
#[derive(Clone, Copy, Debug, PartialEq, Eq)]
pub struct Key {
    /// The remote that has the bearer.
    pub remote: Remote,
    /// The bearer, among those of its remote.
    pub drb: Drb,
    /// From which of the bearer's ends its SDUs come.
    pub way: Way,
}

/// A link between two nodes, with an RLC entity at each of its sides.
#[derive(Clone, Copy, Debug, PartialEq, Eq)]
pub enum PortName {
    /// A bearer's own link between its remote and the gNB.
    Direct(Remote, Drb),
    /// A PC5 channel between a remote and the relay.
    Pc5(Remote, Chan),
    /// A Uu channel between the relay and the gNB.
    Uu(Chan),
}

/// The path that a remote is to take.
#[derive(Clone, Copy, Debug, PartialEq, Eq)]
pub enum Goal {
    /// Over its own radio link.
    Direct,
    /// Over the relay, with this local identity.
    Relay(LocalId),
}

/// Where a local identity is still in use.
#[derive(Clone, Copy, Debug, PartialEq, Eq)]
pub enum Place {
    /// A node attaches it to this remote.
    Attached(Remote),
    /// An open plan of this remote asks for it.
    Planned(Remote),
    /// The ingress slot of this port of the relay holds an SDU that bears it.
    Slot(PortName),
    /// The egress queue of this port of the relay holds one.
    Queue(PortName),
    /// A transmitter of this Uu channel holds an unconfirmed one.
    Uu(Chan),
}
