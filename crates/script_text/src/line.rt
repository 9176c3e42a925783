// The lines of a script.
use bearer_map::SetName;
use link_base::{Bytes, Chan, Drb, Goal, Key, Node, PortName, Remote, Side, SnSize, Timer, Way};

/// A line of a script that isn't skipped.
#[derive(Debug, Drop)]
pub enum Line {
    /// `relayscript N`: the version of the script's language.
    Version {
        /// 1 until there is another version.
        number: u8,
    },
    /// `set NAME N`: gives a setting its value.
    Set {
        /// The setting.
        name: SetName,
        /// The value, in the setting's range.
        value: u32,
    },
    /// `remote R`: declares a remote.
    Remote {
        /// The remote's name.
        remote: Remote,
    },
    /// `bearer R D P C`: declares a bearer of a remote.
    Bearer {
        /// The remote, which a line before has declared.
        remote: Remote,
        /// The bearer's identity.
        drb: Drb,
        /// The size of the bearer's PDCP sequence numbers.
        pdcp: SnSize,
        /// The size of the RLC sequence numbers on the bearer's direct port.
        direct: SnSize,
    },
    /// `uu U S`: declares a channel between the relay and the gNB.
    Uu {
        /// The channel.
        chan: Chan,
        /// The size of its RLC sequence numbers.
        size: SnSize,
    },
    /// `pc5 R C S`: declares a channel between a remote and the relay.
    Pc5 {
        /// The remote.
        remote: Remote,
        /// The channel, among those of its remote.
        chan: Chan,
        /// The size of its RLC sequence numbers.
        size: SnSize,
    },
    /// `map R D C U`: the channels of a bearer on the relay path.
    Map {
        /// The remote that has the bearer.
        remote: Remote,
        /// The bearer.
        drb: Drb,
        /// Its channel between the remote and the relay.
        pc5: Chan,
        /// Its channel between the relay and the gNB.
        uu: Chan,
    },
    /// `start R D WAY N`: the first COUNT of a bearer in one way.
    Start {
        /// The bearer and the way.
        key: Key,
        /// The first COUNT, from 0 to 2^32 - 2.
        first: u32,
    },
    /// `path R direct` or `path R relay ID`: the path of a remote at the start.
    Path {
        /// The remote.
        remote: Remote,
        /// Its path.
        goal: Goal,
    },
    /// `go`: ends the tables.
    Go,
    /// `submit R D WAY HEX`: an SDU comes to the PDCP entity of the key's sending end.
    Submit {
        /// The bearer and the way.
        key: Key,
        /// The SDU.
        sdu: Bytes,
    },
    /// `grant PORT WAY N`: the sender of that way may send one PDU.
    Grant {
        /// The port that the PDU goes over.
        port: PortName,
        /// The way in which it goes.
        way: Way,
        /// The greatest number of bytes that it may have, from 1 to 65,535.
        n: u32,
    },
    /// `deliver T`: the PDU of a ticket comes to its receiver, and is on the air no more.
    Deliver {
        /// The ticket, from 1.
        ticket: u64,
    },
    /// `repeat T`: the PDU of a ticket comes to its receiver, and stays on the air.
    Repeat {
        /// The ticket, from 1.
        ticket: u64,
    },
    /// `lose T`: the PDU of a ticket is lost.
    Lose {
        /// The ticket, from 1.
        ticket: u64,
    },
    /// `stage T`: the PDU of a ticket waits for the next burst at the relay.
    Stage {
        /// The ticket, from 1.
        ticket: u64,
    },
    /// `expire PORT SIDE TIMER`: a timer expires.
    Expire {
        /// The port whose entity has the timer.
        port: PortName,
        /// The side of the port.
        side: Side,
        /// The timer.
        timer: Timer,
    },
    /// `push PORT`: the SDU in the slot of an ingress port of the relay goes to its queue.
    Push {
        /// The ingress port.
        port: PortName,
    },
    /// `pull PORT`: the first SDU of the queue of an egress port of the relay goes to its transmitter.
    Pull {
        /// The egress port.
        port: PortName,
    },
    /// `burst`: the relay works on all that is staged.
    Burst,
    /// `report R D WAY`: a report about a key is wanted.
    Report {
        /// The bearer and the way.
        key: Key,
    },
    /// `plan R direct` or `plan R relay ID`: opens a plan that a remote goes to a path.
    Plan {
        /// The remote.
        remote: Remote,
        /// The path.
        goal: Goal,
    },
    /// `apply R NODE`: a node applies the open plan of a remote.
    Apply {
        /// The remote.
        remote: Remote,
        /// The node.
        node: Node,
    },
    /// `drain`: all that was submitted is brought to its end.
    Drain,
    /// `end`: ends the script.
    End,
}
