// A remote's end of its bearers.
ghost use Rattle.std.specs.Prelude.{◌≡◌, Some, true, All, find, IfOk, IfErr, OnErr, IsSome, option_map};
ghost use Rattle.std.specs.Option.{option_copied};
ghost use Rattle.rlc_model.specs.Sides.{Entity};
ghost use Rattle.rlc_hop.specs.Side.{IsToSend};
ghost use Rattle.pdcp_model.specs.Sender.{confirmed, submitted, has_next};
ghost use Rattle.pdcp_tx.specs.Calls.{Refuses};
ghost use Rattle.node_model.specs.State.{entity_at, id_at, outgoing_at, outgoing, incoming, set_incoming};
ghost use Rattle.bearer_map.specs.declared.rows.RemoteRow.{RemoteRow};
ghost use Rattle.node_model.specs.Names.{is_remote};
ghost use Rattle.node_model.specs.Opening.{new_remote};
ghost use Rattle.node_model.specs.Sides.{GrantsPort, ExpiresPort};
ghost use Rattle.node_model.specs.Hearing.{HearsPdu};
ghost use Rattle.node_model.specs.Feeding.{Feeds, wants_report};
ghost use Rattle.node_ports.specs.Sides.{IsSmall, IsThere};
ghost use Rattle.node_ports.specs.Table.{tx_of, rx_of};
ghost use Rattle.node_bearers.specs.Calls.{HaveCounts, Submits};
ghost use Rattle.node_end.specs.Node.{side_of};
ghost use Rattle.node_end.specs.Opening.{HaveRoutes};
ghost use Rattle.node_end.specs.Hearing.{StopsHearing};
ghost use Rattle.node_end.specs.Feeding.{HasNumbers, StopsFeeding};

use bearer_map::{RemoteRow, Tables};
use link_base::{Drb, Expired, Key, LocalId, Memory, PortName, Remote, Timer, Way};
use node_end::{End, KeyList, NodeHeard, PortGrant};
use pdcp_tx::SubmitFault;
use rlc_am_rx::AmRx;
use rlc_am_tx::AmTx;
use rlc_hop::Pdu;
use std::alloc::Global;
use std::marker::Model;

/// A remote's end of its bearers. Contracts see it as the remote, its tables and a node. Its calls are those of `End`, by the
/// bearers of the remote.
#[derive(Drop)]
pub struct RemoteEnd {
    remote: Remote,
    end: End,
}

impl Model for RemoteEnd {
    ghost use Rattle.remote_end.specs.RemoteNode.{RemoteNode};

    ghost Value = { RemoteNode };

    ghost view = { λ e. record { remote = e.remote; tables = e.end.tables; node = e.end.node } };
}

impl RemoteEnd {
    ghost use Rattle.remote_end.specs.RemoteNode.{IsSameRemote, sent, received, row_of};

    /// A remote of the tables at which nothing has happened. Each bearer that is mapped to channels is to be declared, with an
    /// identity from 1 to 32.
    pub fn new(alloc: Global, tables: &Tables, remote: Remote) -> Result<Self, Memory>
        requires counts { HaveCounts tables.now }
        requires routes { HaveRoutes tables.now }
        requires remote { IsSome (row_of tables.now.remotes remote) }
        ensures remote { IfOk result (λ end. end.remote ≡ remote) }
        ensures tables { IfOk result (λ end. end.tables ≡ tables.now) }
        ensures node { (row : RemoteRow) → row_of tables.now.remotes remote ≡ Some row
            → IfOk result (λ end. end.node ≡ new_remote tables.now row) }
    {
        let Some(row) = row_of(tables.remotes(), remote) else {
            unreachable!()
        };
        let end = End::of_remote(alloc, tables, row)?;
        Ok(RemoteEnd { remote, end })
    }

    // The key of a bearer that the remote sends.
    fn sent(&self, drb: Drb) -> Key
        ensures { result ≡ sent self.now drb }
    {
        Key {
            remote: self.remote,
            drb,
            way: Way::Ul,
        }
    }

    // The key of a bearer that the remote receives.
    fn received(&self, drb: Drb) -> Key
        ensures { result ≡ received self.now drb }
    {
        Key {
            remote: self.remote,
            drb,
            way: Way::Dl,
        }
    }

    /// Accepts an SDU of 1 to 9,000 bytes of a bearer, and answers its COUNT (TS 38.323 clause 5.2.1).
    ///
    /// An `Err` tells the first reason that holds, of `Empty`, `Long`, `Spent` and `Full`. `Memory` comes only where none
    /// of these holds. All is then as it was.
    pub fn submit(&mut self, drb: Drb, sdu: &[u8]) -> Result<u32, SubmitFault>
        requires { IsSome (outgoing_at self.old.node (sent self.old drb)) }
        ensures ok { IfOk result
            (λ count. Submits self.old.node (sent self.old drb) sdu.now count self.new.node) }
        ensures same { IsSameRemote self.old self.new }
        ensures err { OnErr result (self.new ≡ self.old) }
        ensures fault { IfErr result
            (Refuses (outgoing self.old.node (sent self.old drb)).sender sdu.now) }
    {
        let key = self.sent(drb);
        let count = self.end.submit(key, sdu)?;
        Ok(count)
    }

    /// Hears a PDU that came to the low side of its port (TS 38.322 clause 5.2.3.2.2, TS 38.323 clauses 5.2.2, 5.3 and 5.4.2).
    /// It needs TX_Next below 2^62 and RX_Next at most 2^62 of the port's entity.
    ///
    /// An `Err` is want of memory: either all is as it was, or the entity completed an SDU that its bearer has not heard.
    pub fn hear(&mut self, pdu: &Pdu) -> Result<NodeHeard, Memory>
        requires { (entity : Entity) → entity_at self.old.node pdu.now.port ≡ Some entity
            → IsSmall entity }
        ensures ok { IfOk result (λ answer. HearsPdu self.old.tables self.old.node
            (side_of self.old.node.name) pdu.now answer self.new.node) }
        ensures same { IsSameRemote self.old self.new }
        ensures err { OnErr result (StopsHearing self.old.tables self.old.node
            (side_of self.old.node.name) pdu.now self.new.node) }
    {
        let answer = self.end.hear(pdu)?;
        Ok(answer)
    }

    /// Gives its transmitters what they have room for, and answers the keys of the reports that it gave (TS 38.323 clauses
    /// 5.2.1 and 5.4.1). It needs TX_Next below 2^62 - 2^40 of each transmitter.
    ///
    /// An `Err` is want of memory, and comes only where there is a PDU to give. What was given before is given then.
    pub fn feed(&mut self) -> Result<KeyList, Memory>
        requires { All HasNumbers self.old.node.ports }
        ensures ok { IfOk result
            (λ given. Feeds self.old.tables self.old.node given self.new.node) }
        ensures same { IsSameRemote self.old self.new }
        ensures err { OnErr result (StopsFeeding self.old.tables self.old.node self.new.node) }
    {
        let given = self.end.feed()?;
        Ok(given)
    }

    /// Sends one PDU of at most `n` octets over a port (TS 38.322 clauses 5.2.3.1.1 and 5.3.4). `NoPort` comes exactly where
    /// the port isn't open here.
    ///
    /// An `Err` is want of memory. It comes only where the port is open, a PDU is to be sent over it, and `n` octets are
    /// enough. All is then as it was.
    pub fn grant(&mut self, port: PortName, n: u32) -> Result<PortGrant, Memory>
        ensures ok { IfOk result
            (λ answer. GrantsPort self.old.node port n answer self.new.node) }
        ensures same { IsSameRemote self.old self.new }
        ensures err { OnErr result (self.new ≡ self.old) }
        ensures memory { OnErr result
            (IsThere (λ e. IsToSend e.tx e.rx n) (entity_at self.old.node port)) }
    {
        let answer = self.end.grant(port, n)?;
        Ok(answer)
    }

    /// A timer of a port runs out (TS 38.322 clause 7.3). None comes exactly where the port isn't open here.
    pub fn expire(&mut self, port: PortName, timer: Timer) -> Option<Expired>
        ensures step { ExpiresPort self.old.node port timer result self.new.node }
        ensures same { IsSameRemote self.old self.new }
    {
        self.end.expire(port, timer)
    }

    /// A status report about what is received of a bearer is wanted (TS 38.323 clause 5.4.1). Of another bearer nothing changes.
    pub fn want_report(&mut self, drb: Drb)
        ensures step { self.new.node ≡ set_incoming self.old.node
            (record (incoming self.old.node (received self.old drb)) { wanted = true }) }
        ensures same { IsSameRemote self.old self.new }
    {
        let key = self.received(drb);
        self.end.want_report(key);
    }

    /// How many SDUs of a bearer were accepted first and are all confirmed.
    pub fn confirmed(&self, drb: Drb) -> u64
        ensures { result ≡ confirmed (outgoing self.now.node (sent self.now drb)).sender }
    {
        self.end.confirmed(self.sent(drb))
    }

    /// How many SDUs of a bearer were accepted.
    pub fn submitted(&self, drb: Drb) -> u64
        ensures { result ≡ submitted (outgoing self.now.node (sent self.now drb)).sender }
    {
        self.end.submitted(self.sent(drb))
    }

    /// How many SDUs of a bearer were handed up.
    pub fn handed(&self, drb: Drb) -> u64
        ensures { result ≡ (incoming self.now.node (received self.now drb)).receiver.handed }
    {
        self.end.handed(self.received(drb))
    }

    /// Whether the sender of a bearer waits for a status report.
    pub fn awaits(&self, drb: Drb) -> bool
        ensures { result ≡ (outgoing self.now.node (sent self.now drb)).sender.waits }
    {
        self.end.awaits(self.sent(drb))
    }

    /// Whether the sender of a bearer has an SDU to give to RLC.
    pub fn has_next(&self, drb: Drb) -> bool
        ensures { result ≡ has_next (outgoing self.now.node (sent self.now drb)).sender }
    {
        self.end.has_next(self.sent(drb))
    }

    /// Whether a status report about what is received of a bearer is to be given.
    pub fn wants_report(&self, drb: Drb) -> bool
        ensures { result ≡ wants_report self.now.tables self.now.node
            (incoming self.now.node (received self.now drb)) }
    {
        self.end.wants_report(self.received(drb))
    }

    /// The local identity of the remote, where it is on the relay path (TS 38.351 clause 6.3.2).
    pub fn own_id(&self) -> Option<LocalId>
        ensures { result ≡ id_at self.now.node self.now.remote }
    {
        self.end.id_of(self.remote)
    }

    /// The transmitter of a port, or None exactly where the port isn't open here.
    pub fn tx(&self, port: PortName) -> Option<&AmTx>
        ensures { option_copied result ≡ option_map tx_of (entity_at self.now.node port) }
    {
        self.end.tx(port)
    }

    /// The receiver of a port, or None exactly where the port isn't open here.
    pub fn rx(&self, port: PortName) -> Option<&AmRx>
        ensures { option_copied result ≡ option_map rx_of (entity_at self.now.node port) }
    {
        self.end.rx(port)
    }
}

// The row of a remote.
fn row_of(rows: &[RemoteRow], remote: Remote) -> Option<RemoteRow>
    ensures { result ≡ find (λ row. is_remote remote row.remote) rows.now }
{
    rows.iter().copied().find(|row| remote.0 == row.remote.0)
}
