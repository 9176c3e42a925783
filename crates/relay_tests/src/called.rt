// A relay that is called by words.
use crate::names::{goal_of, port_of, timer_of};
use crate::premises::{can_go_on, can_open, is_free_for};
use crate::tables::tables_with;
use crate::texts::{expired_text, grant_text, heard_text, place_text, pull_text, push_text};
use link_base::{LocalId, PortName, Remote, Way, copy_bytes};
use relay_core::Relay;
use rlc_hop::Pdu;
use std::alloc::Global;
use std::process::Abort;
use std::test::Fail;

/// A relay, to be called by words. Each method says what its call answers, and no more, so that the tests are proved soon.
#[derive(Drop)]
pub(crate) struct Called {
    alloc: Global,
    relay: Relay,
}

impl Called {
    /// A relay at which nothing has happened, whose queues hold so many SDUs.
    pub(crate) fn new(rt: &impl Abort, alloc: Global, queue: u32) -> Result<Self, Fail> {
        let tables = tables_with(rt, alloc, queue)?;
        assert!(rt; can_open(alloc, &tables)?);
        let relay = Relay::new(alloc, &tables)?;
        Ok(Called { alloc, relay })
    }

    /// Does a call, which says what is to be done, at which port, and behind it what more is needed, and says what it
    /// answers.
    pub(crate) fn said(&mut self, rt: &impl Abort, call: &str) -> Result<String, Fail> {
        let (word, call) = call.split_once(' ').unwrap_or((call, ""));
        let (name, argument) = call.split_once(' ').unwrap_or((call, ""));
        match word {
            "hear" => self.hear(rt, port_of(rt, name)?, argument),
            "push" => self.push(port_of(rt, name)?),
            "pull" => self.pull(rt, port_of(rt, name)?),
            "grant" => self.grant(port_of(rt, name)?, argument.parse()?),
            "expire" => {
                let expired = self
                    .relay
                    .expire(port_of(rt, name)?, timer_of(rt, argument));
                expired_text(self.alloc, expired)
            }
            "remote" => self.remote(name.parse()?),
            "apply" => self.apply(rt, Remote(name.parse()?), argument),
            "purge" => self.purge(Remote(name.parse()?)),
            "stands" => {
                let place = self.relay.stands(LocalId(name.parse()?));
                place_text(self.alloc, place)
            }
            "is_empty" => Ok(format!(in self.alloc; "{}", self.relay.is_empty())?),
            _ => panic!(rt; "no such call: {word}"),
        }
    }

    // A PDU comes from the air: its epoch, whether it is a STATUS PDU, its number, and its octets.
    fn hear(&mut self, rt: &impl Abort, port: PortName, argument: &str) -> Result<String, Fail> {
        let (epoch, argument) = argument.split_once(' ').unwrap_or((argument, ""));
        let (kind, argument) = argument.split_once(' ').unwrap_or((argument, ""));
        let (number, digits) = argument.split_once(' ').unwrap_or((argument, ""));
        let octets = hex::decode(self.alloc, digits.as_bytes())?;
        let pdu = Pdu {
            port,
            way: Way::Ul,
            epoch: epoch.parse()?,
            status: kind == "status",
            number: number.parse()?,
            bytes: copy_bytes(self.alloc, &octets)?,
        };
        self.hear_pdu(rt, &pdu)
    }

    /// A PDU comes from the air.
    pub(crate) fn hear_pdu(&mut self, rt: &impl Abort, pdu: &Pdu) -> Result<String, Fail> {
        assert!(rt; can_go_on(&self.relay, pdu.port));
        let answer = self.relay.hear(pdu)?;
        heard_text(self.alloc, answer)
    }

    /// The SDU in a slot goes into its queue.
    pub(crate) fn push(&mut self, port: PortName) -> Result<String, Fail> {
        let reply = self.relay.push(port);
        push_text(self.alloc, reply)
    }

    /// The SDU at the front of a queue goes to its transmitter.
    pub(crate) fn pull(&mut self, rt: &impl Abort, port: PortName) -> Result<String, Fail> {
        assert!(rt; can_go_on(&self.relay, port));
        let reply = self.relay.pull(port)?;
        pull_text(self.alloc, reply)
    }

    /// A port may send so many octets.
    pub(crate) fn grant(&mut self, port: PortName, octets: u32) -> Result<String, Fail> {
        let answer = self.relay.grant(port, octets)?;
        grant_text(self.alloc, answer)
    }

    // The remote with a local identity.
    fn remote(&self, id: u8) -> Result<String, Fail> {
        match self.relay.remote_of(LocalId(id)) {
            Some(remote) => Ok(format!(in self.alloc; "{}", remote.0)?),
            None => Ok(String::from_str(self.alloc, "none")?),
        }
    }

    // A plan of a remote is applied: its path, and its epoch.
    fn apply(&mut self, rt: &impl Abort, remote: Remote, argument: &str) -> Result<String, Fail> {
        let (goal, epoch) = argument.split_once(' ').unwrap_or((argument, ""));
        let goal = goal_of(goal)?;
        let epoch = epoch.parse()?;
        assert!(rt; is_free_for(&self.relay, remote, goal));
        let dropped = self.relay.apply(remote, goal, epoch)?;
        Ok(format!(in self.alloc; "{dropped}")?)
    }

    // A remote is purged.
    fn purge(&mut self, remote: Remote) -> Result<String, Fail> {
        let dropped = self.relay.purge(remote);
        Ok(format!(in self.alloc; "{dropped}")?)
    }
}
