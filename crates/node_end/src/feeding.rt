// An end gives SDUs to its RLC transmitters.
ghost use Rattle.std.specs.Prelude.{◌≡◌, ◌<◌, length, All, IfOk, OnOk, OnErr};
ghost use Rattle.link_base.specs.declared.names.Key.{Key};
ghost use Rattle.node_model.specs.State.{incoming};
ghost use Rattle.node_model.specs.Feeding.{Feeds, FeedsData, wants_report};
ghost use Rattle.node_bearers.specs.Calls.{Sends, Receives};
ghost use Rattle.node_end.specs.Fed.{IsKeyFed, AreFedOutside, ArePlaces};
ghost use Rattle.node_end.specs.Feeding.{HasNumbers, HaveNumbersLeft, KeepsKeys, FeedsReportOf, IsToReport, StopsGiving, StopsFeeding};
ghost use Rattle.node_end.specs.Node.{IsSameEnd, node_of};
ghost use Rattle.node_end.specs.Ports.{IsEnd};

use crate::node::{EndNode, under};
use crate::to_feed::ToFeed;
use crate::{End, KeyList};
use link_base::{Memory, Tag};
use node_bearers::back;

impl End {
    /// Gives its transmitters what they have room for: first the status reports that are wanted, then data PDUs, both in the
    /// order of keys (TS 38.323 clauses 5.2.1 and 5.4.1). On the relay path each has a SRAP header (TS 38.351 clause 5.2). It
    /// answers the keys that the reports are about. It needs TX_Next below 2^62 - 2^40 of each transmitter. Where calls have
    /// spoken of one port at most since it last came to its end, it looks at the bearers over that port alone.
    ///
    /// An `Err` is want of memory, and comes only where there is a PDU to give. What was given before is given then, and of a
    /// data PDU the SDU may have had its turn.
    pub fn feed(&mut self) -> Result<KeyList, Memory>
        requires { All HasNumbers self.old.node.ports }
        ensures ok { IfOk result
            (λ given. Feeds self.old.tables self.old.node given self.new.node) }
        ensures tables { self.new.tables ≡ self.old.tables }
        ensures name { self.new.node.name ≡ self.old.node.name }
        ensures err { OnErr result (StopsFeeding self.old.tables self.old.node self.new.node) }
    {
        let to_feed = self.to_feed;
        self.to_feed = ToFeed::Everything;
        let places = self.served.places(&self.node.bearers, to_feed);
        let given = self.node.feed_places(places)?;
        self.to_feed = ToFeed::Nothing;
        Ok(given)
    }
}

impl EndNode {
    // Feeds the bearers at these places, where there is nothing to give of the others.
    fn feed_places(&mut self, places: &[usize]) -> Result<KeyList, Memory>
        requires end { IsEnd self.old.tables (node_of self.old) }
        requires places { ArePlaces (node_of self.old) places.now }
        requires others { AreFedOutside self.old.tables (node_of self.old) places.now }
        requires numbers { All HasNumbers self.old.ports }
        ensures ok { IfOk result
            (λ given. Feeds self.old.tables (node_of self.old) given (node_of self.new)) }
        ensures fed { OnOk result
            ((key : Key) → IsKeyFed self.old.tables (node_of self.new) key) }
        ensures err { OnErr result
            (StopsFeeding self.old.tables (node_of self.old) (node_of self.new)) }
        ensures same { IsSameEnd self.old self.new }
        ensures keys { KeepsKeys (node_of self.old) (node_of self.new) }
        ensures end { IsEnd self.old.tables (node_of self.new) }
    {
        let mut given = KeyList::new(self.alloc);
        for place in places {
            self.feed_report(*place, &mut given)?;
        }
        for place in places {
            self.feed_data(*place)?;
        }
        Ok(given)
    }

    // Gives the status report about what is received at a place, where one is wanted and there is room for it.
    fn feed_report(&mut self, place: usize, given: &mut KeyList) -> Result<(), Memory>
        requires end { IsEnd self.old.tables (node_of self.old) }
        requires place { place < length self.old.bearers.incoming }
        requires sends { place < length self.old.bearers.outgoing }
        requires numbers { HaveNumbersLeft (node_of self.old) }
        ensures ok { (key : Key) → Receives (node_of self.old) place key
            → OnOk result (FeedsReportOf self.old.tables (node_of self.old) key given.old given.new
            (node_of self.new)) }
        ensures numbers { HaveNumbersLeft (node_of self.new) }
        ensures err { OnErr result (self.new ≡ self.old) }
        ensures memory { (key : Key) → Receives (node_of self.old) place key
            → OnErr result (IsToReport self.old.tables (node_of self.old) key) }
        ensures same { IsSameEnd self.old self.new }
        ensures keys { KeepsKeys (node_of self.old) (node_of self.new) }
        ensures end { IsEnd self.old.tables (node_of self.new) }
    {
        if !self.wants_report_at(place) {
            return Ok(());
        }
        let sent = self.bearers.key(place);
        let key = back(sent);
        if !self.bearers.can_report(place) {
            self.bearers.drop_report(place);
            return Ok(());
        }
        let ue = self.id_of(sent.remote);
        let Some(port) = self.port_on(ue, sent) else {
            return Ok(());
        };
        if self.ports.room(port) == 0 {
            return Ok(());
        }
        let report = self.bearers.make_report(place)?;
        let pdu = under(self.alloc, ue, sent.drb, report)?;
        given.push(key)?;
        let tag = Tag {
            key,
            count: None,
            ue,
        };
        self.ports.give(port, tag, pdu)?;
        self.bearers.report_given(place);
        Ok(())
    }

    // Whether a status report about what is received at a place is to be given. Most often that is so on no path, and the
    // remote's path needs no look.
    fn wants_report_at(&self, place: usize) -> bool
        requires place { place < length self.now.bearers.incoming }
        requires sends { place < length self.now.bearers.outgoing }
        ensures { (key : Key) → Receives (node_of self.now) place key
            → result ≡ wants_report self.now.tables (node_of self.now)
            (incoming (node_of self.now) key) }
    {
        let every = self.tables.settings().report;
        if !self.bearers.wants_report_at(place, every, true) {
            return false;
        }
        let remote = self.bearers.key(place).remote;
        let on_relay = self.id_of(remote).is_some();
        self.bearers.wants_report_at(place, every, on_relay)
    }

    // Gives the data PDUs of a place for which there is room.
    fn feed_data(&mut self, place: usize) -> Result<(), Memory>
        requires end { IsEnd self.old.tables (node_of self.old) }
        requires place { place < length self.old.bearers.outgoing }
        requires numbers { HaveNumbersLeft (node_of self.old) }
        ensures ok { (key : Key) → Sends (node_of self.old) place key
            → OnOk result (FeedsData self.old.tables key (node_of self.old) (node_of self.new)) }
        ensures numbers { HaveNumbersLeft (node_of self.new) }
        ensures err { (key : Key) → Sends (node_of self.old) place key
            → OnErr result (StopsGiving self.old.tables key (node_of self.old) (node_of self.new)) }
        ensures same { IsSameEnd self.old self.new }
        ensures keys { KeepsKeys (node_of self.old) (node_of self.new) }
        ensures end { IsEnd self.old.tables (node_of self.new) }
    {
        if !self.bearers.has_next_at(place) {
            return Ok(());
        }
        let key = self.bearers.key(place);
        let ue = self.id_of(key.remote);
        let Some(port) = self.port_on(ue, key) else {
            return Ok(());
        };
        let mut room = self.ports.room(port);
        while room > 0 {
            if !self.bearers.has_next_at(place) {
                return Ok(());
            }
            let Some((count, pdu)) = self.bearers.next_pdu(place)? else {
                unreachable!()
            };
            let pdu = under(self.alloc, ue, key.drb, pdu)?;
            let tag = Tag {
                key,
                count: Some(count),
                ue,
            };
            self.ports.give(port, tag, pdu)?;
            room -= 1;
        }
        Ok(())
    }
}
