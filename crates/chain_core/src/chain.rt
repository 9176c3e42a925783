// The chain.
ghost use Rattle.std.specs.Prelude.{◌≡◌, ◌++◌, IfOk, OnOk, true, [], map, flat_map, List};
ghost use Rattle.std.specs.List.{list_any, filter_map, cons_option};
ghost use Rattle.chain_model.specs.State.{Chain as AChain, opened};
ghost use Rattle.chain_model.specs.Steps.{Does, reporting};
ghost use Rattle.node_model.specs.Names.{is_key};
ghost use Rattle.node_model.specs.Tables.{has_bearer, keys, keys_of_row};
ghost use Rattle.chain_core.specs.Opening.{CanOpen};
ghost use Rattle.chain_core.specs.Chain.{HasEnds, HasSmallNumbers, Feeds, Plays, total_of, is_chain_line};
ghost use Rattle.chain_core.specs.Confirming.{HaveOwnTags, risen};
ghost use Rattle.chain_core.specs.Nodes.{HaveNumbers};

use crate::confirming::Watched;
use crate::keys::{bearer_rank, is_key, is_row, key_of};
use crate::nodes::Nodes;
use bearer_map::{BearerRow, Tables};
use link_base::{Drb, Key, Memory, Remote, Way};
use node_end::KeyList;
use rlc_hop::Air;
use script_text::{Event, EventList, Line, Reply, Total, TotalList};
use std::alloc::Global;
use std::marker::Model;

/// The remotes, the relay and the gNB of a chain, and the PDUs between them. Each remote stands on the path with which it began.
#[derive(Drop)]
pub struct Chain {
    pub(crate) alloc: Global,
    pub(crate) nodes: Nodes,
    pub(crate) air: Air,
}

impl Model for Chain {
    ghost use Rattle.chain_model.specs.State.{Chain};
    ghost use Rattle.chain_core.specs.Chain.{chain_of};

    ghost Value = { Chain };

    ghost view = { chain_of };
}

impl Chain {
    /// The chain right behind its tables: nothing has happened. It needs tables of which all nodes can be opened.
    pub fn new(alloc: Global, tables: Tables) -> Result<Self, Memory>
        requires { CanOpen tables }
        ensures { IfOk result (λ chain. chain ≡ opened tables) }
    {
        let nodes = Nodes::new(alloc, tables)?;
        let air = Air::new(alloc)?;
        Ok(Chain { alloc, nodes, air })
    }

    /// Whether the tables have a bearer, found in time that grows with the logarithm of their number.
    pub(crate) fn has_bearer(&self, remote: Remote, drb: Drb) -> bool
        ensures { result ≡ has_bearer self.now.tables remote drb }
    {
        let rows = self.nodes.tables().bearers();
        let rank = bearer_rank(remote, drb);
        let place = rows.partition_point(|row| bearer_rank(row.remote, row.drb) < rank);
        if place >= rows.len() {
            return false;
        }
        is_row(&rows[place], remote, drb)
    }

    /// Carries out a line, and logs its events: those of the line itself, the confirmed number that rose, and the reports that
    /// the ends give. It needs a line of those that a chain carries out in which each remote stays on its path, both ends of each
    /// key, direct ports whose transmitters keep data PDUs of their own key alone, and numbers of entities that are small enough.
    ///
    /// A line looks at the confirmed number of one key at most. An `Err` is want of memory.
    pub fn step(&mut self, line: &Line, log: &mut EventList) -> Result<Reply, Memory>
        requires line { is_chain_line line.now ≡ true }
        requires ends { HasEnds self.old }
        requires small { HasSmallNumbers self.old }
        requires tags { HaveOwnTags self.old }
        requires numbers { (own : List Event) (reply : Reply) (mid : AChain)
            → Does self.old line.now own reply mid → HaveNumbers mid.nodes }
        ensures { IfOk result (λ reply. Plays self.old line.now log.old log.new reply self.new) }
    {
        let carried = self.carry(line, log)?;
        self.tell_confirmed(carried.watch, log)?;
        self.feed(log)?;
        Ok(carried.reply)
    }

    /// What became of each key, in key order.
    pub fn totals(&self) -> Result<TotalList, Memory>
        ensures { IfOk result
            (λ totals. totals ≡ map (total_of self.now) (keys self.now.tables)) }
    {
        let mut totals = TotalList::new(self.alloc);
        for row in self.nodes.tables().bearers() {
            totals.push(self.total(key_of(row.remote, row.drb, Way::Ul)))?;
            totals.push(self.total(key_of(row.remote, row.drb, Way::Dl)))?;
        }
        Ok(totals)
    }

    // What became of a key.
    fn total(&self, key: Key) -> Total
        ensures { result ≡ total_of self.now key }
    {
        Total {
            key,
            submitted: self.nodes.submitted(key),
            handed: self.nodes.handed(key),
            confirmed: self.nodes.confirmed(key),
        }
    }

    // Tells of a key of a bearer that was watched and whose confirmed number rose.
    fn tell_confirmed(&self, watch: Option<Watched>, log: &mut EventList) -> Result<(), Memory>
        ensures { OnOk result (log.new ≡ log.old ++ risen self.now watch) }
    {
        let Some(Watched { key, before }) = watch else {
            return Ok(());
        };
        let confirmed = self.nodes.confirmed(key);
        if !(self.has_bearer(key.remote, key.drb) && before < confirmed) {
            return Ok(());
        }
        log.push(Event::Conf { key, confirmed })?;
        Ok(())
    }

    // The ends feed, and the reports that they give are told in key order.
    fn feed(&mut self, log: &mut EventList) -> Result<(), Memory>
        requires { HaveNumbers self.old.nodes }
        ensures { OnOk result (Feeds self.old log.old log.new self.new) }
    {
        let given = self.nodes.feed(self.alloc)?;
        tell_reports(self.nodes.tables().bearers(), &given, log)?;
        Ok(())
    }
}

// Tells of each key about which a report was given, in key order.
fn tell_reports(bearers: &[BearerRow], given: &KeyList, log: &mut EventList) -> Result<(), Memory>
    ensures { OnOk result (log.new ≡ log.old
        ++ filter_map (reporting given.now) (flat_map keys_of_row bearers.now)) }
{
    if given.is_empty() {
        return Ok(());
    }
    for row in bearers {
        tell_report(key_of(row.remote, row.drb, Way::Ul), given, log)?;
        tell_report(key_of(row.remote, row.drb, Way::Dl), given, log)?;
    }
    Ok(())
}

// Tells of a key where a report about it was given.
fn tell_report(key: Key, given: &KeyList, log: &mut EventList) -> Result<(), Memory>
    ensures { OnOk result (log.new ≡ log.old ++ cons_option (reporting given.now key) []) }
{
    if !is_among(key, given.as_slice()) {
        return Ok(());
    }
    log.push(Event::Rep { key })?;
    Ok(())
}

// Whether a key is among others.
fn is_among(key: Key, keys: &[Key]) -> bool
    ensures { result ≡ list_any (λ k. is_key key k) keys.now }
{
    keys.iter().any(|other| is_key(key, *other))
}
