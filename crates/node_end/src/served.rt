// The places of the bearers that go over a port.
ghost use Rattle.std.specs.Prelude.{◌≡◌, true, IfOk, IfSome};
ghost use Rattle.std.specs.List.{AllByRecursion};
ghost use Rattle.bearer_map.specs.Contents.{Contents};
ghost use Rattle.node_model.specs.State.{Node};
ghost use Rattle.node_end.specs.Fed.{Covers, CoversChannel, CoversEach, KnowsPlaces, is_to_feed};
ghost use Rattle.node_end.specs.Ports.{is_mapped, is_over, maps_to};

use crate::to_feed::ToFeed;
use bearer_map::{MapRow, Tables};
use link_base::{Key, Memory, PortName};
use node_bearers::Bearers;
use std::alloc::Global;

/// A channel, and the places of the bearers that are mapped to it, in ascending order.
#[derive(Drop)]
pub(crate) struct Channel {
    pub(crate) port: PortName,
    pub(crate) places: Vec<usize>,
}

/// The places of all bearers, and of those over each channel.
#[derive(Drop)]
pub(crate) struct Served {
    pub(crate) every: Vec<usize>,
    pub(crate) channels: Vec<Channel>,
}

impl Served {
    /// The places of bearers over the channels of the tables.
    pub(crate) fn new(alloc: Global, tables: &Tables, bearers: &Bearers) -> Result<Self, Memory>
        ensures { IfOk result (KnowsPlaces tables.now bearers.now) }
    {
        let every = every_place(alloc, bearers)?;
        let maps = tables.maps();
        let mut channels = Vec::new(alloc);
        for pc5 in tables.pc5s() {
            let port = PortName::Pc5(pc5.remote, pc5.chan);
            channels.push(channel_at(alloc, maps, bearers, port)?)?;
        }
        for uu in tables.uus() {
            channels.push(channel_at(alloc, maps, bearers, PortName::Uu(uu.chan))?)?;
        }
        Ok(Served { every, channels })
    }

    /// The places of the bearers to be fed. The one over a direct port is found in logarithmic time.
    pub(crate) fn places(&self, bearers: &Bearers, to_feed: ToFeed) -> &[usize]
        requires { CoversEach bearers.now self.now.every.items }
        ensures { (t : Contents) → KnowsPlaces t bearers.now self.now
            → Covers bearers.now (is_to_feed t to_feed) result.now }
    {
        match to_feed {
            ToFeed::Nothing => &[],
            ToFeed::Port(port) => self.over(bearers, port),
            ToFeed::Everything => &self.every,
        }
    }

    // The places of the bearers over a port.
    fn over(&self, bearers: &Bearers, port: PortName) -> &[usize]
        requires { CoversEach bearers.now self.now.every.items }
        ensures { (t : Contents) → KnowsPlaces t bearers.now self.now
            → Covers bearers.now (is_over t port) result.now }
    {
        if let PortName::Direct(remote, drb) = port {
            return match bearers.place(remote, drb) {
                None => &[],
                Some(place) => &self.every[place..place + 1],
            };
        }
        match channel_of(&self.channels, port) {
            None => &self.every,
            Some(channel) => &channel.places,
        }
    }
}

// The places of all bearers.
fn every_place(alloc: Global, bearers: &Bearers) -> Result<Vec<usize>, Memory>
    ensures { IfOk result (λ places. CoversEach bearers.now places.items) }
{
    let mut places = Vec::new(alloc);
    for place in 0..bearers.len() {
        places.push(place)?;
    }
    Ok(places)
}

// A channel, and the places of the bearers that are mapped to it.
fn channel_at(
    alloc: Global,
    maps: &[MapRow],
    bearers: &Bearers,
    port: PortName,
) -> Result<Channel, Memory>
    ensures covers { (t : Contents) → t.maps ≡ maps.now
        → IfOk result (CoversChannel t bearers.now) }
{
    let mut places = Vec::new(alloc);
    for place in 0..bearers.len() {
        if is_mapped(maps, port, bearers.key(place)) {
            places.push(place)?;
        }
    }
    Ok(Channel { port, places })
}

// The channel of a port.
fn channel_of(channels: &[Channel], port: PortName) -> Option<&Channel>
    ensures some { IfSome result (λ channel. channel.now.port ≡ port) }
    ensures covers { (t : Contents) (n : Node) → AllByRecursion (CoversChannel t n) channels.now
        → IfSome result (λ channel. CoversChannel t n channel.now) }
{
    channels.iter().find(|channel| channel.port == port)
}

// Whether a bearer is mapped to a channel.
fn is_mapped(maps: &[MapRow], port: PortName, key: Key) -> bool
    ensures { result ≡ is_mapped maps.now port key }
{
    maps.iter().any(|row| maps_to(row, port, key))
}

// Whether the row is that of a bearer, and maps it to a channel.
fn maps_to(row: &MapRow, port: PortName, key: Key) -> bool
    ensures { result ≡ maps_to port key row.now }
{
    let is_of_bearer = key.remote.0 == row.remote.0 && key.drb.0 == row.drb.0;
    is_of_bearer && (port == PortName::Pc5(row.remote, row.pc5) || port == PortName::Uu(row.uu))
}
