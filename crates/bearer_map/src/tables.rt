// Tables, and what they tell.
ghost use Rattle.std.specs.Prelude.{◌≡◌, IfOk};
ghost use Rattle.bearer_map.specs.Contents.{Contents, AreRemotes, AreBearers, IsTables, uu_rank, pc5_rank, map_rank, nothing};
ghost use Rattle.bearer_map.specs.Order.{IsAscending};
ghost use Rattle.bearer_map.specs.Settings.{settings_of};

use crate::settings::Choices;
use crate::{BearerRow, MapRow, Pc5Row, RemoteRow, Settings, UuRow};
use link_base::{Key, Memory, Remote};
use std::alloc::Global;
use std::marker::Model;

mod lines;

/// The settings, remotes, bearers and channels of a session, as its table lines declare them.
#[derive(Debug, Drop)]
pub struct Tables {
    choices: Choices,
    remotes: Vec<RemoteRow>,
    bearers: Vec<BearerRow>,
    uus: Vec<UuRow>,
    pc5s: Vec<Pc5Row>,
    maps: Vec<MapRow>,
    starts: Vec<Key>,
    paths: Vec<Remote>,
}

impl Model for Tables {
    ghost Value = { Contents };

    ghost view = { λ t. record { choices = t.choices; remotes = t.remotes.items; bearers = t.bearers.items; uus = t.uus.items; pc5s = t.pc5s.items; maps = t.maps.items; starts = t.starts.items; paths = t.paths.items } };

    ghost invariant = { λ t. IsTables t.remotes.items t.bearers.items t.uus.items t.pc5s.items t.maps.items };
}

impl Tables {
    /// Tables in which nothing is declared.
    pub fn new(alloc: Global) -> Result<Tables, Memory>
        ensures { IfOk result (λ t. t ≡ nothing) }
    {
        Ok(Tables {
            choices: Choices::new(),
            remotes: Vec::new(alloc),
            bearers: Vec::new(alloc),
            uus: Vec::new(alloc),
            pc5s: Vec::new(alloc),
            maps: Vec::new(alloc),
            starts: Vec::new(alloc),
            paths: Vec::new(alloc),
        })
    }

    /// Equal tables in memory of their own.
    pub fn copy(&self, alloc: Global) -> Result<Tables, Memory>
        ensures { IfOk result (λ t. t ≡ self.now) }
    {
        Ok(Tables {
            choices: self.choices,
            remotes: Vec::from_slice(alloc, &self.remotes)?,
            bearers: Vec::from_slice(alloc, &self.bearers)?,
            uus: Vec::from_slice(alloc, &self.uus)?,
            pc5s: Vec::from_slice(alloc, &self.pc5s)?,
            maps: Vec::from_slice(alloc, &self.maps)?,
            starts: Vec::from_slice(alloc, &self.starts)?,
            paths: Vec::from_slice(alloc, &self.paths)?,
        })
    }

    /// The settings that were given, and the others as they are where nothing is set.
    pub fn settings(&self) -> Settings
        ensures { result ≡ settings_of self.now.choices }
    {
        self.choices.settings()
    }

    /// The remotes, in ascending order, at most eight.
    pub fn remotes(&self) -> &[RemoteRow]
        ensures rows { result.now ≡ self.now.remotes }
        ensures order { AreRemotes self.now.remotes }
    {
        &self.remotes
    }

    /// The bearers, in ascending order of remote and identity, at most eight of a remote.
    pub fn bearers(&self) -> &[BearerRow]
        ensures rows { result.now ≡ self.now.bearers }
        ensures order { AreBearers self.now.bearers }
    {
        &self.bearers
    }

    /// The Uu channels, in ascending order.
    pub fn uus(&self) -> &[UuRow]
        ensures rows { result.now ≡ self.now.uus }
        ensures order { IsAscending uu_rank self.now.uus }
    {
        &self.uus
    }

    /// The PC5 channels, in ascending order of remote and channel.
    pub fn pc5s(&self) -> &[Pc5Row]
        ensures rows { result.now ≡ self.now.pc5s }
        ensures order { IsAscending pc5_rank self.now.pc5s }
    {
        &self.pc5s
    }

    /// The channels of bearers, in ascending order of remote and bearer.
    pub fn maps(&self) -> &[MapRow]
        ensures rows { result.now ≡ self.now.maps }
        ensures order { IsAscending map_rank self.now.maps }
    {
        &self.maps
    }
}
