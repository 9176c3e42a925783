// What table lines declare. Each call answers the first refusal that holds in this order: `Range`, `Twice`, `Unknown`,
// `Limit`. After any `Err` the tables are as they were.
ghost use Rattle.std.specs.Prelude.{◌≡◌};
ghost use Rattle.bearer_map.specs.Lines.{Follows, set_line, remote_line, bearer_line, uu_line, pc5_line, map_line, start_line, path_line, go_line};

use crate::names::{chan_of, drb_of, remote_of, sn_size_of};
use crate::order::{Row, add, has_rank, pair};
use crate::search::{bearers_of, begin_at, is_mapped, is_taken, set_goal};
use crate::{BearerRow, MapRow, Pc5Row, RemoteRow, SetName, TableFault, Tables, UuRow};
use link_base::{Goal, Key, Way};

impl Tables {
    /// Gives a setting its value. `Range` by the setting's range, `Twice` where it is given already.
    pub fn set(&mut self, name: SetName, value: u32) -> Result<(), TableFault>
        ensures { Follows result self.old self.new (set_line self.old name value) }
    {
        if !name.admits(value) {
            return Err(TableFault::Range);
        }
        if self.choices.has(name) {
            return Err(TableFault::Twice);
        }
        self.choices.choose(name, value);
        Ok(())
    }

    /// Declares a remote, from 1 to 65,535, which begins on its direct path. `Limit` where there are eight.
    pub fn remote(&mut self, remote: u32) -> Result<(), TableFault>
        ensures { Follows result self.old self.new (remote_line self.old remote) }
    {
        let remote = remote_of(remote)?;
        if has_rank(&self.remotes, remote.rank()) {
            return Err(TableFault::Twice);
        }
        if self.remotes.len() >= 8 {
            return Err(TableFault::Limit);
        }
        let row = RemoteRow {
            remote,
            goal: Goal::Direct,
        };
        add(&mut self.remotes, row)?;
        Ok(())
    }

    /// Declares a bearer of a remote, from 1 to 32, with the sizes, 12 or 18, of its PDCP sequence numbers and of the RLC
    /// sequence numbers of its direct port. Its first COUNTs are 0. `Limit` where the remote has eight.
    pub fn bearer(
        &mut self,
        remote: u32,
        drb: u32,
        pdcp: u32,
        direct: u32,
    ) -> Result<(), TableFault>
        ensures { Follows result self.old self.new (bearer_line self.old remote drb pdcp direct) }
    {
        let remote = remote_of(remote)?;
        let drb = drb_of(drb)?;
        let pdcp = sn_size_of(pdcp)?;
        let direct = sn_size_of(direct)?;
        if has_rank(&self.bearers, pair(remote, drb.0)) {
            return Err(TableFault::Twice);
        }
        if !has_rank(&self.remotes, remote.rank()) {
            return Err(TableFault::Unknown);
        }
        if bearers_of(&self.bearers, remote) >= 8 {
            return Err(TableFault::Limit);
        }
        let row = BearerRow {
            remote,
            drb,
            pdcp,
            direct,
            first_ul: 0,
            first_dl: 0,
        };
        add(&mut self.bearers, row)?;
        Ok(())
    }

    /// Declares a Uu channel, from 1 to 8, with the size, 12 or 18, of its RLC sequence numbers.
    pub fn uu(&mut self, chan: u32, size: u32) -> Result<(), TableFault>
        ensures { Follows result self.old self.new (uu_line self.old chan size) }
    {
        let chan = chan_of(chan)?;
        let size = sn_size_of(size)?;
        if has_rank(&self.uus, u32::from(chan.0)) {
            return Err(TableFault::Twice);
        }
        add(&mut self.uus, UuRow { chan, size })?;
        Ok(())
    }

    /// Declares a PC5 channel of a remote, from 1 to 8, with the size, 12 or 18, of its RLC sequence numbers.
    pub fn pc5(&mut self, remote: u32, chan: u32, size: u32) -> Result<(), TableFault>
        ensures { Follows result self.old self.new (pc5_line self.old remote chan size) }
    {
        let remote = remote_of(remote)?;
        let chan = chan_of(chan)?;
        let size = sn_size_of(size)?;
        if has_rank(&self.pc5s, pair(remote, chan.0)) {
            return Err(TableFault::Twice);
        }
        if !has_rank(&self.remotes, remote.rank()) {
            return Err(TableFault::Unknown);
        }
        add(&mut self.pc5s, Pc5Row { remote, chan, size })?;
        Ok(())
    }

    /// Gives a bearer its channels on the relay path. `Twice` where it has some.
    pub fn map(&mut self, remote: u32, drb: u32, pc5: u32, uu: u32) -> Result<(), TableFault>
        ensures { Follows result self.old self.new (map_line self.old remote drb pc5 uu) }
    {
        let remote = remote_of(remote)?;
        let drb = drb_of(drb)?;
        let pc5 = chan_of(pc5)?;
        let uu = chan_of(uu)?;
        if has_rank(&self.maps, pair(remote, drb.0)) {
            return Err(TableFault::Twice);
        }
        if !has_rank(&self.remotes, remote.rank())
            || !has_rank(&self.bearers, pair(remote, drb.0))
            || !has_rank(&self.pc5s, pair(remote, pc5.0))
            || !has_rank(&self.uus, u32::from(uu.0))
        {
            return Err(TableFault::Unknown);
        }
        let row = MapRow {
            remote,
            drb,
            pc5,
            uu,
        };
        add(&mut self.maps, row)?;
        Ok(())
    }

    /// Gives one way of a bearer its first COUNT, from 0 to 2^32 - 2. `Twice` where it is given already.
    pub fn start(&mut self, remote: u32, drb: u32, way: Way, first: u32) -> Result<(), TableFault>
        ensures { Follows result self.old self.new (start_line self.old remote drb way first) }
    {
        let remote = remote_of(remote)?;
        let drb = drb_of(drb)?;
        if first == u32::MAX {
            return Err(TableFault::Range);
        }
        let key = Key { remote, drb, way };
        if has_rank(&self.starts, key.rank()) {
            return Err(TableFault::Twice);
        }
        if !has_rank(&self.remotes, remote.rank())
            || !has_rank(&self.bearers, pair(remote, drb.0))
        {
            return Err(TableFault::Unknown);
        }
        add(&mut self.starts, key)?;
        begin_at(&mut self.bearers, key, first);
        Ok(())
    }

    /// Gives a remote its path at the start. `Twice` where it is given already, or where another remote has the local
    /// identity in its path.
    pub fn path(&mut self, remote: u32, goal: Goal) -> Result<(), TableFault>
        ensures { Follows result self.old self.new (path_line self.old remote goal) }
    {
        let remote = remote_of(remote)?;
        if has_rank(&self.paths, remote.rank()) || is_taken(goal, &self.remotes) {
            return Err(TableFault::Twice);
        }
        if !has_rank(&self.remotes, remote.rank()) {
            return Err(TableFault::Unknown);
        }
        add(&mut self.paths, remote)?;
        set_goal(&mut self.remotes, remote, goal);
        Ok(())
    }

    /// Ends the tables. `NoMap` where a remote that begins on the relay has a bearer without a map row.
    pub fn check(&self) -> Result<(), TableFault>
        ensures { result ≡ go_line self.now }
    {
        if is_mapped(&self.remotes, &self.bearers, &self.maps) {
            Ok(())
        } else {
            Err(TableFault::NoMap)
        }
    }
}
