// Rows in ascending order of their names.
ghost use Rattle.std.specs.Prelude.{◌≡◌, ℕ, OnOk, OnErr, ◌<◌, ◌^◌, length, nat_lt, unwrap_or};
ghost use Rattle.std.specs.List.{position};
ghost use Rattle.bearer_map.specs.Order.{has_row, in_order};
ghost use Rattle.bearer_map.specs.Contents.{pair, name_rank, key_rank, remote_rank, bearer_rank, uu_rank, pc5_rank, map_rank};

use crate::{BearerRow, MapRow, Pc5Row, RemoteRow, UuRow};
use link_base::{Key, Memory, Remote, Way};

/// A row, which has a place among its kind.
pub(crate) trait Row: Copy + Drop {
    /// Where its name stands among all names of its kind.
    ghost rank_of: { Self → ℕ };

    /// Where its name stands among all names of its kind.
    fn rank(&self) -> u32
        ensures { result ≡ rank_of self.now };
}

/// Whether a row has this rank.
pub(crate) fn has_rank<T: Row>(rows: &[T], rank: u32) -> bool
    ensures { result ≡ has_row T.rank_of rows.now rank }
{
    rows.iter().any(|row| row.rank() == rank)
}

/// The place of the first row of a higher rank, or the end.
fn place_of<T: Row>(rows: &[T], rank: u32) -> usize
    ensures { result ≡ unwrap_or (position (λ row. nat_lt rank (T.rank_of row)) rows.now)
        (length rows.now) }
{
    first_above(rows, rank).unwrap_or(rows.len())
}

/// The place of the first row of a higher rank.
fn first_above<T: Row>(rows: &[T], rank: u32) -> Option<usize>
    ensures { result ≡ position (λ row. nat_lt rank (T.rank_of row)) rows.now }
{
    rows.iter().position(|row| rank < row.rank())
}

/// Adds a row at its place. After an `Err` the rows are as they were.
pub(crate) fn add<T: Row>(rows: &mut Vec<T>, row: T) -> Result<(), Memory>
    ensures ok { OnOk result (rows.new.items ≡ in_order T.rank_of row rows.old.items) }
    ensures err { OnErr result (rows.new.items ≡ rows.old.items) }
{
    let place = place_of(rows, row.rank());
    rows.insert(place, row)?;
    Ok(())
}

/// The rank of a name that is the second among those of a remote.
pub(crate) fn pair(remote: Remote, second: u8) -> u32
    ensures value { result ≡ pair remote.0 second }
    ensures bound { result < 2 ^ 24 }
{
    u32::from(remote.0) * 256 + u32::from(second)
}

impl Row for Remote {
    ghost rank_of = { name_rank };

    fn rank(&self) -> u32 {
        u32::from(self.0)
    }
}

impl Row for Key {
    ghost rank_of = { key_rank };

    fn rank(&self) -> u32 {
        let way = match self.way {
            Way::Ul => 0,
            Way::Dl => 1,
        };
        pair(self.remote, self.drb.0) * 2 + way
    }
}

impl Row for RemoteRow {
    ghost rank_of = { remote_rank };

    fn rank(&self) -> u32 {
        u32::from(self.remote.0)
    }
}

impl Row for BearerRow {
    ghost rank_of = { bearer_rank };

    fn rank(&self) -> u32 {
        pair(self.remote, self.drb.0)
    }
}

impl Row for UuRow {
    ghost rank_of = { uu_rank };

    fn rank(&self) -> u32 {
        u32::from(self.chan.0)
    }
}

impl Row for Pc5Row {
    ghost rank_of = { pc5_rank };

    fn rank(&self) -> u32 {
        pair(self.remote, self.chan.0)
    }
}

impl Row for MapRow {
    ghost rank_of = { map_rank };

    fn rank(&self) -> u32 {
        pair(self.remote, self.drb.0)
    }
}
