// Numbers of table lines as names.
ghost use Rattle.std.specs.Prelude.{◌≡◌, if◌then◌else◌, Ok, Err};
ghost use Rattle.bearer_map.specs.Lines.{is_remote, is_drb, is_chan, is_size, sn_size_of};

use crate::TableFault;
use link_base::{Chan, Drb, Remote, SnSize};

/// The remote of a number from 1 to 65,535.
pub(crate) fn remote_of(number: u32) -> Result<Remote, TableFault>
    ensures { result ≡ (if is_remote number then Ok (record { 0 = number })
        else Err TableFault.Range) }
{
    if (1..=65_535).contains(&number) {
        Ok(Remote(number as u16))
    } else {
        Err(TableFault::Range)
    }
}

/// The bearer of a number from 1 to 32.
pub(crate) fn drb_of(number: u32) -> Result<Drb, TableFault>
    ensures { result ≡ (if is_drb number then Ok (record { 0 = number })
        else Err TableFault.Range) }
{
    if (1..=32).contains(&number) {
        Ok(Drb(number as u8))
    } else {
        Err(TableFault::Range)
    }
}

/// The channel of a number from 1 to 8.
pub(crate) fn chan_of(number: u32) -> Result<Chan, TableFault>
    ensures { result ≡ (if is_chan number then Ok (record { 0 = number })
        else Err TableFault.Range) }
{
    if (1..=8).contains(&number) {
        Ok(Chan(number as u8))
    } else {
        Err(TableFault::Range)
    }
}

/// The size of sequence numbers of 12 or 18 bits.
pub(crate) fn sn_size_of(bits: u32) -> Result<SnSize, TableFault>
    ensures { result ≡ (if is_size bits then Ok (sn_size_of bits) else Err TableFault.Range) }
{
    match bits {
        12 => Ok(SnSize::S12),
        18 => Ok(SnSize::S18),
        _ => Err(TableFault::Range),
    }
}
