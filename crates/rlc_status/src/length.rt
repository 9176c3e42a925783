// How long a STATUS PDU is.
ghost use Rattle.std.specs.Prelude.{◌≡◌, length};
ghost use Rattle.rlc_status.specs.Format as format;

use crate::{Nack, Status};
use link_base::SnSize;

/// How many octets an element has.
fn nack_len(size: SnSize, nack: &Nack) -> u64
    ensures { result ≡ format.nack_len size nack.now }
{
    let head = match size {
        SnSize::S12 => 2,
        SnSize::S18 => 3,
    };
    head + 4 * u64::from(nack.part.is_some()) + u64::from(nack.range.is_some())
}

/// How many octets the STATUS PDU has: 3, and for each element 2, or 3 with 18 bits, and 4 for a part and 1 for a
/// range (TS 38.322 clause 6.2.2.5).
pub fn status_len(size: SnSize, status: &Status) -> u64
    ensures sum { result ≡ format.status_len size status.now }
    ensures octets { result ≡ length (format.status_bytes size status.now) }
{
    let nacks = status.nacks.as_slice();
    // In memory an element takes 12 bytes, and on the air 8 octets at most, so the sum fits.
    let _ = size_of_val(nacks);
    let mut len: u64 = 3;
    for nack in nacks {
        len += nack_len(size, nack);
    }
    len
}
