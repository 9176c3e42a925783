// Byte strings.
ghost use Rattle.std.specs.Prelude.{◌≡◌, List, ℕ, IfOk};

use crate::{ItemList, Memory};
use std::alloc::Global;

/// Bytes in memory of their own, as an SDU, a PDU or a script.
pub type Bytes = ItemList<u8>;

/// The same bytes in memory of their own.
pub fn copy_bytes(alloc: Global, bytes: &[u8]) -> Result<Bytes, Memory>
    ensures { IfOk result (λ copy. copy ≡ bytes.now) }
{
    let items = Vec::from_slice(alloc, bytes)?;
    Ok(Bytes::from_vec(items))
}
