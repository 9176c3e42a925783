// Why bytes are no STATUS PDU.
ghost use Rattle.std.specs.Prelude.{◌≡◌};
ghost use Rattle.rlc_status.specs.declared.fault.StatusFault.TheVariants as faults;

use link_base::Memory;
use thiserror::Error;

/// What is wrong with bytes that are no STATUS PDU: the first fault, in the order in which the fields stand.
#[derive(Clone, Copy, Debug, PartialEq, Eq, Error)]
pub enum StatusFault {
    /// There is no octet, or the header or an element isn't whole.
    #[error("short")]
    Short,
    /// D/C is 1: it is a data PDU.
    #[error("is-data")]
    IsData,
    /// CPT isn't 000.
    #[error("reserved-type")]
    ReservedType,
    /// An element has a NACK range of 0.
    #[error("zero-range")]
    ZeroRange,
    /// An element that names one number has SOend below SOstart.
    #[error("back-part")]
    BackPart,
    /// Octets are left behind the last element.
    #[error("trailing")]
    Trailing,
    /// Memory was refused.
    #[error("want of memory")]
    Memory,
}

impl From<Memory> for StatusFault {
    ghost from_gives = { λ _ fault. fault ≡ faults.Memory };

    fn from(_: Memory) -> Self {
        StatusFault::Memory
    }
}
