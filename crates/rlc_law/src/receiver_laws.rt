// The laws of a receiver, whatever data PDUs it hears.
ghost use Rattle.rlc_law.specs.Receiver.{StartsSound, StaysSound, StatusIsTrue};

/// A law: an empty receiver is sound, and each call of a sound one leaves a sound one, with any data PDU that its format
/// can hold.
pub fn receiver_stays_sound()
    ensures starts { StartsSound }
    ensures stays { StaysSound }
{}

/// A law: each STATUS that a sound receiver makes is true of it, fits its format and the octets allowed, and has an ACK_SN
/// that stands for a number from RX_Next up to RX_Highest_Status.
pub fn receiver_status_is_true()
    ensures { StatusIsTrue }
{}
