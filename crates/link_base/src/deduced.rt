// The number that a sequence number stands for.
ghost use Rattle.std.specs.Prelude.{◌≡◌, ◌<◌, ◌≤◌, ◌^◌, IfSome, IfNone, ℕ};
ghost use Rattle.link_base.specs.SequenceNumbers.{modulus, Near, OneIsNear};

use crate::SnSize;

/// The one number with this sequence number that lies near the base: at most half a cycle below it, and less than
/// half a cycle above it (TS 38.322 clause 7.1, TS 38.323 clause 5.2.2.1).
///
/// A base is at most 2^62. None where the number would be negative.
pub fn near(sn: u32, base: u64, size: SnSize) -> Option<u64>
    requires sn { sn < modulus size }
    requires base { base ≤ 2 ^ 62 }
    ensures near { IfSome result (Near size sn base) }
    ensures none { IfNone result ((number : ℕ) → Near size sn base number → ⊥) }
{
    let sn = u64::from(sn);
    let cycle = size.modulus();
    let half = size.window();
    let same_cycle = base - base % cycle + sn;
    if same_cycle >= base + half {
        same_cycle.checked_sub(cycle)
    } else if same_cycle + half < base {
        Some(same_cycle + cycle)
    } else {
        Some(same_cycle)
    }
}

/// A law: no other number than `near`'s has the sequence number and lies near the base.
pub fn one_number_is_near()
    ensures { OneIsNear }
{}
