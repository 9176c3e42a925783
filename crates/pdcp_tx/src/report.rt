// What a status report says of a COUNT (TS 38.323 clauses 6.2.3.1, 6.3.9 and 6.3.10).
ghost use Rattle.std.specs.Prelude.{◌≡◌, ◌==◌, ◌<◌, ◌≤◌, ◌^◌, not};
ghost use Rattle.std.specs.Bool.{MatchBool};
ghost use Rattle.std.specs.List.{list_any};
ghost use Rattle.pdcp_pdu.specs.Reports.{bit_of};
ghost use Rattle.pdcp_model.specs.Sender.{is_reported};
ghost use Rattle.pdcp_tx.specs.Reported.{HasBitFrom, HasOneBelow, SpeaksFrom};

/// Whether a status report says that the SDU with this COUNT was received.
pub(crate) fn is_reported(fmc: u32, map: &[u8], count: u32) -> bool
    ensures { result ≡ is_reported fmc map.now count }
{
    if count < fmc {
        return true;
    }
    count > fmc && has_bit(map, count - fmc)
}

/// Whether a status report speaks of a COUNT from `next` on, or has an FMC above it.
pub(crate) fn speaks_from(fmc: u32, map: &[u8], next: u32) -> bool
    ensures { MatchBool result (SpeaksFrom next fmc map.now) (SpeaksFrom next fmc map.now → ⊥) }
{
    if next < fmc {
        return true;
    }
    has_bit_from(map, (next - fmc).max(1))
}

// Whether a bit of a bitmap is 1, counted from 1 and from bit 7 of the first octet.
fn has_bit(map: &[u8], number: u32) -> bool
    requires { 1 ≤ number }
    ensures { result ≡ (bit_of map.now number == 1) }
{
    let place = number - 1;
    let Some(octet) = map.get((place / 8) as usize) else {
        return false;
    };
    (*octet >> (7 - place % 8)) % 2 == 1
}

// Whether a bit from this one on is 1.
fn has_bit_from(map: &[u8], number: u32) -> bool
    requires { 1 ≤ number }
    ensures { MatchBool result (HasBitFrom map.now number) (HasBitFrom map.now number → ⊥) }
{
    let place = number - 1;
    let index = (place / 8) as usize;
    if index >= map.len() {
        return false;
    }
    has_one_below(map[index], 8 - place % 8) || has_one(&map[index + 1..])
}

// Whether a bit of octets is 1.
fn has_one(octets: &[u8]) -> bool
    ensures { result ≡ list_any (λ octet. not (octet == 0)) octets.now }
{
    octets.iter().any(|octet| *octet != 0)
}

// Whether one of the last `bits` bits of an octet is 1.
fn has_one_below(octet: u8, bits: u32) -> bool
    requires { bits ≤ 8 }
    ensures { MatchBool result (HasOneBelow octet bits) (HasOneBelow octet bits → ⊥) }
{
    u16::from(octet) % (1_u16 << bits) != 0
}
