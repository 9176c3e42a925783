// The fields of a STATUS PDU.
ghost use Rattle.std.specs.Prelude.{◌≡◌, ◌≢◌, ℕ, Ok, Err, ◌+◌, ◌*◌, ◌/◌, ◌%◌, ◌^◌, ◌<◌, ◌≤◌, ◌⊎◌, length, take, drop, is_some, unwrap_or, OnOk, IfOk, IfErr, IsErrOf, IfSome, IfNone};
ghost use Rattle.rlc_status.specs.declared.fault.StatusFault.{StatusFault};
ghost use Rattle.rlc_status.specs.declared.status.Status.{Status};
ghost use Rattle.rlc_status.specs.Format.{bit, nack_head_len, nack_len_at, IsFree, Then, IsHeader, IsHeaderFault, IsNackHead, IsPart, IsRange, SpellsNack, IsWrongNack, IsNack, IsNackFault, StatusFits, IsStatus, IsStatusFault, HasElement, IsUnlessMemory};

use crate::{Nack, NackList, Status, StatusFault};
use link_base::SnSize;
use std::alloc::Global;

/// Whether a bit of an octet is 1, where 7 is the first bit and 0 the last.
fn has_bit(octet: u8, place: u8) -> bool
    requires { place < 8 }
    ensures { bit result ≡ octet / 2 ^ place % 2 }
{
    (octet >> place) % 2 == 1
}

/// The first octets of an element.
#[derive(Clone, Copy)]
struct Head {
    sn: u32,
    more: bool,
    has_part: bool,
    has_range: bool,
}

fn read_head(size: SnSize, bytes: &[u8]) -> Option<(Head, &[u8])>
    ensures spelt { IfSome result
        (λ r. IsNackHead IsFree size r.0.sn (bit r.0.more) (bit r.0.has_part) (bit r.0.has_range)
        (take (nack_head_len size) bytes.now)) }
    ensures rest { IfSome result (λ r. r.1.now ≡ drop (nack_head_len size) bytes.now) }
    ensures none { IfNone result (length bytes.now < nack_head_len size) }
{
    match (size, bytes) {
        (SnSize::S12, [a, b, rest @ ..]) => {
            let head = Head {
                sn: u32::from(*a) * 16 + u32::from(*b / 16),
                more: has_bit(*b, 3),
                has_part: has_bit(*b, 2),
                has_range: has_bit(*b, 1),
            };
            Some((head, rest))
        }
        (SnSize::S18, [a, b, c, rest @ ..]) => {
            let head = Head {
                sn: u32::from(*a) * 1024 + u32::from(*b) * 4 + u32::from(*c / 64),
                more: has_bit(*c, 5),
                has_part: has_bit(*c, 4),
                has_range: has_bit(*c, 3),
            };
            Some((head, rest))
        }
        _ => None,
    }
}

fn read_part(has_part: bool, bytes: &[u8]) -> Option<(Option<(u16, u16)>, &[u8])>
    ensures there { IfSome result (λ r. is_some r.0 ≡ has_part) }
    ensures spelt { IfSome result (λ r. IsPart r.0 (take (4 * bit has_part) bytes.now)) }
    ensures rest { IfSome result (λ r. r.1.now ≡ drop (4 * bit has_part) bytes.now) }
    ensures none { IfNone result (length bytes.now < 4 * bit has_part) }
{
    match (has_part, bytes) {
        (false, _) => Some((None, bytes)),
        (true, [a, b, c, d, rest @ ..]) => {
            let start = u16::from_be_bytes([*a, *b]);
            let end = u16::from_be_bytes([*c, *d]);
            Some((Some((start, end)), rest))
        }
        _ => None,
    }
}

fn read_range(has_range: bool, bytes: &[u8]) -> Option<(Option<u8>, &[u8])>
    ensures there { IfSome result (λ r. is_some r.0 ≡ has_range) }
    ensures spelt { IfSome result (λ r. IsRange r.0 (take (bit has_range) bytes.now)) }
    ensures rest { IfSome result (λ r. r.1.now ≡ drop (bit has_range) bytes.now) }
    ensures none { IfNone result (length bytes.now < bit has_range) }
{
    match (has_range, bytes) {
        (false, _) => Some((None, bytes)),
        (true, [range, rest @ ..]) => Some((Some(*range), rest)),
        _ => None,
    }
}

/// The fields of the element at the front with its E1, and the octets behind it. None where it isn't whole.
fn split_nack(size: SnSize, bytes: &[u8]) -> Option<(Nack, bool, &[u8])>
    ensures some { IfSome result
        (λ r. Then (SpellsNack IsFree size r.0 (bit r.1)) (λ rest. rest ≡ r.2.now) bytes.now) }
    ensures none { IfNone result (length bytes.now < nack_len_at size bytes.now) }
{
    let (head, rest) = read_head(size, bytes)?;
    let (part, rest) = read_part(head.has_part, rest)?;
    let (range, rest) = read_range(head.has_range, rest)?;
    let nack = Nack {
        sn: head.sn,
        part,
        range,
    };
    Some((nack, head.more, rest))
}

/// Refuses a range of 0, and a part of one SDU that runs backwards.
fn check_nack(nack: &Nack) -> Result<(), StatusFault>
    ensures range { OnOk result (nack.now.range ≢ Some 0) }
    ensures order { OnOk result
        ((x y : ℕ) → nack.now.part ≡ Some (x, y) → unwrap_or nack.now.range 1 ≡ 1 → x ≤ y) }
    ensures fault { IfErr result (IsWrongNack nack.now) }
{
    let names_one = nack.range.unwrap_or(1) == 1;
    match (nack.range, nack.part) {
        (Some(0), _) => Err(StatusFault::ZeroRange),
        (_, Some((start, end))) if names_one && end < start => Err(StatusFault::BackPart),
        _ => Ok(()),
    }
}

/// The element at the front with its E1, and the octets behind it.
fn read_nack(size: SnSize, bytes: &[u8]) -> Result<(Nack, bool, &[u8]), StatusFault>
    ensures found { IfOk result
        (λ r. Then (IsNack IsFree size r.0 (bit r.1)) (λ rest. rest ≡ r.2.now) bytes.now) }
    ensures fault { IfErr result (IsNackFault size bytes.now) }
{
    let Some((nack, more, rest)) = split_nack(size, bytes) else {
        return Err(StatusFault::Short);
    };
    check_nack(&nack)?;
    Ok((nack, more, rest))
}

fn read_header(size: SnSize, bytes: &[u8]) -> Result<(u32, bool, &[u8]), StatusFault>
    ensures found { IfOk result (λ r. IsHeader IsFree size r.0 (bit r.1) (take 3 bytes.now)) }
    ensures rest { IfOk result (λ r. r.2.now ≡ drop 3 bytes.now) }
    ensures fault { IfErr result (IsHeaderFault bytes.now) }
{
    match bytes {
        [] => Err(StatusFault::Short),
        [a, ..] if has_bit(*a, 7) => Err(StatusFault::IsData),
        [a, ..] if *a / 16 != 0 => Err(StatusFault::ReservedType),
        [a, b, c, rest @ ..] => {
            let (high, middle, low) = (u32::from(*a), u32::from(*b), u32::from(*c));
            let (ack, more) = match size {
                SnSize::S12 => (high * 256 + middle, has_bit(*c, 7)),
                SnSize::S18 => (high * 16_384 + middle * 64 + low / 4, has_bit(*c, 1)),
            };
            Ok((ack, more, rest))
        }
        _ => Err(StatusFault::Short),
    }
}

fn read_status(alloc: Global, size: SnSize, bytes: &[u8]) -> Result<Status, StatusFault>
    ensures found { IfOk result (λ status. IsStatus size status bytes.now) }
    ensures fault { IfErr result
        (λ fault. fault ≢ StatusFault.Memory → IsStatusFault size bytes.now fault) }
    ensures memory { IsErrOf result StatusFault.Memory → HasElement size bytes.now }
{
    let (ack, mut more, mut rest) = read_header(size, bytes)?;
    let mut nacks = NackList::new(alloc);
    while more {
        let (nack, e1, behind) = read_nack(size, rest)?;
        nacks.push(nack)?;
        more = e1;
        rest = behind;
    }
    if !rest.is_empty() {
        return Err(StatusFault::Trailing);
    }
    Ok(Status { ack, nacks })
}

/// The fields of a STATUS PDU (TS 38.322 clause 6.2.2.5). Reserved bits are ignored.
///
/// An error is the first fault in the order in which the fields stand; or want of memory, which comes only where an element
/// stands behind the header.
pub fn decode_status(alloc: Global, size: SnSize, bytes: &[u8]) -> Result<Status, StatusFault>
    // What is read is spelt so, and what is spelt so is read, unless memory is refused.
    ensures found { IfOk result (λ status. IsStatus size status bytes.now) }
    ensures read { (status : Status) → IsStatus size status bytes.now
        → IsUnlessMemory result (Ok status) }
    ensures fits { IfOk result (StatusFits size) }

    // A fault is the first one, and the first one is found, unless memory is refused.
    ensures fault { IfErr result
        (λ fault. fault ≢ StatusFault.Memory → IsStatusFault size bytes.now fault) }
    ensures refused { (fault : StatusFault) → IsStatusFault size bytes.now fault
        → IsUnlessMemory result (Err fault) }

    // Memory is taken for elements alone.
    ensures memory { IsErrOf result StatusFault.Memory → HasElement size bytes.now }
{
    read_status(alloc, size, bytes)
}
