// From octets to fields.
ghost use Rattle.std.specs.Prelude.{◌≡◌, ◌∷◌, ◌<◌, ◌≤◌, List, ℕ, IfOk, IfErr, IsOkAnd};
ghost use Rattle.pdcp_pdu.specs.Pdcp.{Pdcp, Sdu, pdcp_of, IsPdcp, PdcpFits, IsBody, IsBodyFault, IsPdcpFault};

use crate::{PdcpFault, PdcpView};
use link_base::{LONGEST_PDCP_SDU, SnSize};

/// The fields of a PDCP PDU whose sequence numbers have this size (TS 38.323 clause 6.2). Reserved bits may have any
/// value.
///
/// A fault is the first that holds in this order: `Short` of no octet, `ReservedType`, `Short` of a header or FMC that
/// isn't whole, `Empty`, `Long`.
pub fn decode_pdcp(size: SnSize, bytes: &[u8]) -> Result<PdcpView<'_>, PdcpFault>
    // What is read is spelt so, and what is spelt so is read.
    ensures read { IfOk result (λ v. IsPdcp size (pdcp_of v) bytes.now) }
    ensures spelt { (v : Pdcp) → IsPdcp size v bytes.now → IsOkAnd result (λ w. pdcp_of w ≡ v) }
    // What is read can be encoded.
    ensures fits { IfOk result (λ v. PdcpFits size (pdcp_of v)) }
    // A fault that comes is the first that holds, and the first that holds comes.
    ensures fault { IfErr result (IsPdcpFault size bytes.now) }
    ensures refused { (fault : PdcpFault) → IsPdcpFault size bytes.now fault → result ≡ Err fault }
{
    match (size, bytes) {
        (_, []) => Err(PdcpFault::Short),
        (_, [first, rest @ ..]) if *first < 128 => report(*first, rest),
        (SnSize::S12, [first, low, body @ ..]) => {
            sdu(u32::from(*first % 16) * 256 + u32::from(*low), body)
        }
        (SnSize::S18, [first, middle, low, body @ ..]) => {
            let sn = u32::from(*first % 4) * 65_536 + u32::from(*middle) * 256 + u32::from(*low);
            sdu(sn, body)
        }
        _ => Err(PdcpFault::Short),
    }
}

/// A data PDU behind its header.
fn sdu(sn: u32, body: &[u8]) -> Result<PdcpView<'_>, PdcpFault>
    ensures read { IfOk result (λ v. (pdcp_of v ≡ Sdu sn body.now) × IsBody body.now) }
    ensures fault { IfErr result (IsBodyFault body.now) }
{
    if body.is_empty() {
        return Err(PdcpFault::Empty);
    }
    if body.len() > LONGEST_PDCP_SDU as usize {
        return Err(PdcpFault::Long);
    }
    Ok(PdcpView::Sdu { sn, body })
}

/// A control PDU behind its first octet.
fn report(first: u8, rest: &[u8]) -> Result<PdcpView<'_>, PdcpFault>
    requires { first < 128 }
    ensures read { (size : SnSize) → IfOk result (λ v. IsPdcp size (pdcp_of v) (first ∷ rest.now)) }
    ensures fits { (size : SnSize) → IfOk result (λ v. PdcpFits size (pdcp_of v)) }
    ensures spelt { (size : SnSize) (v : Pdcp) → IsPdcp size v (first ∷ rest.now)
        → IsOkAnd result (λ w. pdcp_of w ≡ v) }
    ensures fault { (size : SnSize) → IfErr result (IsPdcpFault size (first ∷ rest.now)) }
    ensures refused { (size : SnSize) (fault : PdcpFault)
        → IsPdcpFault size (first ∷ rest.now) fault → result ≡ Err fault }
{
    if first >= 16 {
        return Err(PdcpFault::ReservedType);
    }
    match rest {
        [a, b, c, d, map @ ..] => {
            if map.len() > 8_995 {
                return Err(PdcpFault::Long);
            }
            Ok(PdcpView::Report {
                fmc: u32::from_be_bytes([*a, *b, *c, *d]),
                map,
            })
        }
        _ => Err(PdcpFault::Short),
    }
}
