// The PDU's fields, and its octets.
ghost use Rattle.std.specs.Prelude.{◌≡◌, ◌<◌, ◌≤◌, length, IfOk, IfErr, IsOkAnd};
ghost use Rattle.srap_header.specs.Srap.{Srap, srap_of, srap, IsSrap, SrapFits, srap_bytes, IsSrapFault};

use link_base::{Bytes, Memory};
use std::alloc::Global;
use thiserror::Error;

/// The fields of a SRAP data PDU (TS 38.351 clause 6.2.2).
#[derive(Clone, Copy, Debug, PartialEq, Eq)]
pub struct SrapView<'a> {
    /// BEARER ID, from 0 to 31: the identity of the data radio bearer minus 1.
    pub bearer: u8,
    /// UE ID: the local identity of the remote.
    pub ue: u8,
    /// The data field, a PDCP PDU of at least one octet.
    pub body: &'a [u8],
}

/// Why octets are no SRAP data PDU.
#[derive(Clone, Copy, Debug, PartialEq, Eq, Error)]
pub enum SrapFault {
    /// There is no octet, or one of a data PDU alone.
    #[error("short")]
    Short,
    /// D/C is 0: it is a control PDU.
    #[error("control")]
    Control,
    /// No octet follows the header.
    #[error("no-body")]
    NoBody,
}

/// The fields of a SRAP data PDU (TS 38.351 clause 6.2.2). Reserved bits may have any value.
///
/// A fault is the first that holds in this order: `Short` of no octet, `Control`, `Short` of one octet, `NoBody`.
pub fn read(bytes: &[u8]) -> Result<SrapView<'_>, SrapFault>
    // What is read is spelt so, and what is spelt so is read.
    ensures read { IfOk result (λ v. IsSrap (srap_of v) bytes.now) }
    ensures spelt { (v : Srap) → IsSrap v bytes.now → IsOkAnd result (λ w. srap_of w ≡ v) }
    // What is read can be written.
    ensures fits { IfOk result (λ v. SrapFits (srap_of v)) }
    // A fault that comes is the first that holds, and the first that holds comes.
    ensures fault { IfErr result (IsSrapFault bytes.now) }
    ensures refused { (fault : SrapFault) → IsSrapFault bytes.now fault → result ≡ Err fault }
{
    match bytes {
        [] => Err(SrapFault::Short),
        [first, ..] if *first < 128 => Err(SrapFault::Control),
        [_] => Err(SrapFault::Short),
        [_, _] => Err(SrapFault::NoBody),
        [first, ue, body @ ..] => Ok(SrapView {
            bearer: *first % 32,
            ue: *ue,
            body,
        }),
    }
}

/// The octets of a SRAP data PDU, with reserved bits 0 (TS 38.351 clause 6.2.2).
///
/// A bearer is from 0 to 31, and a body has at least one octet.
pub fn write(alloc: Global, bearer: u8, ue: u8, body: &[u8]) -> Result<Bytes, Memory>
    requires bearer { bearer < 32 }
    requires body { 1 ≤ length body.now }
    ensures bytes { IfOk result (λ bytes. bytes ≡ srap_bytes (srap bearer ue body.now)) }
    ensures spelt { IfOk result (IsSrap (srap bearer ue body.now)) }
{
    let mut bytes = Bytes::new(alloc);
    bytes.push(128 + bearer)?;
    bytes.push(ue)?;
    bytes.append(body)?;
    Ok(bytes)
}
