// The octets of a STATUS PDU.
ghost use Rattle.std.specs.Prelude.{◌≡◌, ◌+◌, ◌*◌, ◌++◌, ◌<◌, OnOk, IfOk, is_some};
ghost use Rattle.link_base.specs.SequenceNumbers.{modulus};
ghost use Rattle.rlc_status.specs.Format.{bit, header_of, nack_head_of, nack_of, status_bytes, NackFits, StatusFits, IsStatus, IsPlainStatus};

use crate::{Nack, Status};
use link_base::{Bytes, Memory, SnSize};
use std::alloc::Global;

fn push_header(bytes: &mut Bytes, size: SnSize, ack: u32, more: bool) -> Result<(), Memory>
    requires { ack < modulus size }
    ensures { OnOk result (bytes.new ≡ bytes.old ++ header_of size ack (bit more)) }
{
    match size {
        SnSize::S12 => {
            bytes.push((ack / 256) as u8)?;
            bytes.push((ack % 256) as u8)?;
            bytes.push(u8::from(more) * 128)?;
        }
        SnSize::S18 => {
            bytes.push((ack / 16_384) as u8)?;
            bytes.push((ack / 64 % 256) as u8)?;
            bytes.push((ack % 64 * 4) as u8 + u8::from(more) * 2)?;
        }
    }
    Ok(())
}

/// E1, E2 and E3 of an element.
fn extensions(nack: &Nack, more: bool) -> u8
    ensures { result ≡ bit more * 4 + bit (is_some nack.now.part) * 2 + bit
        (is_some nack.now.range) }
{
    u8::from(more) * 4 + u8::from(nack.part.is_some()) * 2 + u8::from(nack.range.is_some())
}

/// The octets of an element before its part and its range.
fn push_head(bytes: &mut Bytes, size: SnSize, nack: &Nack, more: bool) -> Result<(), Memory>
    requires { nack.now.sn < modulus size }
    ensures { OnOk result
        (bytes.new ≡ bytes.old
        ++ nack_head_of size nack.now.sn (bit more) (bit (is_some nack.now.part))
        (bit (is_some nack.now.range))) }
{
    let sn = nack.sn;
    let extensions = extensions(nack, more);
    match size {
        SnSize::S12 => {
            bytes.push((sn / 16) as u8)?;
            bytes.push((sn % 16 * 16) as u8 + extensions * 2)?;
        }
        SnSize::S18 => {
            bytes.push((sn / 1024) as u8)?;
            bytes.push((sn / 4 % 256) as u8)?;
            bytes.push((sn % 4 * 64) as u8 + extensions * 8)?;
        }
    }
    Ok(())
}

fn push_nack(bytes: &mut Bytes, size: SnSize, nack: &Nack, more: bool) -> Result<(), Memory>
    requires { nack.now.sn < modulus size }
    ensures { OnOk result (bytes.new ≡ bytes.old ++ nack_of size nack.now (bit more)) }
{
    push_head(bytes, size, nack, more)?;
    if let Some((start, end)) = nack.part {
        bytes.append(&start.to_be_bytes())?;
        bytes.append(&end.to_be_bytes())?;
    }
    if let Some(range) = nack.range {
        bytes.push(range)?;
    }
    Ok(())
}

/// The octets of a STATUS PDU, with reserved bits 0 (TS 38.322 clause 6.2.2.5).
pub fn encode_status(alloc: Global, size: SnSize, status: &Status) -> Result<Bytes, Memory>
    requires { StatusFits size status.now }
    ensures bytes { IfOk result (λ bytes. bytes ≡ status_bytes size status.now) }
    ensures spelt { IfOk result (IsStatus size status.now) }
    ensures plain { IfOk result (IsPlainStatus size status.now) }
{
    let mut bytes = Bytes::new(alloc);
    let mut rest = status.nacks.as_slice();
    push_header(&mut bytes, size, status.ack, !rest.is_empty())?;
    while let [nack, others @ ..] = rest {
        push_nack(&mut bytes, size, nack, !others.is_empty())?;
        rest = others;
    }
    Ok(bytes)
}
