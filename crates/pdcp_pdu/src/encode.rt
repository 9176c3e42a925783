// From fields to octets.
ghost use Rattle.std.specs.Prelude.{◌≡◌, ◌<◌, ◌++◌, IfOk, OnOk};
ghost use Rattle.link_base.specs.SequenceNumbers.{modulus};
ghost use Rattle.pdcp_pdu.specs.Pdcp.{pdcp_of, IsPdcp, PdcpFits, pdcp_bytes, data_header, report_header};

use crate::PdcpView;
use link_base::{Bytes, Memory, SnSize};
use std::alloc::Global;

/// The octets of a PDU, with reserved bits 0 (TS 38.323 clause 6.2).
///
/// The PDU must be one that the format can hold: an SN of the size, a body of 1 to 9,000 bytes, a report of at most
/// 9,000 bytes in all.
pub fn encode_pdcp(alloc: Global, size: SnSize, pdu: &PdcpView<'_>) -> Result<Bytes, Memory>
    requires { PdcpFits size (pdcp_of pdu.now) }
    ensures bytes { IfOk result (λ bytes. bytes ≡ pdcp_bytes size (pdcp_of pdu.now)) }
    ensures spelt { IfOk result (IsPdcp size (pdcp_of pdu.now)) }
{
    let mut bytes = Bytes::new(alloc);
    match *pdu {
        PdcpView::Sdu { sn, body } => {
            push_data_header(&mut bytes, size, sn)?;
            bytes.append(body)?;
        }
        PdcpView::Report { fmc, map } => {
            bytes.push(0)?;
            bytes.append(&fmc.to_be_bytes())?;
            bytes.append(map)?;
        }
    }
    Ok(bytes)
}

fn push_data_header(bytes: &mut Bytes, size: SnSize, sn: u32) -> Result<(), Memory>
    requires { sn < modulus size }
    ensures { OnOk result (bytes.new ≡ bytes.old ++ data_header size sn) }
{
    match size {
        SnSize::S12 => bytes.push(128 + (sn / 256) as u8)?,
        SnSize::S18 => {
            bytes.push(128 + (sn / 65_536) as u8)?;
            bytes.push((sn / 256 % 256) as u8)?;
        }
    }
    bytes.push((sn % 256) as u8)?;
    Ok(())
}
