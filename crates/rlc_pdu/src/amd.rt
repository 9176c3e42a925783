// The AMD PDU: its fields, and the bytes that spell it.
ghost use Rattle.std.specs.Prelude.{◌≡◌, ◌<◌, ◌≤◌, length, IfOk, IfErr, IsOkAnd, IsErrOf};
ghost use Rattle.rlc_pdu.specs.Amd.{Amd, amd_of, si_bits, has_so, sn_end, amd_header_len, si_field, sn_field, so_field, r_field, AmdFits, IsAmd, amd_bytes, IsAmdFault};

use link_base::{Bytes, LONGEST_RLC_SDU, Memory, SnSize};
use std::alloc::Global;
use thiserror::Error;

/// Which kind of segment of an RLC SDU a PDU carries, or the whole SDU: the field SI (TS 38.322 clause 6.2.3.4).
#[derive(Clone, Copy, Debug, PartialEq, Eq)]
pub enum Si {
    /// The whole SDU.
    Whole,
    /// Its first segment.
    First,
    /// Its last segment.
    Last,
    /// A segment that is neither the first nor the last.
    Middle,
}

impl Si {
    fn from_bits(bits: u8) -> Self
        requires { bits < 4 }
        ensures { si_bits result ≡ bits }
    {
        match bits {
            0 => Si::Whole,
            1 => Si::First,
            2 => Si::Last,
            _ => Si::Middle,
        }
    }

    fn bits(self) -> u8
        ensures { result ≡ si_bits self }
    {
        match self {
            Si::Whole => 0,
            Si::First => 1,
            Si::Last => 2,
            Si::Middle => 3,
        }
    }

    fn has_so(self) -> bool
        ensures { result ≡ has_so (si_bits self) }
    {
        matches!(self, Si::Last | Si::Middle)
    }
}

/// The fields of an AMD PDU (TS 38.322 clause 6.2.2.4). Its body lies elsewhere in memory.
#[derive(Clone, Copy, Debug, PartialEq, Eq)]
pub struct AmdView<'a> {
    /// The sequence number of the SDU: below 4,096, or with 18 bits below 262,144 (clause 6.2.3.3).
    pub sn: u32,
    /// P: whether a status report is asked for (clause 6.2.3.7).
    pub poll: bool,
    /// Which segment of the SDU the body is.
    pub si: Si,
    /// SO: the place in the SDU, counted from 0, at which a `Last` or `Middle` segment begins, which is at least 1.
    /// With `Whole` and `First` the PDU has no SO, and this is 0 (clause 6.2.3.5).
    pub so: u16,
    /// The data field: at least one byte, that ends within the first 9,005 bytes of the SDU.
    pub body: &'a [u8],
}

/// What is wrong with bytes that spell no AMD PDU.
#[derive(Clone, Copy, Debug, PartialEq, Eq, Error)]
pub enum AmdFault {
    /// They end before the header does.
    #[error("short")]
    Short,
    /// D/C says that they are a control PDU (TS 38.322 clause 6.2.3.6).
    #[error("control")]
    Control,
    /// The SO of a segment that isn't the first is 0.
    #[error("zero-offset")]
    ZeroOffset,
    /// They end with the header.
    #[error("no-body")]
    NoBody,
    /// SO and the length of the body have a sum above 9,005.
    #[error("long")]
    Long,
}

// D/C, bit 7 of the first byte, as a data PDU has it.
const DATA_PDU: u8 = 0x80;

// P, bit 6.
const POLL: u8 = 0x40;

fn sn_end(size: SnSize) -> usize
    ensures { result ≡ sn_end size }
{
    match size {
        SnSize::S12 => 2,
        SnSize::S18 => 3,
    }
}

fn header_len(size: SnSize, si: Si) -> usize
    ensures { result ≡ amd_header_len size (si_bits si) }
{
    sn_end(size) + if si.has_so() { 2 } else { 0 }
}

fn read_sn(size: SnSize, bytes: &[u8]) -> u32
    requires { sn_end size ≤ length bytes.now }
    ensures { result ≡ sn_field size bytes.now }
{
    match size {
        SnSize::S12 => u32::from_be_bytes([0, 0, bytes[0] % 16, bytes[1]]),
        SnSize::S18 => u32::from_be_bytes([0, bytes[0] % 4, bytes[1], bytes[2]]),
    }
}

// SO, or 0 where there is none.
fn read_so(size: SnSize, si: Si, bytes: &[u8]) -> u16
    requires si { si_bits si ≡ si_field bytes.now }
    requires whole { amd_header_len size (si_bits si) ≤ length bytes.now }
    ensures { result ≡ so_field size bytes.now }
{
    if !si.has_so() {
        return 0;
    }
    let at = sn_end(size);
    u16::from_be_bytes([bytes[at], bytes[at + 1]])
}

/// Reads the PDU that bytes spell, whatever their R bits are (TS 38.322 clause 6.2.2.4). This takes no memory.
///
/// An error is the first of these that holds: `Short`, there is no byte; `Control`; `Short`, the header isn't whole;
/// `ZeroOffset`; `NoBody`; `Long`.
#[tactic(auto, unfolding(crate::specs::Amd::fault_tests))]
pub fn decode_amd(size: SnSize, bytes: &[u8]) -> Result<AmdView<'_>, AmdFault>
    // It is Ok exactly where the bytes spell a PDU, and then with this PDU.
    ensures found { IfOk result (λ view. IsAmd size (amd_of view) bytes.now) }
    ensures reads { (v : Amd) → IsAmd size v bytes.now → IsOkAnd result (λ view. amd_of view ≡ v) }
    // It is an Err exactly where they have a fault, and then with this fault.
    ensures fault { IfErr result (IsAmdFault size bytes.now) }
    ensures refuses { (fault : AmdFault) → IsAmdFault size bytes.now fault → IsErrOf result fault }
{
    let Some(&first) = bytes.first() else {
        return Err(AmdFault::Short);
    };
    if first < DATA_PDU {
        return Err(AmdFault::Control);
    }
    let si = Si::from_bits(first / 16 % 4);
    let len = header_len(size, si);
    if bytes.len() < len {
        return Err(AmdFault::Short);
    }
    let so = read_so(size, si, bytes);
    if si.has_so() && so == 0 {
        return Err(AmdFault::ZeroOffset);
    }
    let (_, body) = bytes.split_at(len);
    if body.is_empty() {
        return Err(AmdFault::NoBody);
    }
    if body.len() > (LONGEST_RLC_SDU as usize).saturating_sub(usize::from(so)) {
        return Err(AmdFault::Long);
    }
    Ok(AmdView {
        sn: read_sn(size, bytes),
        poll: first / POLL % 2 == 1,
        si,
        so,
        body,
    })
}

/// Writes a PDU that the format can hold, with R bits 0 (TS 38.322 clause 6.2.2.4). It fails only for want of memory.
pub fn encode_amd(alloc: Global, size: SnSize, pdu: &AmdView<'_>) -> Result<Bytes, Memory>
    requires { AmdFits size (amd_of pdu.now) }
    ensures bytes { IfOk result (λ bytes. bytes ≡ amd_bytes size (amd_of pdu.now)) }
    ensures spelt { IfOk result (IsAmd size (amd_of pdu.now)) }
    ensures reserved { IfOk result (λ bytes. r_field size bytes ≡ 0) }
{
    let len = header_len(size, pdu.si) + pdu.body.len();
    let mut bytes = Bytes::from_vec(Vec::with_capacity(alloc, len)?);
    let first = DATA_PDU + u8::from(pdu.poll) * POLL + pdu.si.bits() * 16;
    let [_, high, middle, low] = pdu.sn.to_be_bytes();
    let [so_high, so_low] = pdu.so.to_be_bytes();
    let header = match size {
        SnSize::S12 => [first + middle, low, so_high, so_low, 0],
        SnSize::S18 => [first + high, middle, low, so_high, so_low],
    };
    bytes.append(&header[..header_len(size, pdu.si)])?;
    bytes.append(pdu.body)?;
    Ok(bytes)
}
