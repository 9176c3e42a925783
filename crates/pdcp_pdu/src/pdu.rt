// The PDUs' fields, and why octets are no PDU.
use thiserror::Error;

/// The fields of a PDCP PDU (TS 38.323 clause 6.2).
#[derive(Clone, Copy, Debug, PartialEq, Eq)]
pub enum PdcpView<'a> {
    /// A data PDU of a data radio bearer (TS 38.323 clause 6.2.2).
    Sdu {
        /// The sequence number, below 2^12 or 2^18.
        sn: u32,
        /// The SDU, of 1 to 9,000 bytes.
        body: &'a [u8],
    },
    /// A status report (TS 38.323 clause 6.2.3.1).
    Report {
        /// FMC, the COUNT of the first SDU that is missing.
        fmc: u32,
        /// The bitmap, of at most 8,995 octets: its bit number n, counted from 1 and from bit 7 of the first octet,
        /// says whether COUNT FMC + n was received (TS 38.323 clause 6.3.10).
        map: &'a [u8],
    },
}

/// Why octets are no PDCP PDU.
#[derive(Clone, Copy, Debug, PartialEq, Eq, Error)]
pub enum PdcpFault {
    /// There is no octet, or the header or FMC isn't whole.
    #[error("short")]
    Short,
    /// It is a control PDU other than a status report.
    #[error("reserved-type")]
    ReservedType,
    /// A data PDU has no body.
    #[error("empty")]
    Empty,
    /// A body has more than 9,000 bytes, or a status report has more than 9,000 bytes in all.
    #[error("long")]
    Long,
}
