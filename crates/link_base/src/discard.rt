// Why a node drops an SDU that it heard.

/// Why an SDU that a node's RLC receiver completed goes no further.
#[derive(Clone, Copy, Debug, PartialEq, Eq)]
pub enum Discard {
    /// It ends before its SRAP header does (TS 38.351 clause 6.2.2).
    Short,
    /// D/C says that it is an SRAP control PDU.
    Control,
    /// It ends with its SRAP header.
    NoBody,
    /// No remote is attached with its UE ID, or at a remote: it isn't the remote's own.
    UnknownUe,
    /// The remote has no such bearer over the channel on which it came.
    UnknownBearer,
    /// Its UE ID is that of another remote than the one on whose link it came.
    ForeignUe,
    /// It ends before its PDCP header does (TS 38.323 clause 6.2).
    PdcpShort,
    /// It is a PDCP control PDU of a reserved type.
    PdcpType,
    /// It ends with its PDCP header.
    PdcpEmpty,
    /// It has more bytes than a PDCP PDU may have.
    PdcpLong,
    /// It is a status report on SDUs that weren't submitted yet.
    ReportBeyond,
}
