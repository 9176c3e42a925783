// The limits of the standards that several layers share.

/// The longest PDCP SDU, in bytes (TS 38.323 clause 4.3.1).
pub const LONGEST_PDCP_SDU: u32 = 9_000;

/// The longest RLC SDU, in bytes: the longest PDCP SDU behind a PDCP header of 3 octets (TS 38.323 clause 6.2.2.3) and a
/// SRAP header of 2 (TS 38.351 clause 6.2.2).
pub const LONGEST_RLC_SDU: u32 = 9_005;

/// The end of the COUNTs, which go from 0 up to the number below it (TS 38.323 clause 6.3.5): 2^32 - 1 is no SDU's COUNT.
pub const COUNT_END: u32 = 4_294_967_295;
