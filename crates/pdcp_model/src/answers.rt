// What the calls of a PDCP entity answer.
use link_base::SduList;
use thiserror::Error;

/// Why an SDU isn't accepted.
#[derive(Clone, Copy, Debug, PartialEq, Eq, Error)]
pub enum SubmitFault {
    /// It has no bytes.
    #[error("the SDU has no bytes")]
    Empty,
    /// It has more than 9,000 bytes (TS 38.323 clause 4.3.1).
    #[error("the SDU has more than 9,000 bytes")]
    Long,
    /// No COUNT is left (TS 38.323 clause 6.3.5).
    #[error("no COUNT is left")]
    Spent,
    /// As many SDUs as may be are not confirmed; so many of the first ones are confirmed.
    #[error("too many SDUs are not confirmed, the first {confirmed} alone are")]
    Full {
        /// The confirmed number: how many of the SDUs accepted first are all confirmed.
        confirmed: u64,
    },
    /// Memory was refused.
    #[error("memory was refused")]
    Memory,
}

/// What became of an SDU that a receiving side heard (TS 38.323 clause 5.2.2.1).
#[derive(Debug, Drop)]
pub enum PdcpHeard {
    /// It was the next one: it is handed up, and behind it those that waited for it.
    Up(SduList),
    /// It waits for one with a lower COUNT.
    Stored,
    /// Its COUNT lies below RX_DELIV.
    Old,
    /// It waits already.
    Repeat,
    /// The number near RX_DELIV that has its SN would be negative.
    BeforeStart,
    /// The number near RX_DELIV that has its SN is above the last COUNT.
    PastEnd,
}

/// A status report speaks of SDUs that weren't submitted yet.
#[derive(Clone, Copy, Debug, PartialEq, Eq, Error)]
#[error("a report with FMC {fmc} names COUNTs from {next} on, which were not submitted")]
pub struct ReportBeyond {
    /// Its FMC.
    pub fmc: u32,
    /// TX_NEXT.
    pub next: u64,
}
