// Polling.
ghost use Rattle.std.specs.Prelude.{◌≡◌, ◌↔◌, ◌+◌, ◌<◌, ◌^◌, None, false, IsTrue};

/// The variables of polling (TS 38.322 clauses 5.3.3, 7.1, 7.3 and 7.4).
#[derive(Debug, Drop)]
pub(crate) struct Polling {
    /// pollPDU and pollByte, or 0 for never.
    pub(crate) poll_pdu: u32,
    pub(crate) poll_byte: u32,
    pub(crate) pdu_without_poll: u128,
    pub(crate) byte_without_poll: u128,
    pub(crate) poll_sn: Option<u64>,
    /// A poll is owed since t-PollRetransmit ran out.
    pub(crate) poll_owed: bool,
    pub(crate) poll_retransmit_runs: bool,
}

impl Polling {
    ghost use Rattle.rlc_am_tx.specs.Polling.{PollIsDue, initial, polled, unpolled, expired, StopsBelow};

    pub(crate) fn new(poll_pdu: u32, poll_byte: u32) -> Self
        ensures { result ≡ initial poll_pdu poll_byte }
    {
        Polling {
            poll_pdu,
            poll_byte,
            pdu_without_poll: 0,
            byte_without_poll: 0,
            poll_sn: None,
            poll_owed: false,
            poll_retransmit_runs: false,
        }
    }

    /// Whether a PDU of which so many bytes were unsent has a poll, whatever waits behind it (TS 38.322 clause
    /// 5.3.3.2).
    pub(crate) fn is_due(&self, fresh: usize) -> bool
        requires pdus { self.now.pdu_without_poll + 1 < 2 ^ 128 }
        requires bytes { self.now.byte_without_poll + fresh < 2 ^ 128 }
        ensures { IsTrue result ↔ PollIsDue self.now fresh }
    {
        let by_pdus = self.poll_pdu > 0 && self.pdu_without_poll + 1 >= u128::from(self.poll_pdu);
        let by_bytes = self.poll_byte > 0
            && self.byte_without_poll + fresh as u128 >= u128::from(self.poll_byte);
        self.poll_owed || fresh > 0 && (by_pdus || by_bytes)
    }

    /// A PDU with a poll was sent, and this is the highest number of which a byte was (TS 38.322 clause 5.3.3.2).
    pub(crate) fn begin(&mut self, highest: u64)
        ensures { self.new ≡ polled self.old highest }
    {
        self.pdu_without_poll = 0;
        self.byte_without_poll = 0;
        self.poll_sn = Some(highest);
        self.poll_owed = false;
        self.poll_retransmit_runs = true;
    }

    /// A PDU without a poll was sent, of which so many bytes were unsent (TS 38.322 clause 5.3.3.2).
    pub(crate) fn count(&mut self, fresh: usize)
        requires pdus { self.old.pdu_without_poll + 1 < 2 ^ 128 }
        requires bytes { self.old.byte_without_poll + fresh < 2 ^ 128 }
        ensures { self.new ≡ unpolled self.old fresh }
    {
        if fresh > 0 {
            self.pdu_without_poll += 1;
        }
        self.byte_without_poll += fresh as u128;
    }

    /// t-PollRetransmit runs out (TS 38.322 clause 5.3.3.4).
    pub(crate) fn expire(&mut self)
        ensures { self.new ≡ expired self.old }
    {
        self.poll_owed = true;
        self.poll_retransmit_runs = false;
    }

    /// A STATUS PDU was carried out whose ACK_SN stands for `ack`: t-PollRetransmit stops where POLL_SN is below that
    /// (TS 38.322 clause 5.3.3.3).
    pub(crate) fn stop_below(&mut self, ack: u64)
        ensures { StopsBelow self.old ack self.new }
    {
        if let Some(poll_sn) = self.poll_sn
            && poll_sn < ack
        {
            self.poll_retransmit_runs = false;
        }
    }
}
