// What a run came to.

/// What a run came to.
#[derive(Clone, Copy, Debug)]
pub(crate) struct Tally {
    /// The SDUs that were handed up.
    pub(crate) up: u64,
    /// The data PDUs that were sent.
    pub(crate) pdus: u64,
    /// The STATUS PDUs that were sent.
    pub(crate) statuses: u64,
    /// The SDUs whose RETX_COUNT came to maxRetxThreshold.
    pub(crate) marks: u64,
    /// A sum over all PDUs and all SDUs handed up, where it is wanted.
    pub(crate) sum: Option<u64>,
}

impl Tally {
    pub(crate) fn new(summed: bool) -> Self {
        Tally {
            up: 0,
            pdus: 0,
            statuses: 0,
            marks: 0,
            sum: summed.then_some(14_695_981_039_346_656_037),
        }
    }

    /// A data PDU was sent.
    pub(crate) fn count_pdu(&mut self, octets: &[u8]) {
        self.pdus = self.pdus.saturating_add(1);
        self.add(octets);
    }

    /// A STATUS PDU was sent.
    pub(crate) fn count_status(&mut self, octets: &[u8]) {
        self.statuses = self.statuses.saturating_add(1);
        self.add(octets);
    }

    /// An SDU was handed up.
    pub(crate) fn count_up(&mut self, number: u64, sdu: &[u8]) {
        self.up = self.up.saturating_add(1);
        self.add(&number.to_le_bytes());
        self.add(sdu);
    }

    /// So many SDUs came to maxRetxThreshold.
    pub(crate) fn count_marks(&mut self, marks: usize) {
        self.marks = self.marks.saturating_add(marks as u64);
    }

    // The sum is that of Fowler, Noll and Vo, with one step more behind each string.
    fn add(&mut self, octets: &[u8]) {
        if let Some(sum) = self.sum {
            self.sum = Some(sum_with(sum, octets));
        }
    }
}

fn sum_with(sum: u64, octets: &[u8]) -> u64 {
    let mut sum = sum;
    for octet in octets {
        sum = (sum ^ u64::from(*octet)).wrapping_mul(1_099_511_628_211);
    }
    (sum ^ 256).wrapping_mul(1_099_511_628_211)
}
