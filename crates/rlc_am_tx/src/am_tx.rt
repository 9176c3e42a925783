// The transmitting side of an RLC entity in acknowledged mode.
ghost use Rattle.std.specs.Prelude.{◌≡◌, ◌⊎◌, ◌↔◌, ◌+◌, ◌-◌, ◌<◌, ◌≤◌, ◌^◌, ◌++◌, false, length, vec_capacity, IfOk, IfErr, OnErr, IsTrue, IsSome};
ghost use Rattle.std.specs.List.{prefix_len};
ghost use Rattle.std.specs.Option.{is_none, option_to_list};
ghost use Rattle.std.specs.Bool.{MatchBool};
ghost use Rattle.link_base.specs.declared.limits.TheConstants.{LONGEST_RLC_SDU};
ghost use Rattle.link_base.specs.SequenceNumbers.{window, Near};
ghost use Rattle.rlc_status.specs.Format.{StatusFits};
ghost use Rattle.rlc_model.specs.Tx.{empty_tx, tx_next, tx_next_ack, room, room_of, unconfirmed, header, PendingWaits, UnsentWaits, Gives, Grants};
ghost use Rattle.rlc_model.specs.Retransmission.{IsBeyond, IsBeyondAt, HearsStatus};
ghost use Rattle.rlc_model.specs.Calls.{Bears, ExpiresPollAs, GrantTakesMemory, Grows, StatusTakesMemory};
ghost use Rattle.rlc_rest.specs.Progress.{Progress, HoldsSdus};
ghost use Rattle.rlc_am_tx.specs.Giving.{GivesBack};
ghost use Rattle.rlc_am_tx.specs.Pieces.{IsNextPiece, IsInside};
ghost use Rattle.rlc_am_tx.specs.Polling.{PollsWith};
ghost use Rattle.rlc_am_tx.specs.Sending.{SendsPiece};

use crate::acknowledging::Acknowledged;
use crate::beyond::is_beyond;
use crate::buffer::TxBuffer;
use crate::pieces::Piece;
use crate::polling::Polling;
use crate::sending::with_poll;
use link_base::{Bytes, Expired, LocalId, Memory, NumberList, SnSize, Tag, near};
use rlc_model::{StatusHeard, TagList, TxGrant};
use rlc_status::Status;
use std::alloc::Global;
use std::marker::Model;
use thiserror::Error;

/// Why an SDU was not taken. It gives the SDU back.
#[derive(Debug, Drop, Error)]
pub enum GiveFault {
    /// The transmitting window is full.
    #[error("the transmitting window is full")]
    NoRoom(Bytes),
    /// Memory was refused.
    #[error("memory was refused")]
    Memory(Bytes),
}

/// The transmitting side of an RLC entity in acknowledged mode (TS 38.322 clause 5.2.3.1). It speaks of numbers, which
/// are not cut to the bits of a sequence number.
#[derive(Drop)]
pub struct AmTx {
    alloc: Global,
    size: SnSize,
    max_retx_threshold: u8,
    buffer: TxBuffer,
    polling: Polling,
}

impl Model for AmTx {
    ghost use Rattle.rlc_model.specs.Tx.{Tx};

    ghost Value = { Tx };

    ghost use Rattle.rlc_am_tx.specs.Transmitter.{transmitter_of, IsTransmitterInside};

    ghost view = { transmitter_of };

    ghost invariant = { IsTransmitterInside };
}

impl AmTx {
    /// A transmitter that was given nothing, with its pollPDU, pollByte and maxRetxThreshold (TS 38.322 clause 7.4). A
    /// pollPDU or a pollByte of 0 never causes a poll.
    pub fn new(
        alloc: Global,
        size: SnSize,
        poll_pdu: u32,
        poll_byte: u32,
        max_retx_threshold: u8,
    ) -> Result<Self, Memory>
        ensures { IfOk result (λ tx. tx ≡ empty_tx size poll_pdu poll_byte max_retx_threshold) }
    {
        Ok(AmTx {
            alloc,
            size,
            max_retx_threshold,
            buffer: TxBuffer::new(alloc),
            polling: Polling::new(poll_pdu, poll_byte),
        })
    }

    /// How many bits its sequence numbers have.
    pub fn size(&self) -> SnSize
        ensures { result ≡ self.now.size }
    {
        self.size
    }

    /// TX_Next: the number of the next SDU given (TS 38.322 clause 7.1).
    pub fn next(&self) -> u64
        ensures { result ≡ tx_next self.now }
    {
        self.buffer.next()
    }

    /// TX_Next_Ack: the lowest number that is not confirmed, or TX_Next (TS 38.322 clause 7.1).
    pub fn next_ack(&self) -> u64
        ensures { result ≡ tx_next_ack self.now }
    {
        self.buffer.next_ack()
    }

    /// How many SDUs are not confirmed.
    pub fn unconfirmed(&self) -> u64
        ensures { result ≡ unconfirmed self.now }
    {
        self.buffer.unconfirmed()
    }

    /// How many more SDUs the transmitting window takes: up to 2,048, or 131,072 with 18-bit sequence numbers (TS
    /// 38.322 clause 7.2).
    pub fn room(&self) -> u64
        ensures { result ≡ room self.now }
    {
        room_of(&self.buffer, self.size)
    }

    /// Whether t-PollRetransmit runs (TS 38.322 clause 7.3).
    pub fn poll_running(&self) -> bool
        ensures { result ≡ self.now.poll_retransmit_runs }
    {
        self.polling.poll_retransmit_runs
    }

    /// Whether the tag of an SDU that is not confirmed has this local identity.
    pub fn bears(&self, ue: LocalId) -> bool
        ensures { MatchBool result (Bears self.now ue) (Bears self.now ue → ⊥) }
    {
        self.buffer.bears(ue)
    }

    /// Whether a byte waits, for retransmission or for its first transmission: a grant that is large enough sends a PDU.
    /// It also tells that the transmitter can go on, as each one can: an SDU that is not confirmed is sent again or polled
    /// for in the end.
    pub fn waits(&self) -> bool
        ensures waits { IsTrue result ↔ PendingWaits self.now ⊎ UnsentWaits self.now }
        ensures whole { HoldsSdus self.now }
        ensures progress { Progress self.now }
    {
        self.buffer.waits()
    }

    /// Takes an SDU of 1 to 9,005 bytes, with a tag that comes back once it is confirmed, and answers its number (TS
    /// 38.322 clause 5.2.3.1.1). It needs TX_Next below 2^62.
    ///
    /// `NoRoom` comes exactly where `room` is 0. After an `Err` the transmitter is as it was.
    pub fn give(&mut self, tag: Tag, sdu: Bytes) -> Result<u64, GiveFault>
        requires some { 0 < length sdu }
        requires long { length sdu ≤ LONGEST_RLC_SDU }
        requires small { tx_next self.old < 2 ^ 62 }
        ensures ok { IfOk result (λ number. Gives self.old tag sdu number self.new) }
        ensures err { OnErr result (self.new ≡ self.old) }
        ensures fault { IfErr result (GivesBack self.old sdu) }
    {
        if self.room() == 0 {
            return Err(GiveFault::NoRoom(sdu));
        }
        let number = self.buffer.next();
        if let Err(sdu) = self.buffer.push(tag, sdu) {
            return Err(GiveFault::Memory(sdu));
        }
        Ok(number)
    }

    /// Sends one PDU of at most `n` octets (TS 38.322 clauses 5.2.3.1.1, 5.3.2 and 5.3.3.2).
    ///
    /// `Idle` comes exactly where no byte waits for retransmission or for its first transmission, and `Small` exactly
    /// where the header of the PDU that is next and one byte have more than `n` octets.
    ///
    /// An `Err` is want of memory, and comes only where a PDU is to be sent. The transmitter is then as it was.
    pub fn grant(&mut self, n: u32) -> Result<TxGrant, Memory>
        ensures ok { IfOk result (λ answer. Grants self.old n answer self.new) }
        ensures err { OnErr result (self.new ≡ self.old) }
        ensures memory { OnErr result (GrantTakesMemory self.old n) }
    {
        let Some(piece) = self.buffer.next_piece() else {
            return Ok(TxGrant::Idle);
        };
        let header = header_len(self.size, piece.from);
        if n <= header {
            return Ok(TxGrant::Small { need: header + 1 });
        }
        let end = piece.to.min(piece.from + (n - header) as usize);
        let bytes = self.send(&piece, end)?;
        Ok(TxGrant::Sent {
            number: piece.number,
            bytes,
        })
    }

    /// t-PollRetransmit runs out (TS 38.322 clause 5.3.3.4). It takes no memory.
    ///
    /// `Stopped` comes exactly where the timer isn't running, and `Marked` where the RETX_COUNT of an SDU came to
    /// maxRetxThreshold.
    pub fn expire_poll(&mut self) -> Expired
        ensures { ExpiresPollAs self.old result self.new }
    {
        if !self.polling.poll_retransmit_runs {
            return Expired::Stopped;
        }
        self.polling.expire();
        let Some(number) = self.buffer.retransmit_lowest(self.max_retx_threshold) else {
            return Expired::Done;
        };
        Expired::Marked(number)
    }

    /// Hears a STATUS PDU (TS 38.322 clauses 5.2.3.1.1, 5.3.2, 5.3.3.3 and 5.3.3.4). It needs TX_Next below 2^62.
    ///
    /// `Beyond` comes exactly where the PDU speaks of what was not sent, and `Old` exactly where it doesn't and its
    /// ACK_SN stands for a number below TX_Next_Ack.
    ///
    /// An `Err` is want of memory, and comes only where the PDU is to be carried out and something grows: an SDU is
    /// confirmed, a byte becomes pending, or a number is a mark. The transmitter is then as it was.
    pub fn hear_status(&mut self, status: &Status) -> Result<StatusHeard, Memory>
        requires fits { StatusFits self.old.size status.now }
        requires small { tx_next self.old < 2 ^ 62 }
        ensures ok { IfOk result (λ answer. HearsStatus self.old status.now answer self.new) }
        ensures err { OnErr result (self.new ≡ self.old) }
        ensures memory { OnErr result (StatusTakesMemory self.old status.now) }
    {
        let sent = self.buffer.sent_count();
        let next = self.buffer.next_ack();
        let Some(ack) = near(status.ack, next + 1, self.size) else {
            return Ok(StatusHeard::Beyond {
                ack: status.ack,
                sent,
            });
        };
        if is_beyond(&self.buffer, self.size, ack, status) {
            return Ok(StatusHeard::Beyond {
                ack: status.ack,
                sent,
            });
        }
        if ack < next {
            return Ok(StatusHeard::Old { ack, next });
        }
        let answer = self.acknowledge(ack, status)?;
        Ok(answer)
    }

    // Carries out a STATUS PDU whose ACK_SN stands for `ack`. After an `Err` nothing changed.
    fn acknowledge(&mut self, ack: u64, status: &Status) -> Result<StatusHeard, Memory>
        requires fits { StatusFits self.old.size status.now }
        requires near { Near self.old.size status.now.ack (tx_next_ack self.old + 1) ack }
        requires from { tx_next_ack self.old ≤ ack }
        requires within { ack ≤ tx_next self.old }
        requires fine { IsBeyond self.old status.now → ⊥ }
        ensures ok { IfOk result (λ answer. HearsStatus self.old status.now answer self.new) }
        ensures err { OnErr result (self.new ≡ self.old) }
        ensures memory { OnErr result
            (Grows self.old.size self.old.max_retx_threshold self.old.poll_owed self.old.kept
            status.now ack) }
    {
        let Acknowledged { tags, mut marks } = self.buffer.acknowledge(
            self.size,
            ack,
            status,
            self.max_retx_threshold,
            self.polling.poll_owed,
        )?;
        self.polling.stop_below(ack);
        if !self.polling.poll_owed {
            return Ok(StatusHeard::Acked {
                tags: TagList::from_vec(tags),
                marks: NumberList::from_vec(marks),
            });
        }
        let lowest = self.buffer.retransmit_lowest(self.max_retx_threshold);
        add_mark(&mut marks, lowest);
        Ok(StatusHeard::Acked {
            tags: TagList::from_vec(tags),
            marks: NumberList::from_vec(marks),
        })
    }

    // Sends the bytes of a piece before `end`, and answers the PDU. After an `Err` nothing changed.
    fn send(&mut self, piece: &Piece, end: usize) -> Result<Bytes, Memory>
        requires next { IsNextPiece self.old.kept piece.now }
        requires inside { IsInside self.old.kept piece.now }
        requires some { piece.now.from < end }
        requires within { end ≤ piece.now.to }
        ensures ok { IfOk result (λ bytes. SendsPiece self.old piece.now end bytes self.new) }
        ensures err { OnErr result (self.new ≡ self.old) }
    {
        let sent = self.buffer.send(self.size, piece, end)?;
        if is_polled(&self.buffer, &self.polling, self.size, sent.fresh) {
            self.polling.begin(self.buffer.sent_count() - 1);
            return Ok(with_poll(sent.bytes));
        }
        self.polling.count(sent.fresh);
        Ok(sent.bytes)
    }
}

// How many more SDUs the transmitting window takes.
fn room_of(buffer: &TxBuffer, size: SnSize) -> u64
    requires { length buffer.now ≤ prefix_len is_none buffer.now + window size }
    ensures { result ≡ room_of size buffer.now }
{
    buffer.next_ack() + size.window() - buffer.next()
}

// Whether the PDU that was just sent, of which so many bytes were unsent, has a poll (TS 38.322 clause 5.3.3.2).
fn is_polled(buffer: &TxBuffer, polling: &Polling, size: SnSize, fresh: usize) -> bool
    requires window { length buffer.now ≤ prefix_len is_none buffer.now + window size }
    requires pdus { polling.now.pdu_without_poll + 1 < 2 ^ 128 }
    requires bytes { polling.now.byte_without_poll + fresh < 2 ^ 128 }
    ensures { IsTrue result ↔ PollsWith polling.now size buffer.now fresh }
{
    if polling.is_due(fresh) {
        return true;
    }
    if buffer.unsent_waits() {
        return false;
    }
    room_of(buffer, size) == 0 || !buffer.pending_waits()
}

// How many octets the header of a PDU has that begins at this place of its SDU (TS 38.322 clause 6.2.2.4).
fn header_len(size: SnSize, from: usize) -> u32
    ensures { result ≡ header size from }
{
    let with_sn = match size {
        SnSize::S12 => 2,
        SnSize::S18 => 3,
    };
    if from > 0 { with_sn + 2 } else { with_sn }
}

// Adds a number, where there is one, for which there is room.
fn add_mark(marks: &mut Vec<u64>, number: Option<u64>)
    requires { IsSome number → length marks.old.items < vec_capacity marks.old }
    ensures { marks.new.items ≡ marks.old.items ++ option_to_list number }
{
    if let Some(number) = number {
        let Ok(()) = marks.push(number) else {
            unreachable!()
        };
    }
}
