// The PDUs that were sent, of which some are on the air.
ghost use Rattle.std.specs.Prelude.{◌≡◌, ◌<◌, ◌+◌, ◌^◌, ◌==◌, ◌++◌, ◌∷◌, [], length, count_by, is_some, IfOk, IsOkAnd, IfSome, IfNone, IsNone, ◌↔◌, ◌≤◌, OnErr};
ghost use Rattle.std.specs.declared.option.Option.TheVariants.{Some, None};
ghost use Rattle.std.specs.List.{prefix_len};
ghost use Rattle.std.specs.Option.{is_none};
ghost use Rattle.rlc_model.specs.Hop.{on_air, off_air, IsLowest};

use crate::Pdu;
use link_base::Memory;
use std::alloc::Global;
use std::marker::Model;

/// The PDUs that were sent, by ticket, of which at most 16,384 are on the air. Tickets are counted from 1.
///
/// Each call takes constant time, `put` and `take` on average over all calls.
#[derive(Debug, Drop)]
pub struct Air {
    // By ticket less 1.
    pdus: Vec<Option<Pdu>>,
    // How many are on the air.
    on_air: u64,
    // How many tickets lie below the lowest one on the air, or all where none is there.
    below: usize,
}

impl Model for Air {
    ghost use Rattle.std.specs.Prelude.{List, Option};
    ghost use Rattle.rlc_model.specs.declared.hop.Pdu.{Pdu};
    ghost use Rattle.rlc_hop.specs.Air.{AreCounted};

    ghost Value = { List (Option Pdu) };

    ghost view = { λ a. a.pdus.items };

    ghost invariant = { AreCounted };
}

impl Air {
    /// No PDU was sent. This takes no memory.
    pub fn new(alloc: Global) -> Result<Self, Memory>
        ensures { IsOkAnd result (λ air. air ≡ []) }
    {
        Ok(Air {
            pdus: Vec::new(alloc),
            on_air: 0,
            below: 0,
        })
    }

    /// Puts a PDU on the air, and answers its ticket. It needs fewer than 2^61 tickets made and fewer than 16,384 PDUs on
    /// the air.
    ///
    /// An `Err` is want of memory, and the air is as it was.
    pub fn put(&mut self, pdu: Pdu) -> Result<u64, Memory>
        requires tickets { length self.old < 2 ^ 61 }
        requires room { count_by is_some self.old < 16384 }
        ensures ok { IfOk result
            (λ ticket. (ticket ≡ length self.old + 1) × (self.new ≡ self.old ++ Some pdu ∷ [])) }
        ensures err { OnErr result (self.new ≡ self.old) }
    {
        self.pdus.push(Some(pdu))?;
        self.on_air += 1;
        Ok(self.pdus.len() as u64)
    }

    /// How many tickets were made.
    pub fn made(&self) -> u64
        ensures { result ≡ length self.now }
    {
        self.pdus.len() as u64
    }

    /// How many PDUs are on the air.
    pub fn len(&self) -> u64
        ensures { result ≡ count_by is_some self.now }
    {
        self.on_air
    }

    /// Whether no PDU is on the air.
    pub fn is_empty(&self) -> bool
        ensures { result ≡ (count_by is_some self.now == 0) }
    {
        self.on_air == 0
    }

    /// The PDU of a ticket, or None exactly where it isn't on the air.
    pub fn get(&self, ticket: u64) -> Option<&Pdu>
        ensures found { IfSome result (λ pdu. on_air self.now ticket ≡ Some pdu.now) }
        ensures none { IfNone result (on_air self.now ticket ≡ None) }
    {
        let place = ticket.checked_sub(1)?;
        self.pdus.get(place as usize)?.as_ref()
    }

    /// Takes the PDU of a ticket off the air, or None exactly where it isn't there. This takes no memory.
    pub fn take(&mut self, ticket: u64) -> Option<Pdu>
        ensures answer { result ≡ on_air self.old ticket }
        ensures off { self.new ≡ off_air self.old ticket }
    {
        let place = ticket.checked_sub(1)?;
        let taken = self.pdus.get_mut(place as usize)?.take()?;
        self.on_air -= 1;
        self.below = lowest_place(&self.pdus, self.below);
        Some(taken)
    }

    /// The lowest ticket on the air, or None exactly where no PDU is there.
    pub fn lowest(&self) -> Option<u64>
        ensures lowest { IfSome result (IsLowest self.now) }
        ensures none { IsNone result ↔ (count_by is_some self.now ≡ 0) }
    {
        if self.is_empty() {
            return None;
        }
        Some(self.below as u64 + 1)
    }
}

// The lowest place of a PDU on the air, or behind all places where there is none; no PDU is below `from`.
fn lowest_place(pdus: &[Option<Pdu>], from: usize) -> usize
    requires { from ≤ prefix_len is_none pdus.now }
    ensures { result ≡ prefix_len is_none pdus.now }
{
    let mut place = from;
    while place < pdus.len() && pdus[place].is_none() {
        place += 1;
    }
    place
}
