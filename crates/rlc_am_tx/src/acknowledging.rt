// What a STATUS PDU does to the SDUs from TX_Next_Ack on.
ghost use Rattle.std.specs.Prelude.{◌≡◌, ◌≢◌, ◌⊎◌, ◌↔◌, ◌+◌, ◌<◌, ◌≤◌, ◌^◌, ℕ, ◌-◌, [], ◌++◌, true, false, None, Some, length, take, replicate, is_some, vec_capacity, OnOk, OnErr, IsTrue};
ghost use Rattle.std.specs.List.{prefix_len};
ghost use Rattle.std.specs.Option.{is_none, option_to_list};
ghost use Rattle.std.specs.Bool.{MatchBool, then_some};
ghost use Rattle.std.specs.Ordering.{nat_cmp};
ghost use Rattle.std.specs.BTreeSet.{contains};
ghost use Rattle.rlc_status.specs.Format.{AllFit};
ghost use Rattle.rlc_status.specs.Says.{Some_has};
ghost use Rattle.rlc_model.specs.Tx.{at};
ghost use Rattle.rlc_am_tx.specs.Buffer.{IsPending, IsIdle};
ghost use Rattle.rlc_am_tx.specs.Elements.{PassesAck};
ghost use Rattle.rlc_am_tx.specs.Naming.{not_named, named_at, IsNamingOf, AreNamingsOf, ByElements, AreForgotten};
ghost use Rattle.rlc_am_tx.specs.Acknowledging.{confirmed_tag, is_mark, settled, told_tags, AreMarks, EntersWaiting, EntersOf, GrowsOne, GrowsOneOf, MayWait, WaitsOn, Plans, GrowsFrom};

use crate::kept_sdu::KeptSdu;
use crate::naming::{Naming, name_all};
use link_base::{Memory, SnSize, Tag};
use rlc_status::Status;
use std::alloc::Global;
use std::collections::{BTreeSet, VecDeque};

/// The tags of the SDUs that a STATUS PDU confirms, and the numbers whose RETX_COUNT comes to the threshold.
#[derive(Drop)]
pub(crate) struct Acknowledged {
    pub(crate) tags: Vec<Tag>,
    pub(crate) marks: Vec<u64>,
}

impl Acknowledged {
    /// Nothing, which takes no memory.
    pub(crate) fn new(alloc: Global) -> Self
        ensures tags { result.tags.items ≡ [] }
        ensures marks { result.marks.items ≡ [] }
    {
        Acknowledged {
            tags: Vec::new(alloc),
            marks: Vec::new(alloc),
        }
    }

    /// Takes memory for one more mark, where the lowest SDU may become pending: it may where no byte waits, or where one may
    /// wait no more since SDUs are confirmed.
    pub(crate) fn reserve(&mut self, poll_owed: bool, may_wake: bool) -> Result<(), Memory>
        ensures tags { self.new.tags.items ≡ self.old.tags.items }
        ensures marks { self.new.marks.items ≡ self.old.marks.items }
        ensures room { OnOk result
            ((may_wake ≡ true) ⊎ ((poll_owed ≡ true) × (self.old.tags.items ≢ []))
            → length self.new.marks.items < vec_capacity self.new.marks) }
        ensures err { OnErr result
            ((may_wake ≡ true) ⊎ ((poll_owed ≡ true) × (self.old.tags.items ≢ []))) }
    {
        if may_wake || poll_owed && !self.tags.is_empty() {
            self.marks.reserve(1)?;
        }
        Ok(())
    }
}

/// Plans what a STATUS PDU does whose ACK_SN stands for `ack`, and takes all memory for it: what it names of the SDUs, the
/// numbers that wait then, the tags and the marks.
pub(crate) fn plan(
    kept_sdus: &VecDeque<Option<KeptSdu>>,
    names: &mut VecDeque<Naming>,
    waiting: &mut BTreeSet<u64>,
    base: u64,
    ack: u64,
    size: SnSize,
    status: &Status,
    threshold: u8,
    poll_owed: bool,
    may_wake: bool,
    told: &mut Acknowledged,
) -> Result<(), Memory>
    requires fits { AllFit size status.now.nacks }
    requires small { ack ≤ 2 ^ 62 }
    requires base { base ≤ ack }
    requires below { Some_has (PassesAck size ack) status.now.nacks → ⊥ }
    requires kept_sdus { ack ≤ base + length kept_sdus.now.items }
    requires names { ack ≤ base + length names.old.items }
    requires forgotten { AreForgotten names.old.items }
    requires no_tags { told.old.tags.items ≡ [] }
    requires no_marks { told.old.marks.items ≡ [] }
    ensures ok { OnOk result
        (Plans kept_sdus.now.items base size ack threshold status.now names.new.items
        told.new.tags.items told.new.marks.items) }
    ensures long { length names.new.items ≡ length names.old.items }
    ensures rest { (i : ℕ) → ack ≤ base + i → named_at names.new.items i ≡ not_named }
    ensures enters { OnOk result
        ((n : ℕ) → EntersOf kept_sdus.now.items names.new.items (ack - base) base n
        → contains nat_cmp waiting.new n ≡ true) }
    ensures kept { (n : ℕ) → contains nat_cmp waiting.old n ≡ true → contains nat_cmp waiting.new n
        ≡ true }
    ensures only { (n : ℕ) → contains nat_cmp waiting.new n ≡ true
        → (contains nat_cmp waiting.old n ≡ true)
        ⊎ EntersOf kept_sdus.now.items names.new.items (ack - base) base n }
    ensures room { OnOk result
        ((may_wake ≡ true) ⊎ ((poll_owed ≡ true) × (told.new.tags.items ≢ []))
        → length told.new.marks.items < vec_capacity told.new.marks) }
    ensures err { OnErr result
        ((may_wake ≡ true) ⊎ GrowsFrom base kept_sdus.now.items size threshold status.now ack) }
{
    let count = (ack - base) as usize;
    name_all(kept_sdus, names, base, size, ack, status.nacks.as_slice())?;
    plan_all(kept_sdus, names, base, count, threshold, waiting, told)?;
    told.reserve(poll_owed, may_wake)
}

// Of the first `count` SDUs, where `base` is the first one's number, adds the tags of those that are to be confirmed and the
// numbers that are to be marks, and has those wait of which a byte is to become pending, and none is.
fn plan_all(
    kept_sdus: &VecDeque<Option<KeptSdu>>,
    names: &VecDeque<Naming>,
    base: u64,
    count: usize,
    threshold: u8,
    waiting: &mut BTreeSet<u64>,
    told: &mut Acknowledged,
) -> Result<(), Memory>
    requires kept_sdus { count ≤ length kept_sdus.now.items }
    requires names { count ≤ length names.now.items }
    requires small { base + count ≤ 2 ^ 62 }
    requires fits { AreNamingsOf kept_sdus.now.items names.now.items }
    requires no_tags { told.old.tags.items ≡ [] }
    requires no_marks { told.old.marks.items ≡ [] }
    ensures tags { OnOk result
        (told.new.tags.items ≡ told_tags (take count kept_sdus.now.items)
        (take count names.now.items)) }
    ensures marks { OnOk result
        (AreMarks threshold base kept_sdus.now.items names.now.items count told.new.marks.items) }
    ensures enters { OnOk result
        ((n : ℕ) → EntersOf kept_sdus.now.items names.now.items count base n
        → contains nat_cmp waiting.new n ≡ true) }
    ensures kept { (n : ℕ) → contains nat_cmp waiting.old n ≡ true → contains nat_cmp waiting.new n
        ≡ true }
    ensures only { (n : ℕ) → contains nat_cmp waiting.new n ≡ true
        → (contains nat_cmp waiting.old n ≡ true)
        ⊎ EntersOf kept_sdus.now.items names.now.items count base n }
    ensures err { OnErr result
        (GrowsOneOf threshold kept_sdus.now.items names.now.items count) }
{
    for index in 0..count {
        plan_one(
            &kept_sdus[index],
            &names[index],
            base + index as u64,
            threshold,
            waiting,
            told,
        )?;
    }
    Ok(())
}

// The same of one SDU.
fn plan_one(
    kept_sdu: &Option<KeptSdu>,
    naming: &Naming,
    number: u64,
    threshold: u8,
    waiting: &mut BTreeSet<u64>,
    told: &mut Acknowledged,
) -> Result<(), Memory>
    requires { IsNamingOf kept_sdu.now naming.now }
    ensures tags { OnOk result
        (told.new.tags.items ≡ told.old.tags.items
        ++ option_to_list (confirmed_tag naming.now.named kept_sdu.now)) }
    ensures marks { OnOk result
        (told.new.marks.items ≡ told.old.marks.items
        ++ option_to_list (then_some
        (is_mark threshold kept_sdu.now naming.now.named (is_some naming.now.pending)) number)) }
    ensures enters { OnOk result
        (EntersWaiting kept_sdu.now naming.now → contains nat_cmp waiting.new number ≡ true) }
    ensures kept { (n : ℕ) → contains nat_cmp waiting.old n ≡ true → contains nat_cmp waiting.new n
        ≡ true }
    ensures only { (n : ℕ) → contains nat_cmp waiting.new n ≡ true
        → (contains nat_cmp waiting.old n ≡ true)
        ⊎ ((n ≡ number) × EntersWaiting kept_sdu.now naming.now) }
    ensures err { OnErr result (GrowsOne threshold kept_sdu.now naming.now) }
{
    let Some(kept_sdu) = kept_sdu else {
        return Ok(());
    };
    if !naming.named {
        told.tags.push(kept_sdu.tag())?;
        return Ok(());
    }
    enter(waiting, number, kept_sdu, naming)?;
    if kept_sdu.is_mark(naming.pending.is_some(), threshold) {
        told.marks.push(number)?;
    }
    Ok(())
}

// Has the number of an SDU that is named wait, where a byte of it is to become pending and none is.
fn enter(
    waiting: &mut BTreeSet<u64>,
    number: u64,
    kept_sdu: &KeptSdu,
    naming: &Naming,
) -> Result<(), Memory>
    requires { naming.now.named ≡ true }
    ensures ok { OnOk result
        (EntersWaiting (Some kept_sdu.now) naming.now
        → contains nat_cmp waiting.new number ≡ true) }
    ensures kept { (n : ℕ) → contains nat_cmp waiting.old n ≡ true → contains nat_cmp waiting.new n
        ≡ true }
    ensures only { (n : ℕ) → contains nat_cmp waiting.new n ≡ true
        → (contains nat_cmp waiting.old n ≡ true)
        ⊎ ((n ≡ number) × EntersWaiting (Some kept_sdu.now) naming.now) }
    ensures err { OnErr result (EntersWaiting (Some kept_sdu.now) naming.now) }
{
    if naming.pending.is_none() || kept_sdu.has_pending() {
        return Ok(());
    }
    waiting.insert(number)?;
    Ok(())
}

/// Has those of the first `count` numbers wait no more that have no pending byte, where `base` is the first SDU's.
pub(crate) fn leave_all(
    kept_sdus: &VecDeque<Option<KeptSdu>>,
    count: usize,
    base: u64,
    waiting: &mut BTreeSet<u64>,
)
    requires kept_sdus { count ≤ length kept_sdus.now.items }
    requires small { base + count ≤ 2 ^ 62 }
    ensures { (n : ℕ) → contains nat_cmp waiting.new n ≡ true
        ↔ (contains nat_cmp waiting.old n ≡ true) × WaitsOn kept_sdus.now.items count base n }
{
    if waiting.is_empty() {
        return;
    }
    for index in 0..count {
        leave_idle(waiting, base + index as u64, &kept_sdus[index]);
    }
}

/// Has a number wait no more whose SDU has no pending byte.
pub(crate) fn leave_idle(waiting: &mut BTreeSet<u64>, number: u64, kept_sdu: &Option<KeptSdu>)
    ensures { (n : ℕ) → contains nat_cmp waiting.new n ≡ true
        ↔ (contains nat_cmp waiting.old n ≡ true) × (n ≡ number → IsPending kept_sdu.now) }
{
    if !waiting.is_empty() && !has_pending(kept_sdu) {
        waiting.remove(&number);
    }
}

// Whether an SDU has a pending byte.
fn has_pending(kept_sdu: &Option<KeptSdu>) -> bool
    ensures { MatchBool result (IsPending kept_sdu.now) (IsIdle kept_sdu.now) }
{
    match kept_sdu {
        Some(kept_sdu) => kept_sdu.has_pending(),
        None => false,
    }
}

/// Confirms those of the first `count` SDUs that aren't named, considers the others for retransmission, and forgets what
/// was named. Numbers that are confirmed wait no more, where `base` is the first SDU's.
pub(crate) fn settle_all(
    kept_sdus: &mut VecDeque<Option<KeptSdu>>,
    names: &mut VecDeque<Naming>,
    base: u64,
    count: usize,
    threshold: u8,
    waiting: &mut BTreeSet<u64>,
)
    requires kept_sdus { count ≤ length kept_sdus.old.items }
    requires names { count ≤ length names.old.items }
    requires small { base + count ≤ 2 ^ 62 }
    requires fits { AreNamingsOf kept_sdus.old.items names.old.items }
    requires waits { (i : ℕ) → i < count → contains nat_cmp waiting.old (base + i) ≡ true
        → MayWait (at kept_sdus.old.items i) (named_at names.old.items i) }
    ensures each { (i : ℕ) → i < count → at kept_sdus.new.items i
        ≡ settled threshold (named_at names.old.items i) (at kept_sdus.old.items i) }
    ensures rest { (i : ℕ) → count ≤ i → at kept_sdus.new.items i ≡ at kept_sdus.old.items i }
    ensures long { length kept_sdus.new.items ≡ length kept_sdus.old.items }
    ensures forgotten { (i : ℕ) → i < count → named_at names.new.items i ≡ not_named }
    ensures others { (i : ℕ) → count ≤ i → named_at names.new.items i ≡ named_at names.old.items i }
    ensures same { length names.new.items ≡ length names.old.items }
    ensures waiting { (n : ℕ) → contains nat_cmp waiting.new n ≡ true
        ↔ (contains nat_cmp waiting.old n ≡ true) × WaitsOn kept_sdus.new.items count base n }
{
    for index in 0..count {
        settle(
            &mut kept_sdus[index],
            &mut names[index],
            base + index as u64,
            threshold,
            waiting,
        );
    }
}

// The same of one SDU.
fn settle(
    kept_sdu: &mut Option<KeptSdu>,
    naming: &mut Naming,
    number: u64,
    threshold: u8,
    waiting: &mut BTreeSet<u64>,
)
    requires fits { IsNamingOf kept_sdu.old naming.old }
    requires waits { contains nat_cmp waiting.old number ≡ true
        → MayWait kept_sdu.old naming.old }
    ensures kept_sdu { kept_sdu.new ≡ settled threshold naming.old kept_sdu.old }
    ensures naming { naming.new ≡ not_named }
    ensures waiting { (n : ℕ) → contains nat_cmp waiting.new n ≡ true
        ↔ (contains nat_cmp waiting.old n ≡ true) × (n ≡ number → IsPending kept_sdu.new) }
{
    if kept_sdu.is_none() {
        naming.named = false;
        return;
    }
    let pending = naming.pending.take();
    if !naming.named {
        // Its number waits only where a byte of it is pending, so most are confirmed without a search.
        if has_pending(kept_sdu) {
            waiting.remove(&number);
        }
        *kept_sdu = None;
        return;
    }
    naming.named = false;
    if let Some(kept_sdu) = kept_sdu {
        kept_sdu.renew(pending, threshold);
    }
}

/// Takes the confirmed SDUs at the front away, and answers how many there were.
pub(crate) fn pop_confirmed(kept_sdus: &mut VecDeque<Option<KeptSdu>>) -> usize
    ensures kept { replicate result None ++ kept_sdus.new.items ≡ kept_sdus.old.items }
    ensures front { prefix_len is_none kept_sdus.new.items ≡ 0 }
{
    let mut count = 0;
    while is_confirmed(kept_sdus, 0) {
        kept_sdus.pop_front();
        count += 1;
    }
    count
}

fn is_confirmed(kept_sdus: &VecDeque<Option<KeptSdu>>, index: usize) -> bool
    ensures { MatchBool result
        ((index < length kept_sdus.now.items) × (at kept_sdus.now.items index ≡ None))
        ((index < length kept_sdus.now.items) → at kept_sdus.now.items index ≢ None) }
{
    index < kept_sdus.len() && kept_sdus[index].is_none()
}
