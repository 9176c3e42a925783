// What a STATUS PDU that is heard names of the SDUs from TX_Next_Ack on.
ghost use Rattle.std.specs.Prelude.{◌≡◌, ◌+◌, ◌<◌, ◌≤◌, ◌^◌, ℕ, true, length, OnOk, OnErr};
ghost use Rattle.rlc_status.specs.Format.{AllFit};
ghost use Rattle.rlc_status.specs.Says.{Some_has, count, NamesPlace};
ghost use Rattle.rlc_am_tx.specs.Elements.{HasPlace, HoldsNumber, HoldsPlace, PassesAck};
ghost use Rattle.rlc_am_tx.specs.Naming.{not_named, named_at, IsNamingOf, NamesMore, CanName, AreNamingsOf, ByElement, ByElements, CanNameOne, AreForgotten};

use crate::elements::{Places, count_of, greatest, places_of};
use crate::kept_sdu::KeptSdu;
use byte_spans::Spans;
use link_base::{Memory, SnSize};
use rlc_status::Nack;
use std::collections::VecDeque;

/// What a STATUS PDU that is heard names of an SDU.
#[derive(Debug, Drop)]
pub(crate) struct Naming {
    /// Whether it names the SDU.
    pub(crate) named: bool,
    /// The pending bytes of the SDU and those named, where one of these wasn't pending.
    pub(crate) pending: Option<Spans>,
}

impl Naming {
    /// The SDU isn't named.
    pub(crate) fn none() -> Self
        ensures { result ≡ not_named }
    {
        Naming {
            named: false,
            pending: None,
        }
    }
}

/// Has the elements name the SDUs from `base` on. An `Err` comes only where a byte named isn't pending.
pub(crate) fn name_all(
    kept_sdus: &VecDeque<Option<KeptSdu>>,
    names: &mut VecDeque<Naming>,
    base: u64,
    size: SnSize,
    ack: u64,
    nacks: &[Nack],
) -> Result<(), Memory>
    requires fits { AllFit size nacks.now }
    requires small { ack ≤ 2 ^ 62 }
    requires base { base ≤ ack }
    requires below { Some_has (PassesAck size ack) nacks.now → ⊥ }
    requires kept_sdus { ack ≤ base + length kept_sdus.now.items }
    requires names { ack ≤ base + length names.old.items }
    requires forgotten { AreForgotten names.old.items }
    ensures ok { OnOk result
        (ByElements kept_sdus.now.items base size ack nacks.now names.old.items names.new.items) }
    ensures long { length names.new.items ≡ length names.old.items }
    ensures rest { (i : ℕ) → ack ≤ base + i → named_at names.new.items i ≡ not_named }
    ensures err { OnErr result
        (CanNameOne kept_sdus.now.items
        (λ i p. Some_has (λ e. NamesPlace size ack e (base + i) p) nacks.now) names.old.items) }
{
    for nack in nacks {
        let Some(first) = greatest(nack.sn, ack, size) else {
            continue;
        };
        name_numbers(kept_sdus, names, base, first, nack)?;
    }
    Ok(())
}

// Has an element whose first number is `first` name the SDUs from `base` on.
fn name_numbers(
    kept_sdus: &VecDeque<Option<KeptSdu>>,
    names: &mut VecDeque<Naming>,
    base: u64,
    first: u64,
    nack: &Nack,
) -> Result<(), Memory>
    requires small { first + count nack.now ≤ 2 ^ 62 }
    requires kept_sdus { first + count nack.now ≤ base + length kept_sdus.now.items }
    requires names { first + count nack.now ≤ base + length names.old.items }
    requires fits { AreNamingsOf kept_sdus.now.items names.old.items }
    ensures ok { OnOk result
        (ByElement kept_sdus.now.items base first nack.now names.old.items names.new.items) }
    ensures long { length names.new.items ≡ length names.old.items }
    ensures rest { (i : ℕ) → first + count nack.now ≤ base + i → named_at names.new.items i
        ≡ named_at names.old.items i }
    ensures err { OnErr result
        (CanNameOne kept_sdus.now.items
        (λ i p. HoldsNumber nack.now first (base + i)
        × HoldsPlace nack.now first (base + i) p) names.old.items) }
{
    for number in first.max(base)..first + count_of(nack) {
        let index = (number - base) as usize;
        let places = places_of(nack, first, number);
        name(&kept_sdus[index], &mut names[index], &places)?;
    }
    Ok(())
}

// Has an element name these places of an SDU, where it isn't confirmed.
fn name(kept_sdu: &Option<KeptSdu>, naming: &mut Naming, places: &Places) -> Result<(), Memory>
    requires { IsNamingOf kept_sdu.now naming.old }
    ensures fine { OnOk result (IsNamingOf kept_sdu.now naming.new) }
    ensures names { OnOk result
        (NamesMore kept_sdu.now (HasPlace places.now) naming.old naming.new) }
    ensures named { naming.new.named ≡ true }
    ensures err { OnErr result (CanName kept_sdu.now (HasPlace places.now) naming.old) }
{
    naming.named = true;
    match kept_sdu {
        Some(kept_sdu) => kept_sdu.name(naming, places),
        None => Ok(()),
    }
}

/// Forgets what was named of the first `count` SDUs.
pub(crate) fn forget_all(names: &mut VecDeque<Naming>, count: usize)
    requires { count ≤ length names.old.items }
    ensures first { (i : ℕ) → i < count → named_at names.new.items i ≡ not_named }
    ensures rest { (i : ℕ) → count ≤ i → named_at names.new.items i ≡ named_at names.old.items i }
    ensures long { length names.new.items ≡ length names.old.items }
{
    for index in 0..count {
        names[index] = Naming::none();
    }
}

/// Takes memory for what may be named of one SDU more, where there isn't any for so many.
pub(crate) fn make_room(names: &mut VecDeque<Naming>, count: usize) -> Result<(), Memory>
    requires count { count ≤ length names.old.items + 1 }
    requires forgotten { AreForgotten names.old.items }
    ensures forgotten { AreForgotten names.new.items }
    ensures kept { length names.old.items ≤ length names.new.items }
    ensures ok { OnOk result (count ≤ length names.new.items) }
{
    if names.len() < count {
        names.push_back(Naming::none())?;
    }
    Ok(())
}
