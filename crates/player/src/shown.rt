// The fields of one PDU.
ghost use Rattle.std.specs.Prelude.{◌≡◌, ◌≢◌, ◌⊎◌, false};
ghost use Rattle.link_io.specs.Causes.{IsCounted, IsUsed};
ghost use Rattle.link_io.specs.Bytes.{IsAsTold};
ghost use Rattle.player.specs.Outcome.{show_status, IsShown, IsShownInPart};

use link_io::{Sink, WriteFault, write_all};
use pdu_text::{Form, push_shown};
use std::alloc::Global;

/// Writes the fields of the PDU of a form that has these bytes: status 0; or why they are none: status 7.
pub fn show<K: Sink>(alloc: Global, form: Form, bytes: &[u8], out: &mut K) -> u8
    ensures shown { result ≢ 4 → result ≢ 5 →
        IsShown form bytes.now result (K.written out.old) (K.written out.new) }
    ensures cut_off { (result ≡ 4) ⊎ (result ≡ 5) →
        IsShownInPart form bytes.now (K.written out.old) (K.written out.new) }
    ensures sink_told { IsCounted (result ≡ 4) (K.faults out.old) (K.faults out.new) }
    ensures told { IsAsTold (K.written out.old) (K.written out.new) }
    ensures used { IsUsed K.faults K.can_fail out.old out.new }
    ensures sure_sink { K.can_fail out.old ≡ false → result ≢ 4 }
    ensures few { (result ≢ 2) × (result ≢ 3) }
{
    let mut text = String::new(alloc);
    match push_shown(alloc, &mut text, form, bytes) {
        Ok(read) => match write_all(out, text.as_bytes()) {
            Ok(()) => status_of(read),
            Err(WriteFault::Failed) => 4,
            Err(WriteFault::Memory) => 5,
        },
        Err(_) => 5,
    }
}

/// The status of bytes that are a PDU of the form, or aren't.
fn status_of(read: bool) -> u8
    ensures { result ≡ show_status read }
{
    if read { 0 } else { 7 }
}
