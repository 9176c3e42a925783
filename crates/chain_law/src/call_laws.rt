// The laws of what the calls of an entity keep.
ghost use Rattle.chain_law.specs.Calls.{HearingKeeps, GrantingKeeps, ExpiryKeeps};

/// A law: whatever an entity hears, is granted or has run out, each SDU that its transmitter keeps stays under its number and
/// with its tag, and the tags that a STATUS PDU has it tell are those of SDUs that it keeps no more; and its receiver completes
/// a number only where it answers so, and then one that was not complete (TS 38.322 clauses 5.2.3 and 5.3).
pub fn calls_keep_what_was_given()
    ensures hearing { HearingKeeps }
    ensures granting { GrantingKeeps }
    ensures expiry { ExpiryKeeps }
{}
