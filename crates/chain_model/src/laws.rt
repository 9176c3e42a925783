// Worked runs of the definitions.
ghost use Rattle.chain_model.specs.Worked.{GoesOverRelay, GoesDirect, SwitchesPath};

/// A worked run on the relay path. An SDU goes from the remote over its PC5 hop, through the slot and the queue of the relay,
/// and over the Uu hop to the gNB, which hands it up; a PDCP status report goes back the same way and confirms it.
pub fn an_sdu_goes_over_the_relay()
    ensures { GoesOverRelay }
{}

/// A worked run on the direct path. An SDU is handed up, and the STATUS PDU that its poll asked for confirms it. Of two more
/// the first is lost: once t-Reassembly has run out a STATUS PDU names it, it is sent again, and both are handed up.
pub fn an_sdu_goes_direct()
    ensures { GoesDirect }
{}

/// A worked run of a path switch. A remote goes from the relay path to its direct path while an SDU of it is in the relay's
/// slot: the relay drops the SDU, and once the gNB has reported that it has heard nothing the remote gives it again.
pub fn a_path_is_switched()
    ensures { SwitchesPath }
{}
