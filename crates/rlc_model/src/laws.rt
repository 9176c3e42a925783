// Worked runs of the definitions.
ghost use Rattle.rlc_model.specs.Worked.{SendsSegments, HearsSegments, SendsAgain, AsksForMissing};

/// A worked run: an SDU is sent in three segments, and heard when they came last, first, middle.
pub fn segments_are_sent_and_heard()
    ensures sends { SendsSegments }
    ensures hears { HearsSegments }
{}

/// A worked run: of three SDUs the second is lost, asked for by a STATUS, sent again and confirmed.
pub fn a_lost_sdu_is_sent_again()
    ensures asks { AsksForMissing }
    ensures sends { SendsAgain }
{}
