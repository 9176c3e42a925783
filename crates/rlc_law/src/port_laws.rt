// The laws of what the two sides of a port do, and of many ports over one air.
ghost use Rattle.rlc_law.specs.Laws.{PassesFresh};
ghost use Rattle.rlc_law.specs.PortLaws.{MovesOn, GrantMoves, FreshWhenMade, HearMoves, GiveMoves, ExpireMoves, NothingFits, OneChanges, PortsKeep, EpochsKeep, SidesKeep, CallFits, SideHears};

/// A law: the air hands a PDU over exactly to a side that stands in its epoch and where it isn't stale, and a PDU that a
/// side has just made isn't stale at the other side.
pub fn air_passes_what_is_fresh()
    ensures passes { PassesFresh }
    ensures just_made { FreshWhenMade }
{}

/// A law: a grant at a side of a port changes nothing, or moves just the hop of the PDU that it sends, which that hop has
/// made: a data PDU is of the hop on which the side sends, a STATUS PDU of the other one.
pub fn grant_moves_one_hop()
    ensures { GrantMoves }
{}

/// A law: a PDU that a port has made and that the air hands over is heard as it was made, and moves just its hop. It is
/// never unreadable, outside, in conflict or beyond what was sent, and what a data PDU completes is the SDU given under its
/// number.
pub fn hearing_moves_one_hop()
    ensures { HearMoves }
{}

/// A law: an SDU that a side is given moves just the hop on which it sends, and a timer that runs out just the hop that has
/// it.
pub fn side_moves_one_hop()
    ensures gives { GiveMoves }
    ensures expires { ExpireMoves }
{}

/// A law: whatever happens to one hop of a port, both can be reached still, and what was made stays made.
pub fn port_goes_on()
    ensures { MovesOn }
{}

/// A law: of many ports one can change alone. All stay ports that can be reached, and each PDU on the air that bears a
/// port's name and epoch stays one that it has made: where a port moves, sends, opens in an epoch of which no PDU is on the
/// air, or closes, and where a PDU goes off the air.
pub fn ports_go_on_apart()
    ensures starts { NothingFits }
    ensures change { OneChanges }
    ensures keep { PortsKeep }
    ensures epochs { EpochsKeep }
{}

/// A law: the open sides, each in an epoch, stay sides of the ports of their names and epochs: where a call of one moves its
/// port, where a side opens in an epoch to which it hadn't come, before or behind the other side, and where one closes. So
/// what an open side hears from the air is what its port has made.
pub fn open_sides_are_those_of_ports()
    ensures keep { SidesKeep }
    ensures calls { CallFits }
    ensures hears { SideHears }
{}
