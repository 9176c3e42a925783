// The laws of boxes.
ghost use Rattle.item_place.specs.Laws.{ItemsMove, ItemsEnter, ItemsLeave, ItemsLeaveStations, HopsComplete};

/// A law: an item that goes on to another station stands there alone, a new one stands at the end of its first hop, and one that
/// arrives or is lost stands nowhere, nor do all those of stations that are purged; all others stay where they stand.
pub fn items_go_from_station_to_station()
    ensures moves { ItemsMove }
    ensures enters { ItemsEnter }
    ensures leaves { ItemsLeave }
    ensures purged { ItemsLeaveStations }
{}

/// A law: what completes at the receiver of a hop has the octets of the item at that position of the hop's box, which has left
/// then (TS 38.322 clause 5.2.3.2.3).
pub fn numbers_leave_as_they_complete()
    ensures { HopsComplete }
{}
