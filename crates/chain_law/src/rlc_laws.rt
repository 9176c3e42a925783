// The laws of a chain's RLC entities.
ghost use Rattle.chain_law.specs.Laws.{EntitiesAreThoseOfPorts, NumbersStayWithinTickets, HearsWhatWasGiven, ParcelsAreSdus, KeptAreBodies, OneSideChanges};

use crate::foundations::laws_of_ports;

/// A law: of each chain that comes up in a run there is a port for each name and epoch that was opened, and it can be reached;
/// each open entity is its side, each PDU on the air is one that it has made, and a side opens only in an epoch to which it had
/// not come. It holds with every line, behind each line of a drain, and before the nodes feed.
pub fn entities_are_those_of_ports()
    ensures { EntitiesAreThoseOfPorts }
{
    laws_of_ports();
}

/// A law: TX_Next of each transmitter and RX_Next of each receiver lie at most a window above the number of tickets made, which
/// is at most 2^61.
pub fn numbers_stay_within_tickets()
    ensures { NumbersStayWithinTickets }
{
    laws_of_ports();
}

/// A law: what an open side hears from the air is what its port has made. No PDU is unreadable, outside the window or in
/// conflict with what is held, none speaks of what was not sent, and what is completed is the SDU given under its number, which
/// has 1 to 9,005 bytes.
pub fn what_is_heard_was_given()
    ensures { HearsWhatWasGiven }
{
    laws_of_ports();
}

/// A law: each SDU in a slot or a queue has 1 to 9,005 bytes, so that RLC can take it, and each that a PDCP sender keeps 1 to
/// 9,000.
pub fn sdus_can_be_taken()
    ensures parcels { ParcelsAreSdus }
    ensures kept { KeptAreBodies }
{
    laws_of_ports();
}

/// A law: what is set at one side of a port leaves the sides of all other ports, and of all other nodes, as they are.
pub fn a_side_changes_alone()
    ensures { OneSideChanges }
{}
