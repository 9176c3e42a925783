// The laws of other crates on which those of the chain stand.
ghost use Rattle.chain_law.specs.Foundations.{RlcLaws};

use rlc_law::{
    grant_moves_one_hop, numbers_are_bounded, open_sides_are_those_of_ports, ports_go_on_apart,
    sdus_are_kept_as_given, side_moves_one_hop,
};

/// What rlc_law proves of hops and ports.
pub fn laws_of_ports()
    ensures { RlcLaws }
{
    grant_moves_one_hop();
    side_moves_one_hop();
    ports_go_on_apart();
    open_sides_are_those_of_ports();
    sdus_are_kept_as_given();
    numbers_are_bounded();
}
