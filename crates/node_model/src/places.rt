// What is found by its name at a node, and what is set by it.
ghost use Rattle.node_model.specs.Names.{is_port, is_key, is_node};
ghost use Rattle.node_model.specs.Places.{TellsApart, SetsByName, side_name, outgoing_key, incoming_key, node_name};

/// A law: the tests of two names of ports, of two keys and of two names of nodes tell whether they are one.
pub fn names_are_told_apart()
    ensures ports { TellsApart is_port }
    ensures keys { TellsApart is_key }
    ensures nodes { TellsApart is_node }
{}

/// A law: a side of a port, an end of a key or a node that is set by its name is found by it from then on, where there is one of
/// that name; all others are found as before.
pub fn rows_are_set_by_name()
    ensures sides { SetsByName is_port side_name }
    ensures outgoing { SetsByName is_key outgoing_key }
    ensures incoming { SetsByName is_key incoming_key }
    ensures nodes { SetsByName is_node node_name }
{}
