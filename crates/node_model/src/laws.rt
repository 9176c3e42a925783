// What holds of the tables of a node.
ghost use Rattle.node_model.specs.Laws.{OrderedRows};
ghost use Rattle.node_model.specs.State.{PortSide, Outgoing, Incoming};

/// A law: of rows in strict order of their names each name has at most one, so to find it by name and to replace it
/// by name is to read and to write at its place; and the order stays where the name stays.
pub fn one_row_has_a_name()
    ensures sides { OrderedRows PortSide }
    ensures outgoing { OrderedRows Outgoing }
    ensures incoming { OrderedRows Incoming }
{}
