// What is found of a chain by names, and what is set by them.
ghost use Rattle.chain_model.specs.Places.{SetsNodes, SetsSenders, SetsReceivers};

/// A law: a node that is set is found by its name from then on, where the chain has one of that name, and all others are found as
/// before.
pub fn nodes_are_set_by_name()
    ensures { SetsNodes }
{}

/// A law: the sender or the receiving end of a key that is set is found from then on, where the chain has it. All senders and
/// receiving ends of other keys are as before, and so is the other end of the key.
pub fn ends_are_set_by_key()
    ensures senders { SetsSenders }
    ensures receivers { SetsReceivers }
{}
