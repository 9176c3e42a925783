// Each step of the chain is determined.
ghost use Rattle.step_law.specs.OneStep.{OneStep, StepsAlike, WorkedChainsAreOrderly};

/// A law: from a chain a line brings about one list of events and one reply, and leaves one chain, as far as what is got of
/// each RLC number, place by place, and the variables tell. From two chains that nothing of these tells apart it brings about the
/// same, and leaves such chains. This is said of all lines but `burst`, whose definition leaves the order of the relay's ports
/// open, over map rows in order, sound receivers, and attachments that share neither a remote nor a local identity.
pub fn a_step_has_one_outcome()
    ensures one { OneStep }
    ensures alike { StepsAlike }
{
    node_law::hearing_has_one_outcome();
}

/// A law: the chains from which the worked runs of chain_model begin are such chains.
pub fn worked_chains_are_orderly()
    ensures { WorkedChainsAreOrderly }
{}
