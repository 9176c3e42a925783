// The laws of the refinement.
ghost use Rattle.item_chain.specs.Laws.{LinesGoByItemSteps, OpenedChainsStand};

use crate::foundations::laws_of_pdus;

/// A law: where a ghost stands for a chain, what a line before the ends feed does is what steps of its items do, and the ghost
/// that they leave stands for the chain behind the line: each line but a burst, path switches among them (TS 38.300 clause
/// 16.12.6).
pub fn lines_go_by_item_steps()
    ensures { LinesGoByItemSteps }
{
    laws_of_pdus();
}

/// A law: where each bearer of the tables has a good identity, first COUNTs below the end and at most one row of channels, which
/// are declared, and no two remotes begin with one identity, a ghost without items stands for the chain that the tables open.
pub fn opened_chains_stand()
    ensures { OpenedChainsStand }
{}
