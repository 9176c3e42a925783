// What the calls of plans answer.
use link_base::{Goal, Place};
use thiserror::Error;

/// Why a plan isn't opened. Of several causes the one named first here is answered.
#[derive(Clone, Copy, Debug, PartialEq, Eq, Error)]
pub enum PlanFault {
    /// The tables have no such remote.
    #[error("there is no such remote")]
    NoRemote,
    /// A node hasn't applied the last plan of the remote yet.
    #[error("a plan of the remote is open")]
    PlanOpen,
    /// The plan asks for the relay, and a bearer of the remote has no map row.
    #[error("a bearer of the remote has no channels over the relay")]
    NoTable,
    /// The plan asks for a local identity that is still in use at this place.
    #[error("the local identity is still in use")]
    IdBusy(Place),
}

/// Why a node can't apply the plan of a remote. Of several causes the one named first here is answered.
#[derive(Clone, Copy, Debug, PartialEq, Eq, Error)]
pub enum ApplyFault {
    /// There is no such remote.
    #[error("there is no such remote")]
    NoRemote,
    /// All nodes have applied the last plan of the remote.
    #[error("no plan of the remote is open")]
    NoPlan,
    /// The node has applied it.
    #[error("the node has applied the plan already")]
    Already,
}

/// What a node is to apply.
#[derive(Clone, Copy, Debug, PartialEq, Eq)]
pub struct Applied {
    /// The path that the plan asks for.
    pub goal: Goal,
    /// The epoch of the remote at this node from now on.
    pub epoch: u32,
    /// Whether it is the third node to apply the plan, which is closed now.
    pub last: bool,
}
