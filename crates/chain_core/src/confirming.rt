// Which confirmed number a PDU may raise that comes to a node.
ghost use Rattle.std.specs.Prelude.{◌≡◌};
ghost use Rattle.chain_core.specs.Confirming.{sent_over, key_sent, watch_of};

use crate::keys::{key_of, way_from};
use crate::nodes::Nodes;
use link_base::{Key, PortName, Side};
use node_model::NodeHeard;

/// A key whose confirmed number a line may raise.
#[derive(Clone, Copy, Debug, PartialEq, Eq)]
pub(crate) struct Watched {
    /// The key.
    pub(crate) key: Key,
    /// Its confirmed number before the line.
    pub(crate) before: u64,
}

/// The key that is sent over a direct port at this side of it, with its confirmed number.
pub(crate) fn sent_over(nodes: &Nodes, side: Side, port: PortName) -> Option<Watched>
    ensures { result ≡ sent_over nodes.now.nodes side port }
{
    let Some(key) = key_sent(side, port) else {
        return None;
    };
    Some(Watched {
        key,
        before: nodes.confirmed(key),
    })
}

/// The key that is sent over a direct port at this side of it.
fn key_sent(side: Side, port: PortName) -> Option<Key>
    ensures { result ≡ key_sent side port }
{
    match port {
        PortName::Direct(remote, drb) => Some(key_of(remote, drb, way_from(side))),
        PortName::Pc5(..) | PortName::Uu(_) => None,
    }
}

/// The key whose confirmed number a PDU may have raised that was answered so: the one that a status report was about, else
/// the one that is sent over the PDU's port, since RLC confirms SDUs of no other.
pub(crate) fn watch_of(heard: &NodeHeard, sent: Option<Watched>) -> Option<Watched>
    ensures { result ≡ watch_of heard.now sent }
{
    match heard {
        NodeHeard::Report { key, confirmed } => Some(Watched {
            key: *key,
            before: *confirmed,
        }),
        _ => sent,
    }
}
