// Which bearers of an end are to be fed.
ghost use Rattle.std.specs.Prelude.{◌≡◌, false};
ghost use Rattle.link_base.specs.declared.names.Key.{Key};
ghost use Rattle.bearer_map.specs.Contents.{Contents};
ghost use Rattle.node_end.specs.Fed.{is_to_feed};
ghost use Rattle.node_end.specs.Ports.{is_over};

use link_base::PortName;

/// The bearers of which an end may have something to give.
#[derive(Clone, Copy, Debug)]
pub(crate) enum ToFeed {
    Nothing,
    /// Those that go over a port: the one of a direct port, or all that are mapped to a channel.
    Port(PortName),
    Everything,
}

impl ToFeed {
    /// These bearers and those over a port.
    pub(crate) fn with_port(self, port: PortName) -> ToFeed
        ensures { (t : Contents) (key : Key) → is_to_feed t result key ≡ false
            → (is_to_feed t self key ≡ false) × (is_over t port key ≡ false) }
    {
        match self {
            ToFeed::Nothing => ToFeed::Port(port),
            ToFeed::Port(other) if other == port => self,
            ToFeed::Port(_) | ToFeed::Everything => ToFeed::Everything,
        }
    }
}
