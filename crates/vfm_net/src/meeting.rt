//! Where the two ends meet: a socket that listens on the loopback address while links are made.

ghost use Rattle.std.specs.Prelude.{IfSome};
ghost use Rattle.vfm_outside.specs.Links.{IsNew};
ghost use Rattle.vfm_net.specs.TcpEnds.{tcp_told};

use crate::TcpLink;
use std::net::{IpAddr, Ipv4Addr, Net, OpenListener, OpenStream, SocketAddr};
use std::time::Duration;

// How many connections that others have made are turned away for one of ours.
const STRANGERS: u32 = 1_000;

/// A socket that listens on the loopback address, on a port that the system picked. It is closed where this is let go.
#[derive(Drop)]
pub struct Meeting<'n, R: Net> {
    net: &'n R,
    listener: R::Listener,
    address: SocketAddr,
    patience: Duration,
}

impl<'n, R: Net> Meeting<'n, R> {
    /// Begins to listen. A call of a stream that is made here waits `patience` at most. Nothing where the system fails.
    pub fn open(net: &'n R, patience: Duration) -> Option<Meeting<'n, R>> {
        let any_port = SocketAddr::new(IpAddr::V4(Ipv4Addr::LOCALHOST), 0);
        let listener = net.bind(any_port).ok()?;
        let address = listener.local_addr().ok()?;
        Some(Meeting {
            net,
            listener,
            address,
            patience,
        })
    }

    /// Two new links, each of which receives what the other sends. Nothing where the system fails.
    ///
    /// The one connects and the other is accepted. What is accepted is ours only where it comes from the address that
    /// the connecting stream has, which the system gives to no other stream meanwhile; any other is closed.
    pub fn pair(&self) -> Option<(TcpLink<R::Stream>, TcpLink<R::Stream>)>
        ensures new { IfSome result (λ pair. IsNew (tcp_told pair.0) × IsNew (tcp_told pair.1)) }
    {
        let near = self.net.connect_timeout(self.address, self.patience).ok()?;
        let own = near.local_addr().ok()?;
        let far = accept_from(&self.listener, own)?;
        prepare(&near, self.patience)?;
        prepare(&far, self.patience)?;
        Some((TcpLink::of(near), TcpLink::of(far)))
    }
}

// Accepts the connection that comes from this address, and closes those of strangers before it.
fn accept_from<L: OpenListener>(listener: &L, own: SocketAddr) -> Option<L::Stream> {
    for _ in 0..STRANGERS {
        if let Ok((stream, peer)) = listener.accept() {
            if peer == own {
                return Some(stream);
            }
        }
    }
    None
}

// Small pieces go at once, and no call waits longer than `patience`.
fn prepare<S: OpenStream>(stream: &S, patience: Duration) -> Option<()> {
    stream.set_nodelay(true).ok()?;
    stream.set_read_timeout(Some(patience)).ok()?;
    stream.set_write_timeout(Some(patience)).ok()
}
