// TCP connections. They tell nothing of their bytes.
ghost use Rattle.std.specs.Prelude.{◌≡◌, None};

use crate::Failed;
use crate::link::Link;
use crate::listener::Listener;
use std::io::{Read, Write};
use std::net::{Ipv4Addr, Net, OpenListener, OpenStream, TcpListener};

/// A TCP connection.
#[derive(Drop)]
pub struct TcpLink<S: Read + Write> {
    stream: S,
    receive_faults: u64,
    send_faults: u64,
}

impl<S: Read + Write> TcpLink<S> {
    pub fn new(stream: S) -> Self
        ensures receive_faults { result.receive_faults ≡ 0 }
        ensures send_faults { result.send_faults ≡ 0 }
    {
        TcpLink {
            stream,
            receive_faults: 0,
            send_faults: 0,
        }
    }
}

impl<S: Read + Write> Link for TcpLink<S> {
    ghost told = { λ _. None };

    ghost receive_faults = { λ l. l.receive_faults };

    ghost send_faults = { λ l. l.send_faults };

    fn receive(&mut self, piece: &mut [u8]) -> Result<usize, Failed> {
        match self.stream.read(piece) {
            Ok(count) => Ok(count),
            Err(_) => {
                self.receive_faults = self.receive_faults.saturating_add(1);
                Err(Failed)
            }
        }
    }

    /// To take no byte of a piece that isn't empty is a failure.
    fn send(&mut self, piece: &[u8]) -> Result<usize, Failed> {
        match self.stream.write(piece) {
            Ok(count) if count > 0 || piece.is_empty() => Ok(count),
            _ => {
                self.send_faults = self.send_faults.saturating_add(1);
                Err(Failed)
            }
        }
    }
}

/// Listens on 127.0.0.1.
#[derive(Drop)]
pub struct TcpDoor<'a, R: Net> {
    net: &'a R,
    listener: Option<R::Listener>,
    faults: u64,
}

impl<'a, R: Net> TcpDoor<'a, R> {
    pub fn new(net: &'a R) -> Self
        ensures { result.faults ≡ 0 }
    {
        TcpDoor {
            net,
            listener: None,
            faults: 0,
        }
    }
}

impl<'a, R: Net> Listener for TcpDoor<'a, R> {
    type Conn = TcpLink<R::Stream>;

    ghost told = { λ _. None };

    ghost faults = { λ d. d.faults };

    fn listen(&mut self, port: u16) -> Result<(), Failed> {
        match TcpListener::bind(self.net, (Ipv4Addr::new(127, 0, 0, 1), port)) {
            Ok(listener) => {
                self.listener = Some(listener);
                Ok(())
            }
            Err(_) => {
                self.faults = self.faults.saturating_add(1);
                Err(Failed)
            }
        }
    }

    /// Where it doesn't listen, that is a failure.
    fn accept(&mut self) -> Result<Option<TcpLink<R::Stream>>, Failed> {
        if let Some(listener) = &self.listener {
            if let Ok((stream, _)) = listener.accept() {
                // Small responses leave at once. Where the system refuses that, they only leave later.
                let _ = stream.set_nodelay(true);
                return Ok(Some(TcpLink::new(stream)));
            }
        }
        self.faults = self.faults.saturating_add(1);
        Err(Failed)
    }

    fn finish(&mut self, link: TcpLink<R::Stream>) {
        drop(link);
    }
}
