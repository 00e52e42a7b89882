//! The addresses that a server listens at, and what listens there.

use crate::stream::Stream;
use mio::net::{TcpListener, UnixListener, UnixStream};
use mio::{Interest, Registry, Token};
use std::io::ErrorKind;
use std::net::{Net, SocketAddr};
use std::os::unix::fs::FileTypeExt;
use std::rt::Files;
use std::{fmt, fs, io};

/// An address to listen at.
#[derive(Clone, Copy, Debug)]
pub enum Address<'a> {
    /// An address and a port. The port 0 is any free one.
    Tcp(SocketAddr),
    /// The path of a Unix socket.
    Unix(&'a str),
}

impl<'a> Address<'a> {
    /// Returns the address of a text: `unix:` and a path, or an address and a port as `127.0.0.1:7070`. Returns `None` if
    /// it is none.
    pub fn parse(text: &'a str) -> Option<Address<'a>> {
        if let Some(path) = text.strip_prefix("unix:") {
            if path.is_empty() {
                return None;
            }
            return Some(Address::Unix(path));
        }
        match text.parse() {
            Ok(address) => Some(Address::Tcp(address)),
            Err(_) => None,
        }
    }

    /// Returns whether only this machine reaches the address.
    pub fn is_local(&self) -> bool {
        match self {
            Address::Tcp(address) => address.ip().is_loopback(),
            Address::Unix(_) => true,
        }
    }
}

impl fmt::Display for Address<'_> {
    fn fmt<W: fmt::Write>(&self, f: &mut fmt::Formatter<W>) -> fmt::Result {
        match self {
            Address::Tcp(address) => write!(f, "{address}"),
            Address::Unix(path) => write!(f, "unix:{path}"),
        }
    }
}

/// What listens for connections.
#[derive(Drop)]
pub enum Listener {
    Tcp(TcpListener),
    Unix(UnixListener),
}

// Whether this is a socket, and no other file.
fn is_socket<R: Files>(rt: &R, path: &str) -> bool {
    match fs::symlink_metadata(rt, path) {
        Ok(found) => found.file_type().is_socket(),
        Err(_) => false,
    }
}

// Whether nobody listens at a socket. (A connection to a file that is no socket is refused too.)
fn is_left_over<R: Net + Files>(rt: &R, path: &str) -> bool {
    match UnixStream::connect(rt, path) {
        Err(error) => error.kind() == ErrorKind::ConnectionRefused && is_socket(rt, path),
        Ok(_) => false,
    }
}

// Listens at a Unix socket. A socket that is there is replaced, if nobody listens at it.
fn bind_unix<R: Net + Files>(rt: &R, path: &str) -> io::Result<UnixListener> {
    match UnixListener::bind(rt, path) {
        Err(error) if error.kind() == ErrorKind::AddrInUse && is_left_over(rt, path) => {
            fs::remove_file(rt, path)?;
            UnixListener::bind(rt, path)
        }
        bound => bound,
    }
}

impl Listener {
    /// Listens at an address. A Unix socket at which nobody listens any more is replaced.
    ///
    /// # Errors
    ///
    /// If the system refuses it, as when another process listens there.
    pub fn bind<R: Net + Files>(rt: &R, address: Address<'_>) -> io::Result<Listener> {
        match address {
            Address::Tcp(address) => Ok(Listener::Tcp(TcpListener::bind(rt, address)?)),
            Address::Unix(path) => Ok(Listener::Unix(bind_unix(rt, path)?)),
        }
    }

    /// Waits for connections by a poll, whose events have this token.
    pub fn register(&mut self, registry: &Registry, token: Token) -> io::Result<()> {
        match self {
            Listener::Tcp(listener) => registry.register(listener, token, Interest::READABLE),
            Listener::Unix(listener) => registry.register(listener, token, Interest::READABLE),
        }
    }

    /// Returns the next connection, and the address of its client if that has one, or `WouldBlock` if none waits.
    pub fn accept(&self) -> io::Result<(Stream, Option<SocketAddr>)> {
        match self {
            Listener::Tcp(listener) => {
                let (stream, peer) = listener.accept()?;
                // (a reply goes out in one write, and is not to wait for more)
                let _ = stream.set_nodelay(true);
                Ok((Stream::Tcp(stream), Some(peer)))
            }
            Listener::Unix(listener) => {
                let (stream, _) = listener.accept()?;
                Ok((Stream::Unix(stream), None))
            }
        }
    }

    /// Returns where it listens, if it was bound to this address: with its port, also if the system has chosen that.
    pub fn place<'a>(&self, address: Address<'a>) -> io::Result<Address<'a>> {
        match self {
            Listener::Tcp(listener) => Ok(Address::Tcp(listener.local_addr()?)),
            Listener::Unix(_) => Ok(address),
        }
    }
}

/// Removes the sockets of these addresses, at which the server doesn't listen any longer.
pub fn remove_sockets<R: Files>(rt: &R, addresses: &[Address<'_>]) {
    for address in addresses {
        if let Address::Unix(path) = address {
            if is_socket(rt, path) {
                let _ = fs::remove_file(rt, *path);
            }
        }
    }
}
