//! Streams of this machine: where they come from, and their two ends.

use saw_io::{StdSink, StdSource};
use std::io;
use std::net::{Ipv4Addr, Net, SocketAddr, TcpListener, TcpStream};

/// A port of 127.0.0.1.
pub(crate) fn at_port(port: u16) -> SocketAddr {
    SocketAddr::from((Ipv4Addr::LOCALHOST, port))
}

/// Listens on a port of 127.0.0.1.
pub(crate) fn listen<R: Net<Listener = TcpListener, Stream = TcpStream>>(
    rt: &R,
    port: u16,
) -> io::Result<TcpListener> {
    TcpListener::bind(rt, at_port(port))
}

/// The reader and the writer of a stream. What is written is sent at once.
pub(crate) fn ends_of(stream: TcpStream) -> io::Result<(StdSource<TcpStream>, StdSink<TcpStream>)> {
    stream.set_nodelay(true)?;
    let reader = stream.try_clone()?;
    Ok((StdSource::new(reader), StdSink::new(stream)))
}
