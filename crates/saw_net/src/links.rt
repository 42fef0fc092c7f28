//! Connections to and from external processors, on this machine alone.

ghost use Rattle.std.specs.Prelude.{◌≡◌, false, length, All, IfOk};

use crate::ends::{at_port, ends_of, listen};
use saw_io::{StdSink, StdSource};
use saw_link::{RemoteStation, StreamLink};
use saw_station::Station;
use std::alloc::Global;
use std::io;
use std::net::{Net, TcpListener, TcpStream};

/// The two ends of a connection.
pub type Connection = StreamLink<StdSource<TcpStream>, StdSink<TcpStream>>;

/// A link over a connection. Each frame is sent at once.
fn link_over(stream: TcpStream) -> io::Result<Connection> {
    let (source, sink) = ends_of(stream)?;
    Ok(StreamLink::new(source, sink))
}

/// Accepts so many connections on a port of 127.0.0.1, one after another.
pub fn accept_links<R: Net<Listener = TcpListener, Stream = TcpStream>>(
    rt: &R,
    alloc: Global,
    port: u16,
    count: u32,
) -> io::Result<Vec<RemoteStation<Connection>>>
    ensures count { IfOk result (λ remotes. length remotes.items ≡ count) }
    ensures unbegun { IfOk result (λ remotes. All
        (λ remote. ⟦<RemoteStation<Connection> as Station>⟧.begun remote ≡ false) remotes.items) }
{
    let listener = listen(rt, port)?;
    let mut remotes = Vec::new(alloc);
    for _ in 0..count {
        let (stream, _) = listener.accept()?;
        remotes.push(RemoteStation::new(alloc, link_over(stream)?))?;
    }
    Ok(remotes)
}

/// Connects to a port of 127.0.0.1.
pub fn connect_link<R: Net<Stream = TcpStream>>(rt: &R, port: u16) -> io::Result<Connection> {
    let stream = TcpStream::connect(rt, at_port(port))?;
    link_over(stream)
}
