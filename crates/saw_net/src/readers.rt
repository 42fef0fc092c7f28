//! Connections from readers, on this machine alone.

ghost use Rattle.std.specs.Prelude.{◌≡◌, length, All, IfOk};
ghost use Rattle.saw_live.specs.declared.reader.ReaderEnd.TheVariants.{Open};

use crate::ends::{ends_of, listen};
use saw_io::{StdSink, StdSource};
use saw_live::{Reader, ReaderEnd};
use std::alloc::Global;
use std::io;
use std::net::{Net, TcpListener, TcpStream};

/// One who asks over a connection.
pub type Asker = Reader<StdSource<TcpStream>, StdSink<TcpStream>>;

/// One who has asked nothing yet. Each answer is sent at once.
fn reader_over(stream: TcpStream) -> io::Result<Asker>
    ensures { IfOk result (λ reader. reader.end ≡ Open) }
{
    let (source, sink) = ends_of(stream)?;
    let end = ReaderEnd::Open;
    Ok(Reader { source, sink, end })
}

/// Accepts so many connections on a port of 127.0.0.1, one after another.
pub fn accept_readers<R: Net<Listener = TcpListener, Stream = TcpStream>>(
    rt: &R,
    alloc: Global,
    port: u16,
    count: u32,
) -> io::Result<Vec<Asker>>
    ensures count { IfOk result (λ readers. length readers.items ≡ count) }
    ensures open { IfOk result (λ readers. All (λ reader. reader.end ≡ Open) readers.items) }
{
    let listener = listen(rt, port)?;
    let mut readers = Vec::new(alloc);
    for _ in 0..count {
        let (stream, _) = listener.accept()?;
        readers.push(reader_over(stream)?)?;
    }
    Ok(readers)
}
