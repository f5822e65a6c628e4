//! A peer that asks over loopback.

use std::alloc::Global;
use std::io::{self, Read, Write};
use std::net::{IpAddr, Ipv4Addr, Net as Sockets, Shutdown, SocketAddr, TcpStream};

/// Connects, writes these bytes, shuts the writing side, and reads to the end.
pub fn ask<R: Sockets<Stream = TcpStream>>(
    rt: &R,
    alloc: Global,
    port: u16,
    bytes: &[u8],
) -> io::Result<Vec<u8>> {
    let addr = SocketAddr::new(IpAddr::V4(Ipv4Addr::LOCALHOST), port);
    let mut stream = TcpStream::connect(rt, addr)?;
    stream.write_all(bytes)?;
    stream.shutdown(Shutdown::Write)?;
    let mut answer = Vec::new(alloc);
    stream.read_to_end(&mut answer)?;
    Ok(answer)
}
