//! A server of one link, which sleeps until something is ready.

use std::alloc::Global;
use std::io;
use std::net::Net as Sockets;
use std::time::Duration;
use sw_link::{Accept, Link, LinkRead, LinkWrite, Net};
use sw_mio::{MioLink, MioNet, Site};

/// So often it looks for something to do, at most.
const ROUNDS: u32 = 1000;

/// It sleeps so many milliseconds at a time.
const SLEEP: u64 = 20;

fn rest(site: &mut Site) -> io::Result<()> {
    site.sleep(Duration::from_millis(SLEEP))
}

/// The first link of a net.
fn first<R: Sockets + Copy + Drop>(
    site: &mut Site,
    net: &mut MioNet<R>,
) -> io::Result<Option<MioLink>> {
    for _ in 0..ROUNDS {
        match net.accept() {
            Accept::Got(link, _) => return Ok(Some(link)),
            Accept::NotYet => rest(site)?,
            _ => return Ok(None),
        }
    }
    Ok(None)
}

/// All that a link reads to its end, or what came before a fault.
fn read_all(alloc: Global, site: &mut Site, link: &mut MioLink) -> io::Result<Vec<u8>> {
    let mut all = Vec::new(alloc);
    let mut buf = [0u8; 4];
    for _ in 0..ROUNDS {
        match link.read(&mut buf) {
            LinkRead::Got(n) => all.extend_from_slice(&buf[..n])?,
            LinkRead::NotYet => rest(site)?,
            _ => break,
        }
    }
    Ok(all)
}

/// Writes all bytes, and answers how many went out.
fn write_all(site: &mut Site, link: &mut MioLink, bytes: &[u8]) -> io::Result<usize> {
    let mut at = 0;
    for _ in 0..ROUNDS {
        if at >= bytes.len() {
            break;
        }
        match link.write(&bytes[at..]) {
            LinkWrite::Took(n) => at += n,
            LinkWrite::NotYet => site.look()?,
            LinkWrite::Failed => break,
        }
    }
    Ok(at)
}

/// Accepts one link of a net that listens, reads it to its end and writes the bytes back; answers how many.
pub fn echo_one<R: Sockets + Copy + Drop>(
    rt: &R,
    alloc: Global,
    net: &mut MioNet<R>,
) -> io::Result<usize> {
    let mut site = Site::new(rt, alloc)?;
    site.adopt_net(net)?;
    let Some(mut link) = first(&mut site, net)? else {
        return Ok(0);
    };
    site.adopt(1, &mut link)?;
    let bytes = read_all(alloc, &mut site, &mut link)?;
    write_all(&mut site, &mut link, &bytes)
}
