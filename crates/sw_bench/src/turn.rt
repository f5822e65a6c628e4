//! Processor time of a reactor's turns: a serve with nothing to do, a packet that is cut and pushed, and a Send that is settled, with
//! few connections and with as many as there may be.

use crate::figures::{NO_MEMORY, print_each, since};
use crate::turn_scene::{Driver, SLOTS};
use std::alloc::Global;
use std::io;
use std::time::CpuClock;
use sw_base::{Octets, OutOfMemory};
use sw_frame::{FitFraming, Framing};

/// How many serves are measured.
const SERVES: u64 = 1_000_000;

/// How many packets are measured.
const PACKETS: u64 = 500_000;

/// How many Sends are measured.
const SENDS: u64 = 500_000;

/// A piece that is one packet of 64 bytes.
const PACKET: &[u8] = b"..............................................................\r\n";

/// How packets end: at a mark of two bytes.
fn framing(alloc: Global) -> Result<Framing, OutOfMemory> {
    Ok(Framing::Eof(Octets::of(Vec::from_slice(alloc, b"\r\n")?), 1_000))
}

/// A reactor with so many connections, whose links give this piece at each read.
fn filled(alloc: Global, conns: u32, piece: &[u8]) -> Result<Driver, OutOfMemory> {
    let framing = framing(alloc)?;
    if !framing.is_fit() {
        return Err(OutOfMemory);
    }
    let mut driver = Driver::make(alloc, FitFraming::of(framing))?;
    driver.fill(alloc, conns, piece)?;
    Ok(driver)
}

/// A take, and a serve with nothing to do.
fn serve_figure<R: Print + CpuClock>(rt: &R, alloc: Global, conns: u32) -> io::Result<()> {
    let Ok(mut driver) = filled(alloc, conns, b"") else {
        return println!(rt; "{NO_MEMORY}");
    };
    let start = rt.thread_cpu_time()?;
    driver.serves(alloc, SERVES);
    print_each(rt, "serve with nothing to do", since(rt, start)?, SERVES)
}

/// A packet that is read, cut and pushed: two takes and two serves.
fn packet_figure<R: Print + CpuClock>(rt: &R, alloc: Global, conns: u32) -> io::Result<()> {
    let Ok(mut driver) = filled(alloc, conns, PACKET) else {
        return println!(rt; "{NO_MEMORY}");
    };
    let start = rt.thread_cpu_time()?;
    driver.serves(alloc, 2 * PACKETS);
    print_each(rt, "packet cut and pushed", since(rt, start)?, PACKETS)
}

/// A Send of one byte that is made and settled.
fn send_figure<R: Print + CpuClock>(rt: &R, alloc: Global, conns: u32) -> io::Result<()> {
    let Ok(mut driver) = filled(alloc, conns, b"") else {
        return println!(rt; "{NO_MEMORY}");
    };
    let start = rt.thread_cpu_time()?;
    if driver.sends(alloc, conns, SENDS).is_err() {
        return println!(rt; "{NO_MEMORY}");
    }
    print_each(rt, "Send made and settled", since(rt, start)?, SENDS)
}

/// Nanoseconds of each with 1, 64 and 4,096 connections.
pub fn figures<R: Print + CpuClock>(rt: &R, alloc: Global) -> io::Result<()> {
    for conns in [1, 64, SLOTS] {
        println!(rt; "{conns} connections")?;
        serve_figure(rt, alloc, conns)?;
        packet_figure(rt, alloc, conns)?;
        send_figure(rt, alloc, conns)?;
    }
    Ok(())
}
