//! Streams of packets of one size, cut from pieces of one size.
ghost use Rattle.std.specs.Prelude.{◌<◌};

use crate::one_by_one::search_one_by_one;
use std::alloc::Global;
use std::io;
use std::marker::Brand;
use std::sync::ledger::Blank;
use std::time::{Clock, Instant};
use sw_base::{Octets, OutOfMemory};
use sw_frame::{Cutter, Framing, Next};
use sw_frame_len::{LengthRule, Letter};

/// How many bytes one stream has, at least.
const STREAM: usize = 8_388_608;

/// How many rounds are made at pieces of more than one byte.
const ROUNDS: u32 = 8;

/// The sizes of packets and of pieces, in bytes.
static PACKETS: [u32; 4] = [16, 64, 1024, 65_536];

static PIECES: [usize; 3] = [1, 100, 8192];

/// What ends a packet or begins it.
#[derive(Clone, Copy)]
enum How {
    Mark,
    Field,
}

impl How {
    fn name(self) -> &'static str {
        match self {
            How::Mark => "mark",
            How::Field => "length",
        }
    }

    fn framing(self, alloc: Global) -> Result<Framing, OutOfMemory> {
        Ok(match self {
            How::Mark => Framing::Eof(Octets::of(Vec::from_slice(alloc, b"\r\n")?), 1_000_000),
            How::Field => Framing::Length(LengthRule {
                letter: Letter::BigN,
                length_offset: 0,
                body_offset: 0,
                max: 1_000_000,
            }),
        })
    }

    /// One packet of so many bytes.
    fn packet(self, alloc: Global, size: u32) -> Result<Vec<u8>, OutOfMemory> {
        let mut packet = Vec::new(alloc);
        let body = size.saturating_sub(match self {
            How::Mark => 2,
            How::Field => 4,
        });
        if let How::Field = self {
            packet.extend_from_slice(&size.to_be_bytes())?;
        }
        for _ in 0..body {
            packet.push(b'a')?;
        }
        if let How::Mark = self {
            packet.extend_from_slice(b"\r\n")?;
        }
        Ok(packet)
    }

    /// Packets of so many bytes, up to a stream.
    fn stream(self, alloc: Global, size: u32, most: usize) -> Result<Vec<u8>, OutOfMemory> {
        let packet = self.packet(alloc, size)?;
        let mut stream = Vec::new(alloc);
        for _ in 0..most {
            if stream.len() >= most {
                break;
            }
            stream.extend_from_slice(&packet)?;
        }
        Ok(stream)
    }
}

/// Feeds the bytes in pieces and takes all packets, and says how many there were and how many bytes they had.
fn cut(alloc: Global, how: How, bytes: &[u8], piece: usize) -> Result<(u64, u64), OutOfMemory>
    requires { 0 < piece }
{
    let framing = how.framing(alloc)?;
    if !framing.is_fit() {
        return Ok((0, 0));
    }
    let mut cutter = Cutter::new(alloc, framing);
    let (mut packets, mut total) = (0u64, 0u64);
    for piece in bytes.chunks(piece) {
        cutter.feed(piece)?;
        for _ in 0..u64::MAX {
            match cutter.next() {
                Next::Packet(packet) => {
                    packets = packets.saturating_add(1);
                    total = total.saturating_add(packet.len() as u64);
                }
                _ => break,
            }
        }
    }
    Ok((packets, total))
}

/// Counts the bytes `\n`, each found by a search of its own.
fn marks(bytes: &[u8]) -> u64 {
    let mut count = 0u64;
    let mut at = 0;
    while at < bytes.len() {
        match memchr::memchr(b'\n', &bytes[at..]) {
            Some(skipped) => {
                count = count.saturating_add(1);
                at += skipped + 1;
            }
            None => break,
        }
    }
    count
}

/// MB a second.
fn speed(bytes: u64, nanos: u128) -> u128 {
    u128::from(bytes)
        .saturating_mul(1000)
        .checked_div(nanos)
        .unwrap_or(0)
}

/// Small streams with a fixed answer, and a million bytes searched one by one.
pub fn fixed_load<R: Print>(rt: &R, alloc: Global) -> io::Result<()> {
    for how in [How::Mark, How::Field] {
        for piece in PIECES.iter() {
            let Ok(bytes) = how.stream(alloc, 1024, 65_536) else {
                return println!(rt; "no memory");
            };
            if *piece == 0 {
                continue;
            }
            let Ok((packets, total)) = cut(alloc, how, &bytes, *piece) else {
                return println!(rt; "no memory");
            };
            println!(rt;
                "{} in pieces of {piece}: {packets} packets, {total} bytes",
                how.name()
            )?;
        }
    }
    match search_one_by_one::<Brand>(alloc, 1_000_000, Blank::new(1)) {
        Ok(found) => println!(rt; "a million bytes one by one: found {found}"),
        Err(_) => println!(rt; "no memory"),
    }
}

/// MB a second of each size of packets by each framing from each size of pieces, beside a bare search of the same bytes.
pub fn figures<R: Print + Clock>(rt: &R, alloc: Global) -> io::Result<()> {
    for how in [How::Mark, How::Field] {
        for size in PACKETS.iter() {
            let Ok(bytes) = how.stream(alloc, *size, STREAM) else {
                return println!(rt; "no memory");
            };
            bare(rt, how, *size, &bytes)?;
            for piece in PIECES.iter() {
                figure(rt, alloc, how, *size, &bytes, *piece)?;
            }
        }
    }
    Ok(())
}

fn bare<R: Print + Clock>(rt: &R, how: How, size: u32, bytes: &[u8]) -> io::Result<()> {
    let start = Instant::now(rt)?;
    let mut count = 0u64;
    for _ in 0..ROUNDS {
        count = count.saturating_add(marks(bytes));
    }
    let nanos = start.elapsed(rt)?.as_nanos();
    let total = (bytes.len() as u64).saturating_mul(u64::from(ROUNDS));
    println!(rt;
        "{} {size}: bare {} MB/s ({count})",
        how.name(),
        speed(total, nanos)
    )
}

fn figure<R: Print + Clock>(
    rt: &R,
    alloc: Global,
    how: How,
    size: u32,
    bytes: &[u8],
    piece: usize,
) -> io::Result<()> {
    if piece == 0 {
        return Ok(());
    }
    let rounds = if piece == 1 { 1 } else { ROUNDS };
    let start = Instant::now(rt)?;
    let mut all = 0u64;
    for _ in 0..rounds {
        let Ok((_, total)) = cut(alloc, how, bytes, piece) else {
            return println!(rt; "no memory");
        };
        all = all.saturating_add(total);
    }
    let nanos = start.elapsed(rt)?.as_nanos();
    println!(rt;
        "{} {size}: pieces of {piece} {} MB/s",
        how.name(),
        speed(all, nanos)
    )
}
