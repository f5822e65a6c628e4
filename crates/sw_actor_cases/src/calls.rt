//! Tables of calls of the forms in memory: of a link, of a net, and of the ends that keep.

use std::alloc::Global;
use sw_base::OutOfMemory;
use sw_case_lines::add_step;
use sw_case_texts::{Case, octets, small, text_of};
use sw_data::{Cause, Ended};
use sw_link::{Accept, Ends, Keeper, Link, LinkRead, LinkWrite, MemoryLink, MemoryNet, Net};
use sw_text::{ip, number, number_within, put_bytes};

/// A read into a buffer of so many bytes.
fn put_read(
    alloc: Global,
    out: &mut String,
    link: &mut MemoryLink,
    text: &str,
) -> Result<(), OutOfMemory> {
    let room = number_within(text.as_bytes(), 1, 65_536)
        .unwrap_or(1)
        .max(1);
    let mut buf = vec![in alloc; 0u8; room as usize]?;
    write!(out, "read {room} -> ")?;
    match link.read(&mut buf) {
        LinkRead::Got(n) => put_bytes(out, &buf[..n.min(buf.len())])?,
        LinkRead::NotYet => out.push_str("notyet")?,
        LinkRead::End => out.push_str("end")?,
        LinkRead::Failed => out.push_str("failed")?,
    }
    Ok(out.push_str("\n")?)
}

/// A write of these bytes.
fn put_write(
    alloc: Global,
    out: &mut String,
    link: &mut MemoryLink,
    text: &str,
) -> Result<(), OutOfMemory> {
    let Some(piece) = octets(alloc, text.as_bytes())? else {
        return Ok(writeln!(out, "no bytes: {text}")?);
    };
    write!(out, "write {text} -> ")?;
    match link.write(piece.bytes()) {
        LinkWrite::Took(n) => writeln!(out, "took {n}")?,
        LinkWrite::NotYet => writeln!(out, "notyet")?,
        LinkWrite::Failed => writeln!(out, "failed")?,
    }
    Ok(())
}

/// What the link shows: the pieces that were read, and the bytes that were written.
fn put_told(out: &mut String, link: &MemoryLink) -> Result<(), OutOfMemory> {
    out.push_str("read")?;
    for piece in link.pieces().as_slice() {
        out.push_str(" ")?;
        put_bytes(out, piece.bytes())?;
    }
    out.push_str(" written ")?;
    put_bytes(out, link.written().bytes())?;
    Ok(out.push_str("\n")?)
}

/// Plays the case: `link`, with steps of its script and calls.
pub fn put_link(alloc: Global, out: &mut String, case: &Case) -> Result<(), OutOfMemory> {
    let mut link = MemoryLink::new(alloc);
    for line in &case.lines {
        let (word, rest) = line.split_once(" ").unwrap_or((*line, ""));
        match word {
            "read" => put_read(alloc, out, &mut link, rest)?,
            "write" => put_write(alloc, out, &mut link, rest)?,
            "show" => put_told(out, &link)?,
            "link" => {
                if !add_step(alloc, &mut link, rest)? {
                    writeln!(out, "no step: {rest}")?;
                }
            }
            _ => writeln!(out, "no line: {line}")?,
        }
    }
    Ok(())
}

/// An accept, and the address of a link that comes.
fn put_accept(out: &mut String, net: &mut MemoryNet) -> Result<(), OutOfMemory> {
    out.push_str("accept -> ")?;
    match net.accept() {
        Accept::Got(_, address) => writeln!(out, "{address}")?,
        Accept::NotYet => writeln!(out, "notyet")?,
        Accept::End => writeln!(out, "end")?,
        Accept::Failed => writeln!(out, "failed")?,
    }
    Ok(())
}

/// Plays the case: `net`, with an end from the start where it has the word `ends`, with the number of the accept that
/// fails, and lines of what arrives and of accepts.
pub fn put_net(
    alloc: Global,
    out: &mut String,
    case: &Case,
    words: &str,
) -> Result<(), OutOfMemory> {
    let fail_at = match text_of(words, "fail") {
        Some(text) => number(text.as_bytes()),
        None => None,
    };
    let mut net = MemoryNet::new(alloc, text_of(words, "ends").is_some(), fail_at);
    for line in &case.lines {
        let (word, rest) = line.split_once(" ").unwrap_or((*line, ""));
        match word {
            "arrive" => net.arrive(MemoryLink::new(alloc), ip(rest.as_bytes()).unwrap_or(0))?,
            "netend" => net.close(),
            "accept" => put_accept(out, &mut net)?,
            _ => writeln!(out, "no line: {line}")?,
        }
    }
    Ok(())
}

fn ended_of(ip: u32) -> Ended {
    Ended {
        session: None,
        fd: 0,
        ip,
        uid: 0,
        dispatched: 0,
        split: 0,
        cause: Cause::Stop,
    }
}

/// Plays the case: `keeper`, with lines of links that are put, each named by a number, which stands for its address
/// too.
pub fn put_keeper(alloc: Global, out: &mut String, case: &Case) -> Result<(), OutOfMemory> {
    let mut keeper: Keeper<u32> = Keeper::new(alloc);
    for line in &case.lines {
        let (word, rest) = line.split_once(" ").unwrap_or((*line, ""));
        let n = small(rest.as_bytes()).unwrap_or(0);
        match word {
            "put" => match keeper.put(n, ended_of(n)) {
                Ok(()) => writeln!(out, "put {n} -> kept")?,
                Err(back) => writeln!(out, "put {n} -> back {} {}", back.link, back.ended.ip)?,
            },
            "kept" => {
                out.push_str("kept")?;
                for (link, ended) in keeper.kept() {
                    write!(out, " {link} {}", ended.ip)?;
                }
                out.push_str("\n")?;
            }
            _ => writeln!(out, "no line: {line}")?,
        }
    }
    Ok(())
}
