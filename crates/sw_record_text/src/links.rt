//! The lines of a link.

ghost use Rattle.std.specs.Prelude.{◌≡◌, ◌++◌, codes, OnOk, string_bytes};
ghost use Rattle.std.specs.List.{flat_map};
ghost use Rattle.sw_record_text.specs.Links.{place_text, counts_text, known_text, start_text, open_line, over_line, piece_text, pieces_text, in_line, out_line, bytes_lines, link_text};
ghost use Rattle.sw_record_text.specs.Causes.{label_text};

use crate::causes::{put_cause, put_label};
use sw_base::{Octets, OutOfMemory, Session};
use sw_data::Ended;
use sw_record::{LinkRecord, LinkState};
use sw_text::{put_bytes, put_ip};

fn put_place(out: &mut String, session: Option<Session>, fd: u32) -> Result<(), OutOfMemory>
    ensures { OnOk result (string_bytes out.new ≡ string_bytes out.old ++ place_text session fd) }
{
    match session {
        None => out.push_str("session - fd -")?,
        Some(session) => {
            let session = session.number();
            write!(out, "session {session} fd {fd}")?;
        }
    }
    Ok(())
}

fn put_counts(out: &mut String, e: &Ended) -> Result<(), OutOfMemory>
    ensures { OnOk result (string_bytes out.new ≡ string_bytes out.old ++ counts_text e.now) }
{
    let uid = e.uid;
    let dispatched = e.dispatched;
    let split = e.split;
    write!(out, " uid {uid} packets {dispatched} split {split} ")?;
    Ok(())
}

fn put_known(out: &mut String, e: &Ended) -> Result<(), OutOfMemory>
    ensures { OnOk result (string_bytes out.new ≡ string_bytes out.old ++ known_text e.now) }
{
    put_place(out, e.session, e.fd)?;
    out.push_str(" ip ")?;
    put_ip(out, e.ip)?;
    put_counts(out, e)
}

/// The part of a link's first line in front of how it ended.
fn put_start(out: &mut String, at: u64, e: &Ended) -> Result<(), OutOfMemory>
    ensures { OnOk result (string_bytes out.new ≡ string_bytes out.old ++ start_text at e.now) }
{
    put_label(out, "link ", at)?;
    out.push_str(" ")?;
    put_known(out, e)
}

fn put_open_line(out: &mut String, at: u64, e: &Ended) -> Result<(), OutOfMemory>
    ensures { OnOk result (string_bytes out.new ≡ string_bytes out.old ++ open_line at e.now) }
{
    put_start(out, at, e)?;
    out.push_str("open\n")?;
    Ok(())
}

fn put_over_line(out: &mut String, at: u64, e: &Ended) -> Result<(), OutOfMemory>
    ensures { OnOk result (string_bytes out.new ≡ string_bytes out.old ++ over_line at e.now) }
{
    put_start(out, at, e)?;
    put_cause(out, e.cause)?;
    out.push_str("\n")?;
    Ok(())
}

fn put_each_piece(out: &mut String, pieces: &[Octets]) -> Result<(), OutOfMemory>
    ensures { OnOk result (string_bytes out.new ≡ string_bytes out.old ++ flat_map piece_text pieces.now) }
{
    for piece in pieces {
        out.push_str(" ")?;
        put_bytes(out, piece.bytes())?;
    }
    Ok(())
}

fn put_pieces(out: &mut String, pieces: &[Octets]) -> Result<(), OutOfMemory>
    ensures { OnOk result (string_bytes out.new ≡ string_bytes out.old ++ pieces_text pieces.now) }
{
    if pieces.is_empty() {
        out.push_str(" -")?;
        return Ok(());
    }
    put_each_piece(out, pieces)
}

fn put_in(out: &mut String, at: u64, pieces: &[Octets]) -> Result<(), OutOfMemory>
    ensures { OnOk result (string_bytes out.new ≡ string_bytes out.old ++ in_line at pieces.now) }
{
    put_label(out, "in ", at)?;
    put_pieces(out, pieces)?;
    out.push_str("\n")?;
    Ok(())
}

fn put_out(out: &mut String, at: u64, written: &[u8]) -> Result<(), OutOfMemory>
    ensures { OnOk result (string_bytes out.new ≡ string_bytes out.old ++ out_line at written.now) }
{
    put_label(out, "out ", at)?;
    out.push_str(" ")?;
    put_bytes(out, written)?;
    out.push_str("\n")?;
    Ok(())
}

fn put_byte_lines(out: &mut String, at: u64, link: &LinkRecord) -> Result<(), OutOfMemory>
    ensures { OnOk result (string_bytes out.new ≡ string_bytes out.old ++ bytes_lines at link.now) }
{
    put_in(out, at, link.pieces.as_slice())?;
    put_out(out, at, link.written.bytes())
}

fn put_waiting(out: &mut String, at: u64) -> Result<(), OutOfMemory>
    ensures { OnOk result (string_bytes out.new ≡ string_bytes out.old ++ (label_text (codes "link ") at ++ codes " waiting\n")) }
{
    put_label(out, "link ", at)?;
    out.push_str(" waiting\n")?;
    Ok(())
}

fn put_live(out: &mut String, at: u64, link: &LinkRecord, e: &Ended) -> Result<(), OutOfMemory>
    ensures { OnOk result (string_bytes out.new ≡ string_bytes out.old ++ (open_line at e.now ++ bytes_lines at link.now)) }
{
    put_open_line(out, at, e)?;
    put_byte_lines(out, at, link)
}

fn put_over(out: &mut String, at: u64, link: &LinkRecord, e: &Ended) -> Result<(), OutOfMemory>
    ensures { OnOk result (string_bytes out.new ≡ string_bytes out.old ++ (over_line at e.now ++ bytes_lines at link.now)) }
{
    put_over_line(out, at, e)?;
    put_byte_lines(out, at, link)
}

/// Appends the lines of the link of this number: one alone where it wasn't accepted.
pub(crate) fn put_link(out: &mut String, at: u64, link: &LinkRecord) -> Result<(), OutOfMemory>
    ensures { OnOk result (string_bytes out.new ≡ string_bytes out.old ++ link_text at link.now) }
{
    match &link.state {
        LinkState::Waiting => put_waiting(out, at),
        LinkState::Live(e) => put_live(out, at, link, e),
        LinkState::Over(e) => put_over(out, at, link, e),
    }
}
