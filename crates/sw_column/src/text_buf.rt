//! Room for one text of a row.
ghost use Rattle.std.specs.Prelude.{◌≡◌, ◌≤◌, [], take, length, IfOk};

use std::alloc::Global;
use std::marker::Model;
use sw_base::OutOfMemory;

/// A text in a place of fixed room, so that writing it takes no memory. Contracts see the text and the room.
#[derive(Drop, Debug)]
pub struct TextBuf {
    bytes: Vec<u8>,
    len: usize,
}

impl Model for TextBuf {
    ghost use Rattle.std.specs.Prelude.{◌≤◌, take, vec_len};
    ghost use Rattle.sw_column.specs.Room.{Room};

    ghost Value = { Room };

    ghost view = { λ t. record { text = take t.len t.bytes.items; room = vec_len t.bytes } };

    ghost invariant = { λ t. t.len ≤ vec_len t.bytes };
}

impl TextBuf {
    /// An empty text, with room for so many bytes.
    pub fn make(alloc: Global, room: usize) -> Result<TextBuf, OutOfMemory>
        ensures { IfOk result (λ t. t ≡ record { text = []; room = room }) }
    {
        let bytes = vec![in alloc; 0u8; room]?;
        Ok(TextBuf { bytes, len: 0 })
    }

    /// The text, lent.
    pub fn text(&self) -> &[u8]
        ensures value { result.now ≡ self.now.text }
        ensures within { length result.now ≤ self.now.room }
    {
        &self.bytes[..self.len]
    }

    /// Another text, cut at the room.
    pub fn put(&mut self, text: &[u8])
        ensures { self.new ≡ record self.old { text = take self.old.room text.now } }
    {
        self.len = fill(&mut self.bytes, text);
    }
}

/// Writes the text to the front of a buffer, as much as there is room for, and answers how much that is.
fn fill(buf: &mut [u8], text: &[u8]) -> usize
    ensures within { result ≤ length buf.old }
    ensures len { length buf.new ≡ length buf.old }
    ensures written { take result buf.new ≡ take (length buf.old) text.now }
{
    let len = text.len().min(buf.len());
    buf[..len].copy_from_slice(&text[..len]);
    len
}
