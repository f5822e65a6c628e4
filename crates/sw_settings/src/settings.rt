//! What a server is set to.

ghost use Rattle.std.specs.Prelude.{◌≡◌, ◌≤◌, length, IfOk, IfErr, IfSome, IsTrue, true, None};
ghost use Rattle.std.specs.Option.{option_copied};
ghost use Rattle.sw_frame.specs.Cut.{IsFit};
ghost use Rattle.sw_settings.specs.Columns.{columns_named};
ghost use Rattle.sw_settings.specs.Given.{keeps};
ghost use Rattle.sw_settings.specs.Values.{values_of, IsWithin};
ghost use Rattle.sw_settings.specs.Faults.{fault_of, IsRefusal};
ghost use Rattle.sw_settings.specs.Framings.{framing_of};

use crate::columns::schema;
use crate::faults::{SettingsFault, pairs_fault};
use crate::framings::framing;
use crate::pair::Pair;
use crate::values::Values;
use std::alloc::Global;
use std::marker::Model;
use sw_base::Octets;
use sw_column::Schema;
use sw_frame::Framing;
use sw_frame_len::Letter;

/// What a server is set to. Contracts see what each key is set to, or its default.
#[derive(Drop, Debug)]
pub struct Settings {
    values: Values,
    framing: Framing,
    schema: Schema,
}

impl Model for Settings {
    ghost use Rattle.std.specs.Prelude.{◌≡◌};
    ghost use Rattle.sw_frame.specs.Cut.{IsFit};
    ghost use Rattle.sw_settings.specs.declared.values.Values.{Values};
    ghost use Rattle.sw_settings.specs.Columns.{columns_named};
    ghost use Rattle.sw_settings.specs.Values.{IsSound};
    ghost use Rattle.sw_settings.specs.Framings.{framing_of};

    ghost Value = { Values };

    ghost view = { λ s. s.values };

    ghost invariant = { λ s. IsSound s.values × (s.framing ≡ framing_of s.values) × IsFit s.framing × (s.schema ≡ columns_named s.values.table_columns) };
}

/// The settings that pairs are. They are refused for the first reason, in the order of `SettingsFault`, that applies;
/// `OutOfMemory` may come in place of any answer. Where two pairs have one name, the first one counts.
#[tactic(auto, unfolding(crate::specs::Faults::fault_of))]
pub fn from_pairs(alloc: Global, pairs: Vec<Pair>) -> Result<Settings, SettingsFault>
    ensures ok { IfOk result (λ s. (fault_of pairs.items ≡ None) × (s ≡ values_of pairs.items)) }
    ensures refused { IfErr result (IsRefusal (fault_of pairs.items)) }
{
    if let Some(fault) = pairs_fault(alloc, &pairs)? {
        return Err(fault);
    }
    let values = Values::of(alloc, &pairs)?;
    let framing = framing(alloc, &values)?;
    match schema(alloc, values.table_columns.bytes())? {
        Ok(schema) => Ok(Settings {
            values,
            framing,
            schema,
        }),
        Err(refused) => Err(SettingsFault::Column(refused.name, refused.fault)),
    }
}

impl Settings {
    /// How a worker is chosen for a connection's packets: 1 in turn, 2 by the descriptor, 3 the first idle one, 4 by the
    /// address, 5 by the uid.
    pub fn dispatch_mode(&self) -> u32
        ensures value { result ≡ self.now.dispatch_mode }
        ensures bounds { IsWithin 1 5 result }
    {
        self.values.dispatch_mode
    }

    /// How many handlers each worker has one after the other: 1 to 64.
    pub fn generation_num(&self) -> u32
        ensures value { result ≡ self.now.generation_num }
        ensures bounds { IsWithin 1 64 result }
    {
        self.values.generation_num
    }

    /// The most sessions that live at a time: 1 to 65,536.
    pub fn max_conn(&self) -> u32
        ensures value { result ≡ self.now.max_conn }
        ensures bounds { IsWithin 1 65536 result }
    {
        self.values.max_conn
    }

    /// After how many events a worker's handler is replaced by its next one; 0 means never.
    pub fn max_request(&self) -> u32
        ensures { result ≡ self.now.max_request }
    {
        self.values.max_request
    }

    /// Whether packets end at a mark.
    pub fn open_eof_split(&self) -> bool
        ensures { result ≡ self.now.open_eof_split }
    {
        self.values.open_eof_split
    }

    /// Whether workers' handlers are given whole HTTP requests. Then the dispatch mode is 2 or 4, and the bytes aren't cut in
    /// another way.
    #[tactic(auto, unfolding(crate::specs::Framings::framing_of))]
    pub fn open_http_protocol(&self) -> bool
        ensures value { result ≡ self.now.open_http_protocol }
        ensures kept { IsTrue result → keeps self.now.dispatch_mode ≡ true }
        ensures raw { IsTrue result → framing_of self.now ≡ Framing.Raw }
    {
        self.values.open_http_protocol
    }

    /// Whether packets name their length in a field.
    pub fn open_length_check(&self) -> bool
        ensures { result ≡ self.now.open_length_check }
    {
        self.values.open_length_check
    }

    /// What is added to a length field's number to give the packet's length, in bytes: 0 to 65,535.
    pub fn package_body_offset(&self) -> u32
        ensures value { result ≡ self.now.package_body_offset }
        ensures bounds { result ≤ 65535 }
    {
        self.values.package_body_offset
    }

    /// The mark that ends packets, 1 to 8 bytes; None where it isn't set.
    pub fn package_eof(&self) -> Option<&Octets>
        ensures { option_copied result ≡ self.now.package_eof }
    {
        self.values.package_eof.as_ref()
    }

    /// The place of a length field's first byte in its packet, from 0: 0 to 65,535.
    pub fn package_length_offset(&self) -> u32
        ensures value { result ≡ self.now.package_length_offset }
        ensures bounds { result ≤ 65535 }
    {
        self.values.package_length_offset
    }

    /// How a length field holds its number; None where it isn't set.
    pub fn package_length_type(&self) -> Option<Letter>
        ensures { result ≡ self.now.package_length_type }
    {
        self.values.package_length_type
    }

    /// The most bytes of a packet: 1 to 8,388,608.
    pub fn package_max_length(&self) -> u64
        ensures value { result ≡ self.now.package_max_length }
        ensures bounds { IsWithin 1 8388608 result }
    {
        self.values.package_max_length
    }

    /// How many messages an actor's pipe has room for: 1 to 8,192.
    pub fn pipe_capacity(&self) -> u32
        ensures value { result ≡ self.now.pipe_capacity }
        ensures bounds { IsWithin 1 8192 result }
    {
        self.values.pipe_capacity
    }

    /// How many reactors there are: 1 to 64.
    pub fn reactor_num(&self) -> u32
        ensures value { result ≡ self.now.reactor_num }
        ensures bounds { IsWithin 1 64 result }
    {
        self.values.reactor_num
    }

    /// The most bytes that a read takes: 1 to 65,536.
    pub fn read_size(&self) -> u32
        ensures value { result ≡ self.now.read_size }
        ensures bounds { IsWithin 1 65536 result }
    {
        self.values.read_size
    }

    /// The number of the last session that counts as drawn at the start; 0 for none.
    pub fn session_last(&self) -> u32
        ensures { result ≡ self.now.session_last }
    {
        self.values.session_last
    }

    /// The most bytes of a connection that may be unsent: 1 to 67,108,864.
    pub fn socket_buffer_size(&self) -> u64
        ensures value { result ≡ self.now.socket_buffer_size }
        ensures bounds { IsWithin 1 67108864 result }
    {
        self.values.socket_buffer_size
    }

    /// The text of the Table's columns; empty where there is no Table.
    pub fn table_columns(&self) -> &Octets
        ensures { result.now ≡ self.now.table_columns }
    {
        &self.values.table_columns
    }

    /// The most calls of the Table that have a place: 0 to 8,796,093,022,207.
    pub fn table_last_call(&self) -> u64
        ensures value { result ≡ self.now.table_last_call }
        ensures bounds { result ≤ 8796093022207 }
    {
        self.values.table_last_call
    }

    /// The rows for collisions as a percentage of the Table's size: 0 to 100.
    pub fn table_percent(&self) -> u32
        ensures value { result ≡ self.now.table_percent }
        ensures bounds { result ≤ 100 }
    {
        self.values.table_percent
    }

    /// The Table's size in rows, before it is raised to a power of two: 1 to 524,288.
    pub fn table_size(&self) -> u32
        ensures value { result ≡ self.now.table_size }
        ensures bounds { IsWithin 1 524288 result }
    {
        self.values.table_size
    }

    /// How many task workers there are: 0 to 64.
    pub fn task_worker_num(&self) -> u32
        ensures value { result ≡ self.now.task_worker_num }
        ensures bounds { result ≤ 64 }
    {
        self.values.task_worker_num
    }

    /// How many workers there are: 1 to 64.
    pub fn worker_num(&self) -> u32
        ensures value { result ≡ self.now.worker_num }
        ensures bounds { IsWithin 1 64 result }
    {
        self.values.worker_num
    }

    /// How a stream is cut: at the mark where `open_eof_split` is true, by the length field where `open_length_check` is
    /// true, and else piece by piece.
    pub fn framing(&self) -> &Framing
        ensures value { result.now ≡ framing_of self.now }
        ensures fit { IsFit result.now }
    {
        &self.framing
    }

    /// The Table's columns, in the order of `table_columns`; none where there is no Table.
    pub fn schema(&self) -> &Schema
        ensures { result.now ≡ columns_named self.now.table_columns }
    {
        &self.schema
    }
}
