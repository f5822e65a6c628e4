//! What each key is set to, read once.

ghost use Rattle.std.specs.Prelude.{◌≡◌, None, IfOk, codes};
ghost use Rattle.sw_settings.specs.Given.{text_of};
ghost use Rattle.sw_settings.specs.Values.{length_type, text_or_none, values_of, IsSound};
ghost use Rattle.sw_settings.specs.Faults.{pairs_fault};

use crate::given::{number, small, text, truth};
use crate::keys::letter_of;
use crate::pair::Pair;
use std::alloc::Global;
use sw_base::{Octets, OutOfMemory};
use sw_frame_len::Letter;

/// What each key is set to, or its default. A text that isn't set is None, or empty where the key may be set to an empty one.
#[derive(Drop, Debug)]
pub struct Values {
    pub dispatch_mode: u32,
    pub generation_num: u32,
    pub max_conn: u32,
    pub max_request: u32,
    pub open_eof_split: bool,
    pub open_http_protocol: bool,
    pub open_length_check: bool,
    pub package_body_offset: u32,
    pub package_eof: Option<Octets>,
    pub package_length_offset: u32,
    pub package_length_type: Option<Letter>,
    pub package_max_length: u64,
    pub pipe_capacity: u32,
    pub reactor_num: u32,
    pub read_size: u32,
    pub session_last: u32,
    pub socket_buffer_size: u64,
    pub table_columns: Octets,
    pub table_last_call: u64,
    pub table_percent: u32,
    pub table_size: u32,
    pub task_worker_num: u32,
    pub worker_num: u32,
}

fn package_eof(pairs: &[Pair]) -> Result<Option<Octets>, OutOfMemory>
    ensures { IfOk result (λ t. t ≡ text_of (codes "package_eof") pairs.now) }
{
    match text(pairs, "package_eof") {
        None => Ok(None),
        Some(mark) => Ok(Some(mark.copy()?)),
    }
}

fn package_length_type(pairs: &[Pair]) -> Option<Letter>
    ensures { result ≡ length_type pairs.now }
{
    let text = text(pairs, "package_length_type")?;
    letter_of(text.bytes())
}

fn table_columns(alloc: Global, pairs: &[Pair]) -> Result<Octets, OutOfMemory>
    ensures { IfOk result (λ t. t ≡ text_or_none (text_of (codes "table_columns") pairs.now)) }
{
    match text(pairs, "table_columns") {
        None => Ok(Octets::new(alloc)),
        Some(columns) => columns.copy(),
    }
}

impl Values {
    /// What the pairs set each key to.
    #[tactic(auto, unfolding(crate::specs::Keys::rule_of, crate::specs::Values::values_of))]
    pub fn of(alloc: Global, pairs: &[Pair]) -> Result<Values, OutOfMemory>
        requires { pairs_fault pairs.now ≡ None }
        ensures value { IfOk result (λ v. v ≡ values_of pairs.now) }
        ensures sound { IfOk result IsSound }
    {
        let package_eof = package_eof(pairs)?;
        let table_columns = table_columns(alloc, pairs)?;
        Ok(Values {
            dispatch_mode: small(pairs, "dispatch_mode"),
            generation_num: small(pairs, "generation_num"),
            max_conn: small(pairs, "max_conn"),
            max_request: small(pairs, "max_request"),
            open_eof_split: truth(pairs, "open_eof_split"),
            open_http_protocol: truth(pairs, "open_http_protocol"),
            open_length_check: truth(pairs, "open_length_check"),
            package_body_offset: small(pairs, "package_body_offset"),
            package_eof,
            package_length_offset: small(pairs, "package_length_offset"),
            package_length_type: package_length_type(pairs),
            package_max_length: number(pairs, "package_max_length"),
            pipe_capacity: small(pairs, "pipe_capacity"),
            reactor_num: small(pairs, "reactor_num"),
            read_size: small(pairs, "read_size"),
            session_last: small(pairs, "session_last"),
            socket_buffer_size: number(pairs, "socket_buffer_size"),
            table_columns,
            table_last_call: number(pairs, "table_last_call"),
            table_percent: small(pairs, "table_percent"),
            table_size: small(pairs, "table_size"),
            task_worker_num: small(pairs, "task_worker_num"),
            worker_num: small(pairs, "worker_num"),
        })
    }
}
