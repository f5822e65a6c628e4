//! Each key with what is shown for it.

ghost use Rattle.std.specs.Prelude.{◌≡◌, map, List, length};
ghost use Rattle.std.specs.Option.{option_copied};
ghost use Rattle.sw_settings.specs.declared.values.Values.{Values};
ghost use Rattle.sw_settings.specs.Keys.{keys};
ghost use Rattle.sw_settings_print.specs.Print.{letter_text, mark_text, seen, lines};

use sw_base::Octets;
use sw_frame_len::Letter;
use sw_settings::Settings;

/// What is shown for a key.
#[derive(Clone, Copy, Debug)]
pub enum Shown<'a> {
    /// Decimal digits.
    Number(u64),
    /// `true` or `false`.
    Truth(bool),
    /// An `x` and hexadecimal digits, or a `-` where there is no byte.
    Text(&'a [u8]),
}

/// The letter as a text, which is empty where none is set.
fn letter_text(letter: Option<Letter>) -> &'static [u8]
    ensures { result.now ≡ letter_text letter }
{
    match letter {
        None => b"",
        Some(Letter::C) => b"C",
        Some(Letter::SmallN) => b"n",
        Some(Letter::BigN) => b"N",
        Some(Letter::SmallV) => b"v",
        Some(Letter::BigV) => b"V",
    }
}

/// The mark, which is empty where none is set.
fn mark_text(mark: Option<&Octets>) -> &[u8]
    ensures { result.now ≡ mark_text (option_copied mark.entry) }
{
    match mark {
        None => b"",
        Some(mark) => mark.bytes(),
    }
}

/// Each key with what is shown for it, in byte order.
pub fn lines(settings: &Settings) -> [(&'static str, Shown<'_>); 23]
    ensures { map seen result ≡ lines settings.now }
{
    use Shown::{Number, Text, Truth};
    [
        ("dispatch_mode", Number(settings.dispatch_mode() as u64)),
        ("generation_num", Number(settings.generation_num() as u64)),
        ("max_conn", Number(settings.max_conn() as u64)),
        ("max_request", Number(settings.max_request() as u64)),
        ("open_eof_split", Truth(settings.open_eof_split())),
        ("open_http_protocol", Truth(settings.open_http_protocol())),
        ("open_length_check", Truth(settings.open_length_check())),
        (
            "package_body_offset",
            Number(settings.package_body_offset() as u64),
        ),
        ("package_eof", Text(mark_text(settings.package_eof()))),
        (
            "package_length_offset",
            Number(settings.package_length_offset() as u64),
        ),
        (
            "package_length_type",
            Text(letter_text(settings.package_length_type())),
        ),
        ("package_max_length", Number(settings.package_max_length())),
        ("pipe_capacity", Number(settings.pipe_capacity() as u64)),
        ("reactor_num", Number(settings.reactor_num() as u64)),
        ("read_size", Number(settings.read_size() as u64)),
        ("session_last", Number(settings.session_last() as u64)),
        ("socket_buffer_size", Number(settings.socket_buffer_size())),
        ("table_columns", Text(settings.table_columns().bytes())),
        ("table_last_call", Number(settings.table_last_call())),
        ("table_percent", Number(settings.table_percent() as u64)),
        ("table_size", Number(settings.table_size() as u64)),
        ("task_worker_num", Number(settings.task_worker_num() as u64)),
        ("worker_num", Number(settings.worker_num() as u64)),
    ]
}

/// The lines show each key of the table once, in its order, and no other.
pub fn prints_each_key()
    ensures { (v : Values) → map (λ line. line.0) (lines v) ≡ map (λ row. row.0) keys }
{}
