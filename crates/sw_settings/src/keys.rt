//! The table of keys: what each may be set to, and what it is where it isn't set.

ghost use Rattle.std.specs.Prelude.{◌≡◌, map, IfSome};
ghost use Rattle.sw_settings.specs.Keys.{rule_in, rule_of, letter_of, IsSoundRule};

use sw_frame_len::Letter;
use sw_text::is;

/// What a key may be set to, and what it is where it isn't set.
#[derive(Clone, Copy, Debug)]
pub enum Rule {
    /// `true` or `false`; `false` where it isn't set.
    Truth,
    /// A whole number from `least` to `most`.
    Number { least: u64, most: u64, default: u64 },
    /// A text of `least` to `most` bytes; none where it isn't set.
    Text { least: u64, most: u64 },
    /// A letter that says how a length field holds its number; none where it isn't set.
    Letter,
    /// The columns of the Table; an empty text where it isn't set.
    Columns,
}

/// The rule of numbers, so that a key takes one line.
macro_rules! number {
    ($least:literal to $most:literal, default $default:literal) => {
        Rule::Number {
            least: $least,
            most: $most,
            default: $default,
        }
    };
}

/// Each key with its rule, in byte order.
pub const KEYS: [(&str, Rule); 23] = [
    ("dispatch_mode", number!(1 to 5, default 2)),
    ("generation_num", number!(1 to 64, default 1)),
    ("max_conn", number!(1 to 65_536, default 1_024)),
    ("max_request", number!(0 to 4_294_967_295, default 0)),
    ("open_eof_split", Rule::Truth),
    ("open_http_protocol", Rule::Truth),
    ("open_length_check", Rule::Truth),
    ("package_body_offset", number!(0 to 65_535, default 0)),
    ("package_eof", Rule::Text { least: 1, most: 8 }),
    ("package_length_offset", number!(0 to 65_535, default 0)),
    ("package_length_type", Rule::Letter),
    (
        "package_max_length",
        number!(1 to 8_388_608, default 2_097_152),
    ),
    ("pipe_capacity", number!(1 to 8_192, default 1_024)),
    ("reactor_num", number!(1 to 64, default 1)),
    ("read_size", number!(1 to 65_536, default 8_192)),
    ("session_last", number!(0 to 4_294_967_295, default 0)),
    (
        "socket_buffer_size",
        number!(1 to 67_108_864, default 2_097_152),
    ),
    ("table_columns", Rule::Columns),
    (
        "table_last_call",
        number!(0 to 8_796_093_022_207, default 8_796_093_022_207),
    ),
    ("table_percent", number!(0 to 100, default 20)),
    ("table_size", number!(1 to 524_288, default 1_024)),
    ("task_worker_num", number!(0 to 64, default 0)),
    ("worker_num", number!(1 to 64, default 1)),
];

fn rule_in(mut table: &[(&str, Rule)], name: &[u8]) -> Option<Rule>
    ensures { result ≡ rule_in (map (λ row. (row.0.now, row.1)) table.entry.now) name.now }
{
    while let [row, rest @ ..] = table {
        if is(name, row.0) {
            return Some(row.1);
        }
        table = rest;
    }
    None
}

/// The rule of a key. None exactly where there is no such key.
#[tactic(auto, unfolding(crate::specs::Keys::rule_of))]
pub fn rule_of(name: &[u8]) -> Option<Rule>
    ensures value { result ≡ rule_of name.now }
    ensures sound { IfSome result IsSoundRule }
{
    rule_in(&KEYS, name)
}

/// The letter that a text is. None exactly where it is none of the five.
pub fn letter_of(text: &[u8]) -> Option<Letter>
    ensures { result ≡ letter_of text.now }
{
    match text {
        b"C" => Some(Letter::C),
        b"n" => Some(Letter::SmallN),
        b"N" => Some(Letter::BigN),
        b"v" => Some(Letter::SmallV),
        b"V" => Some(Letter::BigV),
        _ => None,
    }
}
