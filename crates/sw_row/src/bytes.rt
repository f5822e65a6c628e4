//! Numbers and texts in the bytes of one column.
ghost use Rattle.std.specs.Prelude.{◌≡◌, ◌-◌, ◌<◌, ◌≤◌, length, take, IsTrue};
ghost use Rattle.sw_column.specs.declared.column.Kind.TheVariants as kinds;
ghost use Rattle.sw_column.specs.Columns.{is_size};
ghost use Rattle.sw_row.specs.Layout.{number_in, text_in, kept_number};

/// The bytes that tell how long a text is.
pub const TEXT_HEAD: usize = 2;

/// The number in 1, 2, 4 or 8 bytes.
pub fn number(bytes: &[u8], size: u32) -> i64
    requires size { IsTrue (is_size kinds.Int size) }
    requires place { length bytes.now ≡ size }
    ensures { result ≡ number_in size bytes.now }
{
    match size {
        1 => i64::from(i8::from_le_bytes([bytes[0]])),
        2 => i64::from(i16::from_le_bytes([bytes[0], bytes[1]])),
        4 => i64::from(i32::from_le_bytes([bytes[0], bytes[1], bytes[2], bytes[3]])),
        _ => i64::from_le_bytes([
            bytes[0], bytes[1], bytes[2], bytes[3], bytes[4], bytes[5], bytes[6], bytes[7],
        ]),
    }
}

/// Writes a number into 1, 2, 4 or 8 bytes, the lowest bytes of it.
pub fn put_number(bytes: &mut [u8], size: u32, n: i64)
    requires size { IsTrue (is_size kinds.Int size) }
    requires place { length bytes.old ≡ size }
    ensures len { length bytes.new ≡ length bytes.old }
    ensures value { number_in size bytes.new ≡ kept_number size n }
{
    let low = n.to_le_bytes();
    match size {
        1 => bytes.copy_from_slice(&low[..1]),
        2 => bytes.copy_from_slice(&low[..2]),
        4 => bytes.copy_from_slice(&low[..4]),
        _ => bytes.copy_from_slice(&low),
    }
}

/// The text in the bytes of a column, lent.
pub fn text(bytes: &[u8]) -> &[u8]
    requires { 2 ≤ length bytes.now }
    ensures { result.now ≡ text_in bytes.now }
{
    let len = usize::from(u16::from_le_bytes([bytes[0], bytes[1]]));
    let room = &bytes[TEXT_HEAD..];
    &room[..len.min(room.len())]
}

/// Writes a text into the bytes of a column, cut at their room.
pub fn put_text(bytes: &mut [u8], text: &[u8])
    requires head { 2 ≤ length bytes.old }
    requires place { length bytes.old ≤ 1024 }
    ensures len { length bytes.new ≡ length bytes.old }
    ensures value { text_in bytes.new ≡ take (length bytes.old - 2) text.now }
{
    let len = text.len().min(bytes.len() - TEXT_HEAD);
    bytes[..TEXT_HEAD].copy_from_slice(&(len as u16).to_le_bytes());
    bytes[TEXT_HEAD..TEXT_HEAD + len].copy_from_slice(&text[..len]);
}
