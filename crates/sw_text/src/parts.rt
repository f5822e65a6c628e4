//! A text cut at a separator: its lines, and the words of a line.

ghost use Rattle.std.specs.Prelude.{◌≡◌, ℕ, ◌≤◌, ◌<◌, ◌+◌, List, [], ◌∷◌, length, take, drop, Option, Some, None, IfSome, IfNone};
ghost use Rattle.std.specs.Option.{option_copied};
ghost use Rattle.std.specs.Str.{bytes_eq};
ghost use Rattle.sw_text.specs.Parts.{cut_at, part_at, lines_of, AreLines};
ghost use Rattle.sw_text.specs.Views.{parts_seen};

/// Where the first separator stands.
#[tactic(auto, unfolding(crate::specs::Parts::cut_at))]
fn find(bytes: &[u8], sep: u8) -> Option<usize>
    ensures within { IfSome result (λ n. n < length bytes.now) }
    ensures none { IfNone result (cut_at sep bytes.now ≡ (bytes.now, None)) }
    ensures some { IfSome result (λ n. cut_at sep bytes.now ≡ (take n bytes.now, Some (drop (n + 1) bytes.now))) }
{
    let mut n = 0;
    while n < bytes.len() {
        if bytes[n] == sep {
            return Some(n);
        }
        n += 1;
    }
    None
}

fn behind(bytes: &[u8], at: usize) -> &[u8]
    requires { at < length bytes.now }
    ensures value { result.now ≡ drop (at + 1) bytes.now }
    ensures shorter { length result.now < length bytes.now }
{
    &bytes[at + 1..]
}

/// What stands before the first separator, and what stands behind it where there is one.
pub fn cut(bytes: &[u8], sep: u8) -> (&[u8], Option<&[u8]>)
    ensures value { (result.0.now, option_copied result.1) ≡ cut_at sep bytes.now }
    ensures shorter { IfSome result.1 (λ r. length r.now < length bytes.now) }
{
    match find(bytes, sep) {
        None => (bytes, None),
        Some(n) => (&bytes[..n], Some(behind(bytes, n))),
    }
}

/// The same two parts. None exactly where the text has no separator.
#[tactic(auto, unfolding(crate::specs::Parts::part_at))]
pub fn part(text: &[u8], sep: u8) -> Option<(&[u8], &[u8])>
    ensures { parts_seen result ≡ part_at sep text.now }
{
    let (front, rest) = cut(text, sep);
    match rest {
        None => None,
        Some(rest) => Some((front, rest)),
    }
}

/// Whether the word is this one.
pub fn is(word: &[u8], name: &str) -> bool
    ensures { result ≡ bytes_eq word.now name.now }
{
    word == name.as_bytes()
}

/// The first line of a text, without its line feed, and the text behind it. None exactly where the text is empty.
pub fn next_line(text: &[u8]) -> Option<(&[u8], &[u8])>
    ensures none { IfNone result (lines_of text.now ≡ []) }
    ensures line { IfSome result (λ p. lines_of text.now ≡ p.0.now ∷ lines_of p.1.now) }
    ensures shorter { IfSome result (λ p. length p.1.now < length text.now) }
{
    if text.is_empty() {
        return None;
    }
    let (line, rest) = cut(text, 10);
    match rest {
        None => Some((line, &[])),
        Some(rest) => Some((line, rest)),
    }
}

/// The lines of a text hold no line feed, and with one behind each they are the text, which may lack the last one.
pub fn lines_agree()
    ensures { (text : List ℕ) → AreLines text (lines_of text) }
{}
