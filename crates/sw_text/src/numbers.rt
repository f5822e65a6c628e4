//! Decimal numbers: without a sign up to 64 bits, and with one.

ghost use Rattle.std.specs.Prelude.{◌≡◌, ◌↔◌, ℕ, ◌<◌, ◌≤◌, ◌+◌, List, [], ◌∷◌, Some, None, IfSome, ◌++◌, OnOk, OnErr, ℤ, string_bytes};
ghost use Rattle.std.specs.Fmt.{decimal, signed_decimal};
ghost use Rattle.sw_text.specs.Numbers.{digit_more, digits_behind, number_of, number_within, positive, negative, signed_of, FitsSigned};
ghost use Rattle.sw_text.specs.Written.{IsInFront};

use std::alloc::AllocError;

/// The number with one more digit behind it.
fn digit_more(n: u64, b: u8) -> Option<u64>
    ensures { result ≡ digit_more n b }
{
    if b < 48 {
        return None;
    }
    if b > 57 {
        return None;
    }
    let next = 10 * n as u128 + (b - 48) as u128;
    if next > 18_446_744_073_709_551_615 {
        return None;
    }
    Some(next as u64)
}

fn digits(text: &[u8]) -> Option<u64>
    ensures { result ≡ digits_behind (Some 0) text.now }
{
    let mut n = 0u64;
    for b in text {
        match digit_more(n, *b) {
            None => return None,
            Some(next) => n = next,
        }
    }
    Some(n)
}

/// The number that the text is: decimal digits alone, without a leading zero unless it is `0`. None exactly where it is
/// no such number, or one that doesn't fit 64 bits.
pub fn number(text: &[u8]) -> Option<u64>
    ensures { result ≡ number_of text.now }
{
    match text {
        [] => None,
        [48, _, ..] => None,
        _ => digits(text),
    }
}

/// The same, where it is from `least` to `most`, and else None.
pub fn number_within(text: &[u8], least: u64, most: u64) -> Option<u64>
    ensures value { result ≡ number_within least most text.now }
    ensures bounds { IfSome result (λ n. (least ≤ n) × (n ≤ most)) }
{
    let n = number(text)?;
    if n < least {
        return None;
    }
    if n > most {
        return None;
    }
    Some(n)
}

fn positive(n: u64) -> Option<i64>
    ensures { result ≡ positive n }
{
    if n > 9_223_372_036_854_775_807 {
        return None;
    }
    Some(n as i64)
}

fn negative(n: u64) -> Option<i64>
    ensures { result ≡ negative n }
{
    if n == 0 {
        return None;
    }
    if n > 9_223_372_036_854_775_808 {
        return None;
    }
    Some(-1 - (n - 1) as i64)
}

/// The number that the text is: a decimal number with at most one leading `-`, where `-0` isn't one. None exactly where it
/// is no such number, or one that doesn't fit 64 bits with its sign.
pub fn signed(text: &[u8]) -> Option<i64>
    ensures { result ≡ signed_of text.now }
{
    match text {
        [45, digits @ ..] => {
            let n = number(digits)?;
            negative(n)
        }
        _ => {
            let n = number(text)?;
            positive(n)
        }
    }
}

fn put_digit(out: &mut String, digit: u8) -> Result<(), AllocError>
    requires { digit < 10 }
    ensures ok { OnOk result (string_bytes out.new ≡ string_bytes out.old ++ (48 + digit) ∷ []) }
    ensures err { OnErr result (string_bytes out.new ≡ string_bytes out.old) }
{
    out.push(char::from(48 + digit))
}

/// Appends the number in decimal digits. After an error what stood in the text still stands in front.
#[tactic(auto, using(std::proofs::lemmas::Fmt::decimal_step, std::proofs::lemmas::Fmt::decimal_digit))]
pub fn put_number(out: &mut String, n: u64) -> Result<(), AllocError>
    ensures ok { OnOk result (string_bytes out.new ≡ string_bytes out.old ++ decimal n) }
    ensures err { OnErr result (IsInFront (string_bytes out.old) (string_bytes out.new)) }
{
    if n < 10 {
        return put_digit(out, n as u8);
    }
    put_number(out, n / 10)?;
    put_digit(out, (n % 10) as u8)
}

/// Appends the number in decimal digits, with a `-` in front where it is below 0. After an error what stood in the text
/// still stands in front.
pub fn put_signed(out: &mut String, n: i64) -> Result<(), AllocError>
    ensures ok { OnOk result (string_bytes out.new ≡ string_bytes out.old ++ signed_decimal n) }
    ensures err { OnErr result (IsInFront (string_bytes out.old) (string_bytes out.new)) }
{
    if n < 0 {
        out.push_str("-")?;
    }
    put_number(out, n.unsigned_abs())
}

/// A text is read as a number exactly where it is that number's text, and the number fits.
pub fn numbers_agree()
    ensures { (text : List ℕ) (n : ℕ) → (number_of text ≡ Some n) ↔ ((text ≡ decimal n) × (n < 18446744073709551616)) }
{}

/// A text is read as a number with a sign exactly where it is that number's text, and the number fits.
pub fn signed_agree()
    ensures { (text : List ℕ) (n : ℤ) → (signed_of text ≡ Some n) ↔ ((text ≡ signed_decimal n) × FitsSigned n) }
{}
