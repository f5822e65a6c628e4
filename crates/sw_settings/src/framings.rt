//! How a stream is cut, by what is set.

ghost use Rattle.std.specs.Prelude.{◌≡◌, IfOk};
ghost use Rattle.std.specs.Option.{unwrap_or};
ghost use Rattle.sw_frame.specs.Cut.{IsFit};
ghost use Rattle.sw_settings.specs.Values.{IsSound, text_or_none};
ghost use Rattle.sw_settings.specs.Framings.{length_rule, framing_of};

use crate::values::Values;
use std::alloc::Global;
use sw_base::{Octets, OutOfMemory};
use sw_frame::Framing;
use sw_frame_len::{LengthRule, Letter};

/// How packets name their length; where they do, the letter is set.
fn length_rule(values: &Values) -> LengthRule
    ensures { result ≡ length_rule values.now }
{
    LengthRule {
        letter: values.package_length_type.unwrap_or(Letter::C),
        length_offset: values.package_length_offset,
        body_offset: values.package_body_offset,
        max: values.package_max_length,
    }
}

/// The mark that ends packets; where they end at one, it is set.
fn mark(alloc: Global, values: &Values) -> Result<Octets, OutOfMemory>
    ensures { IfOk result (λ m. m ≡ text_or_none values.now.package_eof) }
{
    match &values.package_eof {
        None => Ok(Octets::new(alloc)),
        Some(mark) => mark.copy(),
    }
}

/// How a stream is cut.
#[tactic(auto, unfolding(crate::specs::Framings::framing_of))]
pub fn framing(alloc: Global, values: &Values) -> Result<Framing, OutOfMemory>
    requires { IsSound values.now }
    ensures value { IfOk result (λ f. f ≡ framing_of values.now) }
    ensures fit { IfOk result IsFit }
{
    if values.open_eof_split {
        let mark = mark(alloc, values)?;
        Ok(Framing::Eof(mark, values.package_max_length))
    } else if values.open_length_check {
        Ok(Framing::Length(length_rule(values)))
    } else {
        Ok(Framing::Raw)
    }
}
