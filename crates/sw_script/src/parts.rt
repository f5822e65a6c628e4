//! The acts of a rule's text, with ` ; ` between them.

ghost use Rattle.std.specs.Prelude.{◌≡◌};
ghost use Rattle.std.specs.Option.{option_copied};
ghost use Rattle.sw_script.specs.Parts.{without_end, without_start, parted, acts_parted, first_act};
ghost use Rattle.sw_script.specs.Views.{act_seen};

use sw_text::cut;

/// The text in front of a space that ends it.
fn without_end(text: &[u8]) -> Option<&[u8]>
    ensures { option_copied result ≡ without_end text.now }
{
    text.strip_suffix(b" ".as_slice())
}

/// The text behind a space that begins it.
fn without_start(text: &[u8]) -> Option<&[u8]>
    ensures { option_copied result ≡ without_start text.now }
{
    text.strip_prefix(b" ".as_slice())
}

#[tactic(auto, unfolding(crate::specs::Parts::parted))]
fn parted<'a>(front: &'a [u8], rest: &'a [u8]) -> Option<(&'a [u8], Option<&'a [u8]>)>
    ensures { act_seen result ≡ parted front.now rest.now }
{
    let front = without_end(front)?;
    let rest = without_start(rest)?;
    Some((front, Some(rest)))
}

/// The text of the first act, and that of the others where ` ; ` stands between them. None exactly where a semicolon stands
/// without its spaces.
pub fn first_act(text: &[u8]) -> Option<(&[u8], Option<&[u8]>)>
    ensures { act_seen result ≡ first_act text.now }
{
    let (front, rest) = cut(text, b';');
    match rest {
        None => Some((front, None)),
        Some(rest) => parted(front, rest),
    }
}
