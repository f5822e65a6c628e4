//! What comes first in bytes, by a length that is read once.
ghost use Rattle.std.specs.Prelude.{◌≡◌};
ghost use Rattle.sw_frame_len.specs.Length.{first_in, first_by};
ghost use Rattle.sw_frame_len.specs.Read.{HasRead, unread};

use crate::rule::LengthRule;
use sw_cut::First;

/// The length in bytes of the packet at the front, once its field was read. More bytes may come at the end of those that
/// were read from; once they are cut, the next field is read.
#[derive(Clone, Copy, Debug)]
pub struct LengthScan {
    total: Option<u64>,
}

impl LengthScan {
    /// Nothing was read yet.
    pub fn new() -> LengthScan
        ensures { result ≡ unread }
    {
        LengthScan { total: None }
    }

    /// The bytes were cut: the next field is that of the packet behind.
    pub fn cut(&mut self)
        ensures { self.new ≡ unread }
    {
        *self = LengthScan::new();
    }

    /// What comes first in these bytes, which are those of the last call with others added at the end. Where the field
    /// can't be within `max` bytes, `TooLong(max)` as soon as `max` bytes are there. Else, once the field is there:
    /// `BadLength` where the length that it names is below the field's end or below `body_offset`, then `TooLong` where
    /// it is above `max`, and `Packet` once so many bytes are there. `More` in all other cases.
    #[tactic(auto, using(std::proofs::lemmas::Bool::Decides::nat_tests), unfolding(crate::specs::Length::first_in))]
    pub fn first(&mut self, rule: LengthRule, bytes: &[u8]) -> First
        requires { HasRead rule bytes.now self.old }
        ensures first { result ≡ first_in rule bytes.now }
        ensures read { HasRead rule bytes.now self.new }
    {
        if let Some(total) = self.total {
            return first_by(rule, bytes, total);
        }
        let field_end = u64::from(rule.length_offset) + u64::from(rule.letter.width());
        let have = bytes.len() as u64;
        if rule.max < field_end {
            return if rule.max <= have {
                First::TooLong(rule.max)
            } else {
                First::More
            };
        }
        if have < field_end {
            return First::More;
        }
        let number = rule.letter.read(bytes, rule.length_offset as usize);
        let total = u64::from(rule.body_offset) + u64::from(number);
        self.total = Some(total);
        first_by(rule, bytes, total)
    }
}

/// What comes first where the field is there and names this length.
#[tactic(auto, using(std::proofs::lemmas::Bool::Decides::nat_tests))]
fn first_by(rule: LengthRule, bytes: &[u8], total: u64) -> First
    ensures { result ≡ first_by rule bytes.now total }
{
    let field_end = u64::from(rule.length_offset) + u64::from(rule.letter.width());
    if total < field_end || total < u64::from(rule.body_offset) {
        First::BadLength(total)
    } else if rule.max < total {
        First::TooLong(total)
    } else if total <= bytes.len() as u64 {
        First::Packet(total as usize)
    } else {
        First::More
    }
}
