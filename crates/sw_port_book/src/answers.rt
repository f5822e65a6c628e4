//! What the calls of a desk and a book answer.

/// What a look found in the session's slot.
#[derive(Clone, Copy, Debug, PartialEq, Eq)]
pub enum Look {
    /// The session lives, with this uid, 0 for none.
    Live(u32),
    /// The slot holds this other number, 0 for none.
    Other(u32),
}

/// Why a bind was refused, in the order in which the reasons are tried.
#[derive(Clone, Copy, Debug, PartialEq, Eq)]
pub enum BindFault {
    /// The uid that was asked for is 0.
    BadUid,
    /// The session's slot holds this other number, 0 for none.
    Other(u32),
    /// The session has this uid already.
    Bound(u32),
}

/// Why a claim was refused.
#[derive(Clone, Copy, Debug, PartialEq, Eq)]
pub enum ClaimFault {
    /// As many tries as there are slots, this many, each found a live number.
    Full(u32),
    /// No number is left: the last one that was drawn is 4,294,967,295.
    Spent,
}
