//! A message that holds boxes, bytes, and a token that is not `Clone`.
ghost use Rattle.std.specs.Prelude.{◌≡◌, ◌%◌};

/// An even number. It cannot be copied.
#[derive(Drop)]
pub struct Even {
    pub number: u64,
    pub ghost even: { number % 2 ≡ 0 },
}

/// A chain of byte lists.
#[derive(Drop)]
pub struct Node {
    pub bytes: Vec<u8>,
    pub next: Option<Box<Node>>,
}

/// What the pipe carries.
#[derive(Drop)]
pub enum Message {
    Text(Vec<u8>),
    Chain(Box<Node>),
    Number(Even),
}
