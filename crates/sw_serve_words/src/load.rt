//! The words behind `load`.
ghost use Rattle.std.specs.Prelude.{◌≡◌, map, string_bytes};
ghost use Rattle.sw_serve_words.specs.Load.{seed_named, connections_named, packets_named, with_load, load_named, load_more, load_words, plan_of};

use crate::once::unset;
use sw_load::Plan;
use sw_text::{is, number_within};

/// What the words behind `load` say.
#[derive(Clone, Copy, Debug, PartialEq, Eq)]
pub struct LoadWords {
    /// What the bytes begin with.
    pub seed: Option<u64>,
    /// How many connections there are.
    pub connections: Option<u64>,
    /// How many packets each sends.
    pub packets: Option<u64>,
}

/// These words with a seed.
fn seed_named(words: LoadWords, seed: Option<u64>) -> Option<LoadWords>
    ensures { result ≡ seed_named words seed }
{
    match seed {
        None => None,
        Some(seed) => Some(LoadWords {
            seed: Some(seed),
            connections: words.connections,
            packets: words.packets,
        }),
    }
}

/// These words with a number of connections.
fn connections_named(words: LoadWords, connections: Option<u64>) -> Option<LoadWords>
    ensures { result ≡ connections_named words connections }
{
    match connections {
        None => None,
        Some(connections) => Some(LoadWords {
            seed: words.seed,
            connections: Some(connections),
            packets: words.packets,
        }),
    }
}

/// These words with a number of packets.
fn packets_named(words: LoadWords, packets: Option<u64>) -> Option<LoadWords>
    ensures { result ≡ packets_named words packets }
{
    match packets {
        None => None,
        Some(packets) => Some(LoadWords {
            seed: words.seed,
            connections: words.connections,
            packets: Some(packets),
        }),
    }
}

/// These words with one option more.
fn with_load(words: LoadWords, name: &[u8], value: &[u8]) -> Option<LoadWords>
    ensures { result ≡ with_load words name.now value.now }
{
    if is(name, "--seed") {
        seed_named(words, unset(words.seed, number_within(value, 0, u64::MAX)))
    } else if is(name, "--connections") {
        connections_named(
            words,
            unset(words.connections, number_within(value, 1, 1_024)),
        )
    } else if is(name, "--packets") {
        packets_named(
            words,
            unset(words.packets, number_within(value, 1, 1_000_000)),
        )
    } else {
        None
    }
}

/// These words with the option of this name, and what the others say, of which the first is its value.
#[cycle(load_words)]
#[tactic(auto, using(crate::proofs::Reading::load_value, crate::proofs::Reading::load_valueless))]
fn load_named(words: LoadWords, name: &[u8], others: &[String]) -> Option<LoadWords>
    ensures { result ≡ load_named name.now (map string_bytes others.now) words }
{
    match others.split_first() {
        None => None,
        Some((value, rest)) => load_more(with_load(words, name, value.as_bytes()), rest),
    }
}

/// The words so far, where they are in the grammar, and what the others say.
#[cycle(load_words)]
fn load_more(words: Option<LoadWords>, others: &[String]) -> Option<LoadWords>
    ensures { result ≡ load_more words (map string_bytes others.now) }
{
    match words {
        None => None,
        Some(words) => load_from(words, others),
    }
}

/// These words, and what the others say.
#[cycle(load_words)]
#[tactic(auto, using(crate::proofs::Reading::load_first, crate::proofs::Reading::load_end))]
fn load_from(words: LoadWords, others: &[String]) -> Option<LoadWords>
    ensures { result ≡ load_words (map string_bytes others.now) words }
{
    match others.split_first() {
        None => Some(words),
        Some((name, rest)) => load_named(words, name.as_bytes(), rest),
    }
}

/// The plan of these numbers, where all are there and the server gets 1,000,000 packets at most.
fn plan_of(seed: Option<u64>, connections: Option<u64>, packets: Option<u64>) -> Option<Plan>
    ensures { result ≡ plan_of seed connections packets }
{
    match seed {
        None => None,
        Some(seed) => match connections {
            None => None,
            Some(connections) => match packets {
                None => None,
                Some(packets) => Plan::of(seed, connections, packets),
            },
        },
    }
}

impl LoadWords {
    ghost use Rattle.sw_serve_words.specs.Load.{plan_in, no_load};

    /// The plan that words say that stand behind `load`: all three options, in any order, each once, each with its value. None
    /// exactly where they are something else.
    pub fn plan(words: &[String]) -> Option<Plan>
        ensures { result ≡ plan_in (load_words (map string_bytes words.now) no_load) }
    {
        let none = LoadWords {
            seed: None,
            connections: None,
            packets: None,
        };
        match load_from(none, words) {
            None => None,
            Some(words) => plan_of(words.seed, words.connections, words.packets),
        }
    }
}
