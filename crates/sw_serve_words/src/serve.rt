//! The words behind `serve`.
ghost use Rattle.std.specs.Prelude.{◌≡◌, map, string_bytes};
ghost use Rattle.sw_serve_words.specs.Serve.{port_named, with_port, accept_named, with_serve, serve_named, serve_more, serve_words};
ghost use Rattle.sw_text.specs.Numbers.{number_within};

use crate::once::unset;
use sw_text::{is, number_within};

/// What the words behind `serve` say.
#[derive(Clone, Copy, Debug, PartialEq, Eq)]
pub struct ServeWords {
    /// The port of 127.0.0.1 to listen on, where one is named: 0 to 65,535, 0 for one that the system picks.
    pub port: Option<u16>,
    /// After how many links the net ends, where a number is named: 1 to 4,294,967,295.
    pub accept: Option<u64>,
}

/// The port of these words, where it is one.
fn port_in(word: &[u8]) -> Option<u16>
    ensures { result ≡ number_within 0 65535 word.now }
{
    match number_within(word, 0, 65_535) {
        None => None,
        Some(port) => Some(port as u16),
    }
}

/// These words with a port, where none was named yet.
fn with_port(words: ServeWords, word: &[u8]) -> Option<ServeWords>
    ensures { result ≡ with_port words.port words word.now }
{
    match words.port {
        Some(_) => None,
        None => port_named(words, port_in(word)),
    }
}

/// These words with a port.
fn port_named(words: ServeWords, port: Option<u16>) -> Option<ServeWords>
    ensures { result ≡ port_named words port }
{
    match port {
        None => None,
        Some(port) => Some(ServeWords {
            port: Some(port),
            accept: words.accept,
        }),
    }
}

/// These words with a number of links.
fn accept_named(words: ServeWords, accept: Option<u64>) -> Option<ServeWords>
    ensures { result ≡ accept_named words accept }
{
    match accept {
        None => None,
        Some(accept) => Some(ServeWords {
            port: words.port,
            accept: Some(accept),
        }),
    }
}

/// These words with one option more.
fn with_serve(words: ServeWords, name: &[u8], value: &[u8]) -> Option<ServeWords>
    ensures { result ≡ with_serve words name.now value.now }
{
    if is(name, "--port") {
        with_port(words, value)
    } else if is(name, "--accept") {
        accept_named(
            words,
            unset(words.accept, number_within(value, 1, 4_294_967_295)),
        )
    } else {
        None
    }
}

/// These words with the option of this name, and what the others say, of which the first is its value.
#[cycle(serve_words)]
#[tactic(auto, using(crate::proofs::Reading::serve_value, crate::proofs::Reading::serve_valueless))]
fn serve_named(words: ServeWords, name: &[u8], others: &[String]) -> Option<ServeWords>
    ensures { result ≡ serve_named name.now (map string_bytes others.now) words }
{
    match others.split_first() {
        None => None,
        Some((value, rest)) => serve_more(with_serve(words, name, value.as_bytes()), rest),
    }
}

/// The words so far, where they are in the grammar, and what the others say.
#[cycle(serve_words)]
fn serve_more(words: Option<ServeWords>, others: &[String]) -> Option<ServeWords>
    ensures { result ≡ serve_more words (map string_bytes others.now) }
{
    match words {
        None => None,
        Some(words) => serve_from(words, others),
    }
}

/// These words, and what the others say.
#[cycle(serve_words)]
#[tactic(auto, using(crate::proofs::Reading::serve_first, crate::proofs::Reading::serve_end))]
fn serve_from(words: ServeWords, others: &[String]) -> Option<ServeWords>
    ensures { result ≡ serve_words (map string_bytes others.now) words }
{
    match others.split_first() {
        None => Some(words),
        Some((name, rest)) => serve_named(words, name.as_bytes(), rest),
    }
}

impl ServeWords {
    ghost use Rattle.sw_serve_words.specs.Serve.{serve_words, no_serve};

    /// What words say that stand behind `serve`: options in any order, each at most once, each with its value. None exactly
    /// where they are something else.
    pub fn of(words: &[String]) -> Option<ServeWords>
        ensures { result ≡ serve_words (map string_bytes words.now) no_serve }
    {
        serve_from(
            ServeWords {
                port: None,
                accept: None,
            },
            words,
        )
    }
}
