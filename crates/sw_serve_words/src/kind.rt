//! Which of the program's calls the words of the command line ask for.
ghost use Rattle.std.specs.Prelude.{◌≡◌, map, string_bytes};
ghost use Rattle.sw_serve_words.specs.Kinds.{serve_kind, load_kind, kind_named, kind_of};

use crate::load::LoadWords;
use crate::serve::ServeWords;
use sw_load::Plan;
use sw_text::is;

/// What the words of the command line ask for.
#[derive(Clone, Copy, Debug, PartialEq, Eq)]
pub enum Kind {
    /// A server on a port.
    Serve(ServeWords),
    /// A server under a load in memory.
    Load(Plan),
    /// One of the other commands, or words that are none.
    Tool,
    /// Words behind `serve` or `load` that are out of their grammar.
    Usage,
}

fn serve_kind(words: Option<ServeWords>) -> Kind
    ensures { result ≡ serve_kind words }
{
    match words {
        None => Kind::Usage,
        Some(words) => Kind::Serve(words),
    }
}

fn load_kind(plan: Option<Plan>) -> Kind
    ensures { result ≡ load_kind plan }
{
    match plan {
        None => Kind::Usage,
        Some(plan) => Kind::Load(plan),
    }
}

/// What words ask for of which this is the first.
fn kind_named(first: &[u8], rest: &[String]) -> Kind
    ensures { result ≡ kind_named first.now (map string_bytes rest.now) }
{
    if is(first, "serve") {
        serve_kind(ServeWords::of(rest))
    } else if is(first, "load") {
        load_kind(LoadWords::plan(rest))
    } else {
        Kind::Tool
    }
}

/// What the words of the command line ask for; the program's own name isn't among them.
#[tactic(auto, using(crate::proofs::Reading::kind_first, crate::proofs::Reading::kind_none))]
pub fn kind_of(words: &[String]) -> Kind
    ensures { result ≡ kind_of (map string_bytes words.now) }
{
    match words.split_first() {
        None => Kind::Tool,
        Some((first, rest)) => kind_named(first.as_bytes(), rest),
    }
}
