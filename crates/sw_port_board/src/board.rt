//! The words that all actors share: who of a crew is idle, whether to stop, and what was counted.
ghost use Rattle.std.specs.Prelude.{◌≡◌, ◌<◌, List, [], ◌∷◌};
ghost use Rattle.sw_port_board.specs.Board.{members, FindsIdle, SumsUp};
ghost use Rattle.sw_port_board.specs.declared.board.BoardStep.{BoardStep};
ghost use Rattle.sw_port_board.specs.declared.board.BoardStep.TheVariants.{Marked, Stopped, SawStop, Added};
ghost use Rattle.sw_port_board.specs.declared.crew.Sizes.{Sizes};

use crate::crew::Crew;
use sw_base::Counter;

/// One step on a board's words: what was stored, or what was found. Contracts speak of lists of these; no value of it is made.
pub enum BoardStep {
    /// The own idle word was stored: whether idle.
    Marked(bool),
    /// This actor's idle word was found so: whether idle.
    Found(u32, bool),
    /// The stop word was set.
    Stopped,
    /// The stop word was found so: whether set.
    SawStop(bool),
    /// The own word of a counter was stored, one more than it was, as far as it goes.
    Added(Counter),
    /// This actor's word of a counter was found so.
    Read(Counter, u32, u64),
}

/// The board as one actor has it. No call waits or takes memory.
///
/// At first each idle word is busy, the stop word is not set, and each counter is 0.
pub trait Board {
    /// How many actors there are. No call changes it.
    ghost sizes: { Self → Sizes };

    /// From this board, these steps may be made in this order, and leave that board.
    ghost goes: { Self → List BoardStep → Self → Type 0 };

    /// Stores whether this actor is idle. Of an actor that is in no crew, no call ever reads it.
    fn mark(&mut self, idle: bool)
        ensures steps { goes self.old (Marked idle ∷ []) self.new }
        ensures same { sizes self.new ≡ sizes self.old };

    /// The first member of a crew whose word is found idle, from `from` upwards and round. None exactly where each is found busy.
    fn idle(&mut self, crew: Crew, from: u32) -> Option<u32>
        requires { from < members crew (sizes self.old) }
        ensures steps { FindsIdle goes (sizes self.old) crew from self.old result self.new }
        ensures same { sizes self.new ≡ sizes self.old };

    /// Sets the stop word, for good.
    fn stop(&mut self)
        ensures steps { goes self.old (Stopped ∷ []) self.new }
        ensures same { sizes self.new ≡ sizes self.old };

    /// Whether the stop word is found set.
    fn stopped(&mut self) -> bool
        ensures steps { goes self.old (SawStop result ∷ []) self.new }
        ensures same { sizes self.new ≡ sizes self.old };

    /// Adds one to this actor's word of a counter, which stops at 18,446,744,073,709,551,615.
    fn add(&mut self, c: Counter)
        ensures steps { goes self.old (Added c ∷ []) self.new }
        ensures same { sizes self.new ≡ sizes self.old };

    /// The sum of all actors' words of a counter, each read once. It stops at 18,446,744,073,709,551,615.
    fn sum(&mut self, c: Counter) -> u64
        ensures steps { SumsUp goes (sizes self.old) c self.old result self.new }
        ensures same { sizes self.new ≡ sizes self.old };
}
