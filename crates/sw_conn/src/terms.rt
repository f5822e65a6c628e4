//! The settings that a connection goes by.
ghost use Rattle.std.specs.Prelude.{◌≡◌, ◌<◌};
ghost use Rattle.sw_conn.specs.Modes.{keeps, bound};

/// The settings that reactors and their connections go by, made from numbers.
#[derive(Clone, Copy, Debug)]
pub struct Terms {
    /// How packets go to workers: 1 round by round, 2 by descriptor, 3 to an idle one, 4 by address, 5 by uid.
    pub mode: u32,
    /// The number of workers, at least 1.
    pub worker_num: u32,
    /// The number of task workers.
    pub tasker_num: u32,
    /// The number of descriptors, at least 1: a session's is its number modulo this.
    pub max_conn: u32,
    /// The most unsent bytes of a connection.
    pub buffer_size: u64,
}

impl Terms {
    /// Whether the mode keeps each connection at one worker: only its Closed awaits a Bye there.
    pub fn keeps(&self) -> bool
        ensures { result ≡ keeps self.now.mode }
    {
        self.mode == 2 || self.mode == 4
    }

    /// Whether the mode ties each connection to workers, which are told of Connect and Closed.
    pub fn bound(&self) -> bool
        ensures { result ≡ bound self.now.mode }
    {
        self.keeps() || self.mode == 5
    }
}
