//! A connection's code does what the table says. The functions do nothing: their clauses are the theorems.
ghost use Rattle.std.specs.Prelude.{◌≡◌, ℕ, List, Option};
ghost use Rattle.sw_link.specs.declared.link.LinkWrite.{LinkWrite};
ghost use Rattle.sw_conn.specs.declared.conn.Conn.{Conn};
ghost use Rattle.sw_conn.specs.declared.serve.Step.{Step};
ghost use Rattle.sw_conn.specs.Conn.{cleared};
ghost use Rattle.sw_conn.specs.Serve.{FlushedBy, Chooses};
ghost use Rattle.sw_record.specs.Terms.{Terms};
ghost use Rattle.sw_conn_fits.specs.Shown.{settings, IsCut, IsServed};

use sw_link::Link;

/// The parts of a serve, in the order in which a reactor calls them, are the table's serve.
pub fn a_serve_is_the_tables<L: Link, K>()
    ensures { (t : Terms) (pieces : List (List ℕ))
        (written : List ℕ) (n : ℕ) (c l d : Conn L K) (wrote : Option LinkWrite) (step : Step) → IsCut t pieces n c →
        FlushedBy L.write_gives c wrote l → Chooses (settings t) (cleared l) d step →
        IsServed t pieces written n c d wrote step }
{}
