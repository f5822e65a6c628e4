//! A type that names what a server's actors share.

use std::marker::Brand;

/// Names a server's session words, its board and its Table, so that what is of them is known by its type, also where it
/// came through a pipe. No value of such a type is made.
pub trait Naming {
    ghost use Rattle.atomic_table.specs.Seated.{TableId};
    ghost use Rattle.sw_board.specs.Values.{BoardId};
    ghost use Rattle.sw_table_join.specs.Tables.{SharedNow};

    /// The session words.
    ghost book: { TableId };

    /// The board.
    ghost board: { BoardId };

    /// The Table.
    ghost table: { SharedNow };
}

impl Naming for Brand {
    ghost use Rattle.sw_shared.specs.Nothing.{no_words, no_board, no_table};

    ghost book = { no_words };

    ghost board = { no_board };

    ghost table = { no_table };
}
