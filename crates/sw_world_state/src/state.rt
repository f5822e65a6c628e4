//! The core's code at one moment.

use sw_port_board::PlainBoard;
use sw_port_book::PlainBook;
use sw_tmodel::Plain;
use sw_world_crew::Crew;
use sw_world_front::Front;
use sw_world_places::Places;
use sw_world_reactors::Reactors;

/// All actors with their places, what they share, the links, and how many descriptors there are.
#[derive(Drop)]
pub struct State<H, T> {
    pub front: Front,
    pub places: Places,
    pub book: PlainBook,
    pub board: PlainBoard,
    pub shelf: Plain,
    pub reactors: Reactors,
    pub crew: Crew<H, T>,
    pub max_conn: u32,
}
