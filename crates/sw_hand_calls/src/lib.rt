//! The calls that a turn of a hand makes on its handler and its ports, as one list in order, and that they were made. No
//! code stands here.
#![tactic(auto)]
