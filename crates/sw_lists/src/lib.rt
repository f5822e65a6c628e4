//! Lists: what is collected of each item, beginnings, items that all meet something, rising numbers, interleavings and
//! other orders, with lemmas. There is no code here: contracts and laws of the crates above speak in these words.
#![tactic(auto)]
