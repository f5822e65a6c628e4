//! Histories: what each actor took and pushed, what its handler was given and did, and which links it keeps; and what
//! stands among messages and logs. There is no code here: the laws of the actors speak in these words.
#![tactic(auto)]
