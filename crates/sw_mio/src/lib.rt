//! The edge to the system's sockets: links and the net over `mio`, what a thread sleeps on, and the bell that ends its sleep.
//! Stands beside the forms in memory of `sw_link`; nothing below knows of it.
#![tactic(auto)]

mod bell;
mod mio_link;
mod mio_net;
mod readiness;
mod site;

pub use bell::Bell;
pub use mio_link::MioLink;
pub use mio_net::MioNet;
pub use readiness::Readiness;
pub use site::Site;
