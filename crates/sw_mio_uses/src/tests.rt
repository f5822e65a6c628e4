//! One exchange over loopback.

use super::*;
use std::test::Fail;
use std::thread;
use sw_mio::MioNet;

#[test]
fn six_bytes_come_back(rt: HostRuntime) -> Result<(), Fail> {
    let mut net = MioNet::new(rt, 0, Some(1));
    let port = net.listen().expect(&rt, "a port of loopback");
    let peer = thread::spawn(&rt, move || ask(&rt, rt.alloc(), port, b"a\r\nb\r\n").ok())?;
    assert!(rt; echo_one(&rt, rt.alloc(), &mut net)? == 6);
    let answer = peer.join(&rt).expect(&rt, "an answer");
    assert!(rt; answer.as_slice() == b"a\r\nb\r\n".as_slice());
    Ok(())
}
