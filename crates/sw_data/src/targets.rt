//! The worker to which a packet goes.

ghost use Rattle.std.specs.Prelude.{◌≡◌, ◌<◌};
ghost use Rattle.sw_data.specs.Targets.{fixed_target, ip_target, uid_target, round_target};

/// Gives the worker of a descriptor among `w` workers, where each connection keeps its worker: `fd mod w`.
pub fn fixed(fd: u32, w: u32) -> u32
    requires { 0 < w }
    ensures value { result ≡ fixed_target fd w }
    ensures below { result < w }
{
    fd % w
}

/// Gives the worker of an address among `w` workers: `ip mod w`, where the IPv4 address is a big-endian number.
pub fn by_ip(ip: u32, w: u32) -> u32
    requires { 0 < w }
    ensures value { result ≡ ip_target ip w }
    ensures below { result < w }
{
    ip % w
}

/// Gives the worker of a uid among `w` workers: `uid mod w`, and that of the descriptor where no uid is bound, which is 0.
pub fn by_uid(fd: u32, uid: u32, w: u32) -> u32
    requires { 0 < w }
    ensures value { result ≡ uid_target fd uid w }
    ensures below { result < w }
{
    if uid == 0 { fd % w } else { uid % w }
}

/// Gives the worker of a position among `w` workers, round by round: `k mod w`.
pub fn round(k: u64, w: u32) -> u32
    requires { 0 < w }
    ensures value { result ≡ round_target k w }
    ensures below { result < w }
{
    (k % w as u64) as u32
}
