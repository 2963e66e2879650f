ghost use Rattle.std.specs.Prelude.{◌≤◌};

/// What the daemon's configuration says.
#[derive(Clone, Copy, Debug)]
pub struct Conf {
    /// How many seconds a packet's stamp may lie from the moment at which it comes, on either side: 1 to 31536000.
    pub age: u32,
    /// The UDP port that packets come to.
    pub port: u16,
    /// How many records may be live at once: 1 to 4096.
    pub live: u32,
    /// How many bytes the journal may have: 16 to 67108864.
    pub room: u64,
    /// How many seconds a digest is kept at least, where a full journal begins anew: from the age to 31536000.
    pub keep: u32,
    ghost age_within: { (1 ≤ age) × (age ≤ 31536000) },
    ghost has_port: { 1 ≤ port },
    ghost live_within: { (1 ≤ live) × (live ≤ 4096) },
    ghost room_within: { (16 ≤ room) × (room ≤ 67108864) },
    ghost keep_within: { (age ≤ keep) × (keep ≤ 31536000) },
}
