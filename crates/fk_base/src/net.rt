ghost use Rattle.std.specs.Prelude.{◌≡◌, ◌≤◌, ◌-◌, ◌^◌, ◌%◌};

use crate::Ip4;

/// All addresses that begin with the same bits (RFC 4632). The bits of the base behind them are 0.
#[derive(Clone, Copy, Debug, PartialEq, Eq)]
pub struct Net4 {
    pub base: Ip4,
    /// How many bits, from 0 to 32.
    pub bits: u8,
    ghost few: { bits ≤ 32 },
    ghost clear: { base.0 % 2 ^ (32 - bits) ≡ 0 },
}

impl Net4 {
    ghost use Rattle.fk_base.specs.Net.{covers, cleared};

    /// The net of the address's first bits.
    pub(crate) fn of(ip: Ip4, bits: u8) -> Self
        requires { bits ≤ 32 }
        ensures bits { result.bits ≡ bits }
        ensures base { result.base.0 ≡ cleared bits ip }
    {
        let further = 32 - bits;
        Net4 {
            base: Ip4(((u64::from(ip.0) >> further) << further) as u32),
            bits,
        }
    }

    /// Whether the address is one of the net's.
    pub fn covers(self, ip: Ip4) -> bool
        ensures { result ≡ covers self ip }
    {
        let further = 32 - self.bits;
        u64::from(self.base.0) >> further == u64::from(ip.0) >> further
    }
}
