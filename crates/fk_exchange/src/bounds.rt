ghost use Rattle.std.specs.Prelude.{◌<◌, ◌^◌};
ghost use Rattle.fk_base.specs.Pairs.{IsPairs};
ghost use Rattle.fk_exchange.specs.Sendable.{AreWithin};

use fk_base::{Ip4, Pairs};
use fk_client::Settings;
use fk_fields::Ask;

/// What the types keep of the settings that a client finds: so each of its requests is one that it can make.
pub fn settings_are_within(settings: &Settings)
    ensures { AreWithin settings.now }
{
    match &settings.ask {
        Ask::Access { ip, pairs } => keep_both(*ip, pairs),
        Ask::Timed { ip, pairs, .. } => keep_both(*ip, pairs),
    }
}

fn keep_both(ip: Ip4, pairs: &Pairs)
    ensures address { ip.0 < 2 ^ 32 }
    ensures pairs { IsPairs pairs.now }
{
    let _ = (ip.0, pairs.count());
}
