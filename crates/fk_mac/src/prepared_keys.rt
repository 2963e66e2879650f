ghost use Rattle.std.specs.Prelude.{◌≡◌, ◌↔◌, ◌++◌, IsTrue};
ghost use Rattle.fk_mac.specs.Hmac.{mac_text};

use crate::MacKey;
use fk_base::Keys;
use std::marker::Model;

/// A pair of keys of which that of the HMAC is prepared, once for many packets. It is the pair, and says nothing else.
#[derive(Drop)]
pub struct PreparedKeys {
    keys: Keys,
    mac_key: MacKey,
}

impl Model for PreparedKeys {
    ghost use Rattle.fk_base.specs.declared.keys.Keys.{Keys};
    ghost use Rattle.fk_mac.specs.MacKey.{IsMacKey};

    ghost Value = { Keys };

    ghost view = { λ p. p.keys };

    ghost invariant = { λ p. IsMacKey p.mac_key p.keys.kind p.keys.mac_key };
}

impl PreparedKeys {
    pub fn new(keys: Keys) -> Self
        ensures { result ≡ keys }
    {
        let mac_key = MacKey::new(keys.kind, keys.mac_key.as_slice());
        PreparedKeys { keys, mac_key }
    }

    pub fn keys(&self) -> &Keys
        ensures { result.now ≡ self.now }
    {
        &self.keys
    }

    /// Whether `text` is the HMAC of `head` and then `tail` under them, as unpadded base64.
    pub fn verify(&self, head: &[u8], tail: &[u8], text: &[u8]) -> bool
        ensures { IsTrue result ↔ (text.now ≡ mac_text self.now.kind self.now.mac_key (head.now ++ tail.now)) }
    {
        self.mac_key.verify(head, tail, text)
    }
}
