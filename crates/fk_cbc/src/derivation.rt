ghost use Rattle.std.specs.Prelude.{◌≡◌, ◌++◌};
ghost use Rattle.fk_cbc.specs.KeyDerivation.{cipher_key, initial_vector};
ghost use Rattle.md5.specs.Md5.{md5};

use md5::{Digest, Md5};

/// The key and the IV of the cipher that a key and a salt give. Any length of the key will do.
pub fn derive(key: &[u8], salt: [u8; 8]) -> ([u8; 32], [u8; 16])
    ensures cipher_key { result.0 ≡ cipher_key key.now salt }
    ensures initial_vector { result.1 ≡ initial_vector key.now salt }
{
    let first = digest_after(&[], key, salt);
    let second = digest_after(&first, key, salt);
    let third = digest_after(&second, key, salt);
    (joined(first, second), third)
}

// The digest that follows another in the chain.
fn digest_after(before: &[u8], key: &[u8], salt: [u8; 8]) -> [u8; 16]
    ensures { result ≡ md5 (before.now ++ key.now ++ salt) }
{
    let mut hasher = Md5::new();
    hasher.update(before);
    hasher.update(key);
    hasher.update(&salt);
    hasher.finalize()
}

fn joined(front: [u8; 16], back: [u8; 16]) -> [u8; 32]
    ensures { result ≡ front ++ back }
{
    let mut bytes = [0; 32];
    bytes[..16].copy_from_slice(&front);
    bytes[16..].copy_from_slice(&back);
    bytes
}
