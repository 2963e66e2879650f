ghost use Rattle.std.specs.Prelude.{◌≡◌, ℕ, List};
ghost use Rattle.fk_aes.specs.Cipher.{cipher, decipher};
ghost use Rattle.fk_base.specs.Bytes.{HasBytes};

/// The cipher makes a block of each block, and the inverse cipher gives that back.
pub fn decipher_undoes_cipher()
    ensures bytes { (key block : List ℕ) → HasBytes 32 key → HasBytes 16 block
        → HasBytes 16 (cipher key block) }
    ensures back { (key block : List ℕ) → HasBytes 32 key → HasBytes 16 block
        → decipher key (cipher key block) ≡ block }
{}

/// The inverse cipher makes a block of each block, and the cipher gives that back.
pub fn cipher_undoes_decipher()
    ensures bytes { (key block : List ℕ) → HasBytes 32 key → HasBytes 16 block
        → HasBytes 16 (decipher key block) }
    ensures back { (key block : List ℕ) → HasBytes 32 key → HasBytes 16 block
        → cipher key (decipher key block) ≡ block }
{}
