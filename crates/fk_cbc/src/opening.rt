ghost use Rattle.std.specs.Prelude.{◌≡◌, ◌↔◌, ℕ, ◌+◌, ◌*◌, ◌/◌, List, Some, length};
ghost use Rattle.fk_base.specs.Bytes.{IsBytes};
ghost use Rattle.fk_cbc.specs.Opens.{opened};
ghost use Rattle.fk_cbc.specs.Seals.{Seals};

/// A key opens bytes to a plaintext exactly where that was sealed to them, under some salt.
pub fn sealed_bytes_are_opened()
    ensures { (key plain sealed : List ℕ) → IsBytes sealed
        → (opened key sealed ≡ Some plain) ↔ ((salt : List ℕ) × Seals key salt plain sealed) }
{}

/// What is sealed has the mark, the salt and each block begun, with one more where the last is full; and it is bytes.
pub fn sealed_bytes_have_len()
    ensures len { (key salt plain sealed : List ℕ) → Seals key salt plain sealed → length sealed ≡ 32 + length plain / 16 * 16 }
    ensures bytes { (key salt plain sealed : List ℕ) → Seals key salt plain sealed → IsBytes sealed }
{}
