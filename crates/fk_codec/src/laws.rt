ghost use Rattle.std.specs.Prelude.{◌≡◌, ◌↔◌, ℕ, ◌≤◌, List, Ok, length};
ghost use Rattle.fk_fields.specs.declared.fields.Fields.{Fields};
ghost use Rattle.fk_codec.specs.DecodeFault.{decoded};
ghost use Rattle.fk_codec.specs.Spells.{Spells};

/// The fields that are decoded from a text are those that spell it. So no text spells two.
pub fn plaintexts_are_decoded()
    ensures { (text : List ℕ) (fields : Fields) → (decoded text ≡ Ok fields) ↔ Spells fields text }
{}

/// A plaintext has 67 to 464 bytes.
pub fn plaintexts_have_len()
    ensures least { (fields : Fields) (text : List ℕ) → Spells fields text → 67 ≤ length text }
    ensures most { (fields : Fields) (text : List ℕ) → Spells fields text → length text ≤ 464 }
{}
