//! What definitions name by a constant of the code. The function is a law, and does nothing.
ghost use Rattle.std.specs.Prelude.{◌≡◌, ◌++◌, ◌∷◌, [], codes};
ghost use Rattle.fk_client.specs.declared.help.TheConstants.{VERSION};

/// The text of `--version`: a line that names the program, and the version that packets carry.
pub fn version_has_its_text()
    ensures { VERSION.now ≡ codes "fwknop 0.1 (Viltsoem, packets 3.0.0)" ++ 10 ∷ [] }
{}
