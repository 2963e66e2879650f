ghost use Rattle.std.specs.Prelude.{◌≡◌};
ghost use Rattle.fk_values.specs.Values.{flag_in};

/// Whether the value says yes, where it is a flag.
pub fn read_flag(value: &[u8]) -> Option<bool>
    ensures { result ≡ flag_in value.now }
{
    if value == b"Y".as_slice() {
        return Some(true);
    }
    if value == b"N".as_slice() {
        return Some(false);
    }
    None
}
