ghost use Rattle.std.specs.Prelude.{◌≡◌};
ghost use Rattle.fk_values.specs.Values.{is_host, is_unbroken};

use fk_lines::is_blank;

/// The most bytes of a host's address or name.
const HOST_LIMIT: usize = 255;

/// Whether the text is an address or a name of a host: 1 to 255 bytes without a blank.
pub fn is_host(text: &[u8]) -> bool
    ensures { result ≡ is_host text.now }
{
    !text.is_empty() && text.len() <= HOST_LIMIT && is_unbroken(text)
}

/// Whether no space and no tab stands in the text.
pub fn is_unbroken(text: &[u8]) -> bool
    ensures { result ≡ is_unbroken text.now }
{
    text.iter().all(|byte| !is_blank(*byte))
}
