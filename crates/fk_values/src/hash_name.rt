ghost use Rattle.std.specs.Prelude.{◌≡◌, ◌||◌};
ghost use Rattle.std.specs.Str.{bytes_eq};
ghost use Rattle.fk_values.specs.Values.{hash_in};

use fk_base::HashKind;

/// The hash that the value names, in upper case letters or in lower case letters.
pub fn read_hash_name(value: &[u8]) -> Option<HashKind>
    ensures { result ≡ hash_in value.now }
{
    if is_either(value, b"MD5", b"md5") {
        return Some(HashKind::Md5);
    }
    if is_either(value, b"SHA1", b"sha1") {
        return Some(HashKind::Sha1);
    }
    if is_either(value, b"SHA256", b"sha256") {
        return Some(HashKind::Sha256);
    }
    if is_either(value, b"SHA384", b"sha384") {
        return Some(HashKind::Sha384);
    }
    if is_either(value, b"SHA512", b"sha512") {
        return Some(HashKind::Sha512);
    }
    None
}

fn is_either(value: &[u8], upper: &[u8], lower: &[u8]) -> bool
    ensures { result ≡ (bytes_eq value.now upper.now || bytes_eq value.now lower.now) }
{
    value == upper || value == lower
}
