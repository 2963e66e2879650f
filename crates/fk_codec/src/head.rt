ghost use Rattle.std.specs.Prelude.{◌≡◌, ◌≤◌, ◌∷◌, ◌==◌, ◌||◌, false, length, MatchOption, MatchResult, None, Some};
ghost use Rattle.fk_base.specs.Decimal.{decimal_value};
ghost use Rattle.fk_base.specs.FirstFailed.{first_failed};
ghost use Rattle.fk_codec.specs.DecodeFault.{decode_tests, head_tests, user_in};
ghost use Rattle.fk_codec.specs.Private.{type_number};

use crate::DecodeFault;
use fk_base::{GREATEST_MOMENT, Parts, find_number};
use fk_fields::{Rand, is_user, is_version};
use fk_text::{ShortBytes, take_short};

/// The first five parts of a plaintext.
#[derive(Drop)]
pub(crate) struct Head<'a> {
    pub(crate) rand: &'a [u8],
    pub(crate) user: &'a [u8],
    pub(crate) stamp: &'a [u8],
    pub(crate) version: &'a [u8],
    pub(crate) request_type: &'a [u8],
}

/// The two types of request that are served.
#[derive(Clone, Copy)]
pub(crate) enum RequestType {
    Access,
    Timed,
}

/// What the first five parts say; the version stands for itself.
#[derive(Drop)]
pub(crate) struct HeadValues {
    pub(crate) rand: Rand,
    pub(crate) user: ShortBytes,
    pub(crate) stamp: u64,
    pub(crate) request_type: RequestType,
}

/// Takes the first five parts.
pub(crate) fn cut_head<'a>(parts: &mut Parts<'a>) -> Result<Head<'a>, DecodeFault>
    ensures { MatchResult result
        (λ h. parts.old ≡ h.rand.now ∷ h.user.now ∷ h.stamp.now ∷ h.version.now ∷ h.request_type.now ∷ parts.new)
        (λ fault. first_failed (decode_tests parts.old) ≡ Some fault) }
{
    let Some(rand) = parts.next() else {
        return Err(DecodeFault::Missing(1));
    };
    let Some(user) = parts.next() else {
        return Err(DecodeFault::Missing(2));
    };
    let Some(stamp) = parts.next() else {
        return Err(DecodeFault::Missing(3));
    };
    let Some(version) = parts.next() else {
        return Err(DecodeFault::Missing(4));
    };
    let Some(request_type) = parts.next() else {
        return Err(DecodeFault::Missing(5));
    };
    Ok(Head {
        rand,
        user,
        stamp,
        version,
        request_type,
    })
}

/// What the first five parts say.
pub(crate) fn read_head(head: &Head<'_>) -> Result<HeadValues, DecodeFault>
    ensures { let tests = head_tests head.now.rand.now head.now.user.now head.now.stamp.now head.now.version.now head.now.request_type.now in
        MatchResult result
        (λ v. (first_failed tests ≡ None) × (head.now.rand.now ≡ v.rand) × (user_in head.now.user.now ≡ Some v.user)
        × (decimal_value head.now.stamp.now ≡ v.stamp) × (decimal_value head.now.request_type.now ≡ type_number v.request_type))
        (λ fault. first_failed tests ≡ Some fault) }
{
    let Some(rand) = Rand::read(head.rand) else {
        return Err(DecodeFault::Bad(1));
    };
    let Some(user) = find_user(head.user) else {
        return Err(DecodeFault::Bad(2));
    };
    let Some(stamp) = find_number(head.stamp, GREATEST_MOMENT) else {
        return Err(DecodeFault::Bad(3));
    };
    if !is_version(head.version) {
        return Err(DecodeFault::Bad(4));
    }
    let Some(number) = find_number(head.request_type, 6) else {
        return Err(DecodeFault::Bad(5));
    };
    let request_type = served_type(number)?;
    Ok(HeadValues {
        rand,
        user,
        stamp,
        request_type,
    })
}

fn served_type(number: u64) -> Result<RequestType, DecodeFault>
    requires { number ≤ 6 }
    ensures { MatchResult result
        (λ request_type. number ≡ type_number request_type)
        (λ fault. ((number == 1 || number == 3) ≡ false) × (fault ≡ DecodeFault.KindOut number)) }
{
    match number {
        1 => Ok(RequestType::Access),
        3 => Ok(RequestType::Timed),
        other => Err(DecodeFault::KindOut(other as u8)),
    }
}

/// The user whose base64 a part is.
fn find_user(part: &[u8]) -> Option<ShortBytes>
    ensures { MatchOption result (user_in part.now ≡ None) (λ user. user_in part.now ≡ Some user) }
{
    if part.len() > 256 {
        return None;
    }
    let user = take_short(part)?;
    if is_user(user.as_slice()) {
        Some(user)
    } else {
        None
    }
}
