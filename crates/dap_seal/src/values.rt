//! The values of preparing, which may be missing.

ghost use Rattle.std.specs.Prelude.{◌≡◌, ◌&&◌, None, Ok, IfOk, false};
ghost use Rattle.std.specs.Option.{option_map};

use std::alloc::{AllocError, Global};
use vdaf_api::{PrepFault, Vdaf};

/// The prep message of both prep shares; none exactly where they have none, and however little memory there is where one
/// of them hasn't the form of a prep share.
pub fn combined<V: Vdaf>(
    alloc: Global,
    vdaf: &V,
    leader: &[u8],
    helper: &[u8],
) -> Result<Option<Vec<u8>>, AllocError>
    ensures value { IfOk result (λ message. option_map (λ v. v.items) message
        ≡ (V.functions vdaf.now).combine leader.now helper.now) }
    ensures form { ((V.functions vdaf.now).is_share leader.now && (V.functions vdaf.now).is_share helper.now) ≡ false
        → result ≡ Ok None }
{
    match vdaf.combine(alloc, leader, helper) {
        Ok(message) => Ok(Some(message)),
        Err(PrepFault::Invalid) => Ok(None),
        Err(PrepFault::NoMemory) => Err(AllocError),
    }
}

/// A state's out share after a prep message; none exactly where it has none, however little memory there is.
pub fn finished<V: Vdaf>(
    alloc: Global,
    vdaf: &V,
    prep: &V::Prep,
    message: &[u8],
) -> Result<Option<Vec<u8>>, AllocError>
    ensures value { IfOk result (λ share. option_map (λ v. v.items) share ≡ V.finish_of prep.now message.now) }
    ensures none { V.finish_of prep.now message.now ≡ None → result ≡ Ok None }
{
    match vdaf.finish(alloc, prep, message) {
        Ok(share) => Ok(Some(share)),
        Err(PrepFault::Invalid) => Ok(None),
        Err(PrepFault::NoMemory) => Err(AllocError),
    }
}
