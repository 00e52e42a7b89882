//! The key at whose place tidies follow its remove.

ghost use Rattle.std.specs.Prelude.{◌≡◌, ◌<◌, ◌≤◌, IfErr, IfOk, IfSome, None, Ok, length};
ghost use Rattle.mt_types.specs.declared.limits.TheConstants.{MAX_KEY_BYTES};
ghost use Rattle.mt_types.specs.declared.event.Request.TheVariants.{Remove};
ghost use Rattle.mt_walk.specs.Removes.{RemovesNone, RemovesWithin};

use bytes::Bytes;
use mt_types::event::Request;
use mt_types::key::Key;
use mt_types::limits::MAX_KEY_BYTES;
use mt_types::refusal::NoMemory;

/// The most tidies that follow one remove. A remove can call for one in each layer of its key, and for two at each
/// interior node above its border.
pub const MAX_TIDIES: u64 = 256;

/// Returns a copy of a key at which tidies may follow its remove, or `None` if it is too long to be removed. Copies no
/// bytes.
///
/// # Errors
///
/// `NoMemory` if memory for it is refused.
pub fn place_of_key(key: &Bytes) -> Result<Option<Key>, NoMemory>
    ensures some { IfOk result (λ found. IfSome found (λ place. place ≡ key.now)) }
    ensures none { result ≡ Ok None → MAX_KEY_BYTES < length key.now }
    ensures err { IfErr result (λ _. length key.now ≤ MAX_KEY_BYTES) }
{
    if key.len() > MAX_KEY_BYTES {
        return Ok(None);
    }
    match Key::new(key.clone()?) {
        Ok(place) => Ok(Some(place)),
        Err(_) => unreachable!(),
    }
}

/// Returns a copy of the key that a request may remove, or `None` if it is no remove, or its key is too long. Copies no
/// bytes.
///
/// # Errors
///
/// `NoMemory` if memory for it is refused.
pub fn place_of(request: &Request) -> Result<Option<Key>, NoMemory>
    ensures some { IfOk result (λ found. IfSome found (λ place. request.now ≡ Remove place)) }
    ensures none { result ≡ Ok None → RemovesNone request.now }
    ensures err { IfErr result (λ _. RemovesWithin request.now) }
{
    match request {
        Request::Remove { key } => place_of_key(key),
        _ => Ok(None),
    }
}
