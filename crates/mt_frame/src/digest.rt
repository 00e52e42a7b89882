//! The digest of a frame.

ghost use Rattle.std.specs.Prelude.{◌≡◌};
ghost use Rattle.mt_frame.specs.Digest.{digest};

use std::hash::{DefaultHasher, Hasher};

/// SipHash-1-3 of the generation, the place of the frame in its file, and its content. It tells decay, and no proof
/// rests on it.
#[tactic(auto, unfolding(crate::specs::Digest::digest))]
pub fn digest_of(generation: u64, place: u64, content: &[u8]) -> u64
    ensures { result ≡ digest generation place content.now }
{
    let mut hasher = DefaultHasher::new();
    hasher.write(&generation.to_be_bytes());
    hasher.write(&place.to_be_bytes());
    hasher.write(content);
    hasher.finish()
}
