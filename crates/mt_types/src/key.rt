//! Keys: byte strings of limited length, in lexicographic order.

ghost use Rattle.std.specs.Prelude.{◌≡◌, ◌<◌, ◌≤◌, ◌↔◌, length, IfOk, IfErr, IsErrOf};

use crate::copying::TryCopy;
use crate::limits::MAX_KEY_BYTES;
use crate::refusal::{NoMemory, Refusal};
use bytes::Bytes;
use std::alloc::Global;
use std::cmp::Ordering;
use std::marker::Model;

/// A key: at most `MAX_KEY_BYTES` bytes. Keys are ordered by their bytes from the first on, and a proper prefix of a
/// key is before it.
#[derive(Debug, Drop)]
pub struct Key {
    bytes: Bytes,
}

impl Model for Key {
    ghost use Rattle.std.specs.Prelude.{ℕ, List, length, ◌≤◌};
    ghost use Rattle.mt_types.specs.declared.limits.TheConstants.{MAX_KEY_BYTES};

    ghost Value = { List ℕ };

    ghost view = { λ k. k.bytes };

    ghost invariant = { λ k. length k.bytes ≤ MAX_KEY_BYTES };
}

impl Key {
    /// Returns the key of `bytes`. Allocates nothing.
    ///
    /// # Errors
    ///
    /// `KeyTooLong` if there are more than `MAX_KEY_BYTES` bytes.
    pub fn new(bytes: Bytes) -> Result<Key, Refusal>
        ensures kept { IfOk result (λ key. key ≡ bytes) }
        ensures refused { IsErrOf result Refusal.KeyTooLong ↔ (MAX_KEY_BYTES < length bytes) }
        ensures only { IfErr result (λ refusal. refusal ≡ Refusal.KeyTooLong) }
    {
        if bytes.len() > MAX_KEY_BYTES {
            return Err(Refusal::KeyTooLong);
        }
        Ok(Key { bytes })
    }

    /// Returns the bytes as a slice, at most `MAX_KEY_BYTES`.
    pub fn as_slice(&self) -> &[u8]
        ensures value { result.now ≡ self.now }
        ensures fits { length self.now ≤ MAX_KEY_BYTES }
    {
        self.bytes.as_slice()
    }

    /// Returns the bytes, at most `MAX_KEY_BYTES`. Copies nothing.
    pub fn into_bytes(self) -> Bytes
        ensures value { result ≡ self }
        ensures fits { length self ≤ MAX_KEY_BYTES }
    {
        let Key { bytes } = self;
        bytes
    }

    /// Returns an equal key whose bytes are its own: what keeps it keeps no frame that the key was read of. Copies the
    /// bytes, with two allocations.
    ///
    /// # Errors
    ///
    /// `NoMemory` if an allocation is refused.
    pub fn detached(&self, alloc: Global) -> Result<Key, NoMemory>
        ensures { IfOk result (λ made. made ≡ self.now) }
    {
        Ok(Key {
            bytes: Bytes::copy_from_slice(alloc, self.as_slice())?,
        })
    }
}

impl TryCopy for Key {
    /// Shares the bytes, and does not copy them.
    fn copy(&self, alloc: Global) -> Result<Key, NoMemory> {
        Ok(Key {
            bytes: self.bytes.copy(alloc)?,
        })
    }
}

impl PartialEq for Key {
    ghost use Rattle.std.specs.Prelude.{nat_eq};
    ghost use Rattle.std.specs.Cmp.{partial_equiv_from_equiv};
    ghost use Rattle.std.specs.Cmp.Lexicographic.{pointwise, nat_list_eq_equiv};

    ghost eq = { pointwise nat_eq };

    ghost laws = { partial_equiv_from_equiv nat_list_eq_equiv };

    /// O(n) in the bytes.
    fn eq(&self, other: &Key) -> bool {
        self.bytes == other.bytes
    }
}

impl Eq for Key {
    ghost use Rattle.std.specs.Cmp.Lexicographic.{nat_list_eq_equiv};

    ghost laws = { nat_list_eq_equiv };
}

impl PartialOrd for Key {
    ghost use Rattle.std.specs.Prelude.{Some};
    ghost use Rattle.std.specs.Cmp.Lexicographic.{texts_po};
    ghost use Rattle.mt_types.specs.Keys.{key_cmp};

    ghost partial_cmp = { λ x y. Some (key_cmp x y) };

    ghost laws = { texts_po };

    /// O(n) in the bytes. Returns `Some` for any two keys.
    fn partial_cmp(&self, other: &Key) -> Option<Ordering> {
        Some(self.cmp(other))
    }
}

impl Ord for Key {
    ghost use Rattle.std.specs.Prelude.{refl};
    ghost use Rattle.std.specs.Cmp.Lexicographic.{nat_list_cmp_total, texts_ties};
    ghost use Rattle.mt_types.specs.Keys.{key_cmp};

    ghost cmp = { key_cmp };

    ghost total = { nat_list_cmp_total };

    ghost matches_partial_cmp = { λ x y. refl };

    ghost matches_eq = { texts_ties };

    /// Compares the bytes from the first on. A proper prefix is less. O(n) in the bytes of the shorter key.
    fn cmp(&self, other: &Key) -> Ordering {
        self.bytes.cmp(&other.bytes)
    }
}
