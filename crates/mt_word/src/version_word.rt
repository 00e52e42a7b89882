//! The version word of a node: its lock, its other flags, and its two counters.

ghost use Rattle.std.specs.Prelude.{◌≡◌, IfSome, IsSome, IsTrue, IsOk, IsErr, OnOk, OnErr, ◌↔◌, ◌+◌, ◌-◌, ◌*◌, ◌/◌, ◌%◌, ◌^◌, ◌<◌, ◌≤◌, true, false};
ghost use Rattle.mt_word.specs.Version.{IsVersion, IsVersionWord, IsUnspent, VersionView, is_flagged, inserted, split, unlocked, version_of_word, word_of_version};

use std::marker::Model;

const LOCKED: u128 = 1;

const INSERTING: u128 = 1 << 1;

const SPLITTING: u128 = 1 << 2;

const DELETED: u128 = 1 << 3;

const BORDER: u128 = 1 << 4;

// Bits 5 to 7.
const SPARE: u128 = 0xe0;

const VINSERT_SHIFT: u32 = 8;

const VSPLIT_SHIFT: u32 = 64;

/// The greatest value of `vinsert`.
pub const MAX_INSERTS: u64 = (1 << 56) - 1;

/// The greatest value of `vsplit`.
pub const MAX_SPLITS: u64 = u64::MAX;

/// A counter of a `Version` is at its greatest value, and cannot be raised.
#[derive(Clone, Copy, PartialEq, Eq, Debug)]
pub struct SpentCounter;

/// The version of a node: its lock, whether keys are being inserted into it, whether it is being
/// split, is deleted or is a border node, and how often it was changed (Masstree, EuroSys 2012,
/// section 4.5).
///
/// One word of 128 bits: bit 0 locked, 1 inserting, 2 splitting, 3 deleted, 4 border, 5 to 7 zero,
/// 8 to 63 `vinsert`, 64 to 127 `vsplit`.
#[derive(Clone, Copy, Debug)]
pub struct Version {
    word: u128,
}

impl Model for Version {
    ghost use Rattle.mt_word.specs.Version.{VersionView, version_of_word, word_of_version, IsVersionWord};
    ghost use Rattle.mt_word.specs.VersionRound.{word_of_version-version_of_word};
    ghost use Rattle.std.proofs.Common.{ap};

    ghost Value = { VersionView };

    ghost view = { λ v. version_of_word v.word };

    ghost invariant = { λ v. IsVersionWord v.word };

    ghost inverse = { λ v. record { word = word_of_version v } };

    ghost inverse_ok = { λ v h. ap (λ w. record { word = w }) (word_of_version-version_of_word v.word h) };
}

// One word says the same as another exactly where they are equal.
impl PartialEq for Version {
    ghost use Rattle.std.specs.Prelude.{nat_eq};
    ghost use Rattle.std.specs.Ordering.{on};
    ghost use Rattle.std.specs.Cmp.{partial_equiv_from_equiv};
    ghost use Rattle.std.proofs.lemmas.Cmp.{nat_eq_equiv, on_equiv};

    ghost eq = { on word_of_version nat_eq };

    ghost laws = { partial_equiv_from_equiv (on_equiv word_of_version nat_eq_equiv) };

    fn eq(&self, other: &Version) -> bool {
        self.to_u128() == other.to_u128()
    }
}

impl Eq for Version {
    ghost use Rattle.std.proofs.lemmas.Cmp.{nat_eq_equiv, on_equiv};

    ghost laws = { on_equiv word_of_version nat_eq_equiv };
}

impl Version {
    /// The version of a new border node: unlocked, with both counters 0.
    pub fn new_border() -> Self
        ensures value { result ≡ record {
          locked = false;
          inserting = false;
          splitting = false;
          deleted = false;
          border = true;
          vinsert = 0;
          vsplit = 0;
        } }
        ensures whole { IsVersion result }
    {
        Version { word: BORDER }
    }

    /// The version of a new interior node or head: unlocked, with both counters 0.
    pub fn new_inner() -> Self
        ensures value { result ≡ record {
          locked = false;
          inserting = false;
          splitting = false;
          deleted = false;
          border = false;
          vinsert = 0;
          vsplit = 0;
        } }
        ensures whole { IsVersion result }
    {
        Version { word: 0 }
    }

    /// Whether the node is locked.
    pub fn is_locked(&self) -> bool
        ensures { result ≡ self.now.locked }
    {
        self.word & LOCKED != 0
    }

    /// Whether keys are being inserted into the node.
    pub fn inserting(&self) -> bool
        ensures { result ≡ self.now.inserting }
    {
        self.word & INSERTING != 0
    }

    /// Whether the node is being split.
    pub fn splitting(&self) -> bool
        ensures { result ≡ self.now.splitting }
    {
        self.word & SPLITTING != 0
    }

    /// Whether keys are being inserted into the node, or it is being split.
    pub fn is_flagged(&self) -> bool
        ensures { result ≡ is_flagged self.now }
    {
        self.inserting() || self.splitting()
    }

    /// Whether the node is deleted.
    pub fn deleted(&self) -> bool
        ensures { result ≡ self.now.deleted }
    {
        self.word & DELETED != 0
    }

    /// How often keys were inserted into the node since it was made.
    pub fn vinsert(&self) -> u64
        ensures value { result ≡ self.now.vinsert }
        ensures whole { IsVersion self.now }
    {
        ((self.word >> VINSERT_SHIFT) & MAX_INSERTS as u128) as u64
    }

    /// How often the node was split since it was made.
    pub fn vsplit(&self) -> u64
        ensures value { result ≡ self.now.vsplit }
        ensures whole { IsVersion self.now }
    {
        (self.word >> VSPLIT_SHIFT) as u64
    }

    /// Whether `vinsert` is `MAX_INSERTS`.
    pub fn is_insert_spent(&self) -> bool
        ensures spent { IsTrue result ↔ (self.now.vinsert ≡ MAX_INSERTS) }
        ensures whole { IsVersion self.now }
    {
        self.vinsert() == MAX_INSERTS
    }

    /// Whether `vsplit` is `MAX_SPLITS`.
    pub fn is_split_spent(&self) -> bool
        ensures spent { IsTrue result ↔ (self.now.vsplit ≡ MAX_SPLITS) }
        ensures whole { IsVersion self.now }
    {
        self.vsplit() == MAX_SPLITS
    }

    /// Locks the node.
    pub fn lock(&mut self)
        requires { self.old.locked ≡ false }
        ensures value { self.new ≡ record self.old { locked = true } }
        ensures whole { IsVersion self.new }
    {
        self.word |= LOCKED;
    }

    /// Unlocks the node.
    pub fn unlock(&mut self)
        requires { self.old.locked ≡ true }
        ensures value { self.new ≡ record self.old { locked = false } }
        ensures whole { IsVersion self.new }
    {
        self.word &= !LOCKED;
    }

    /// Marks that keys are being inserted into the node.
    ///
    /// # Errors
    ///
    /// `SpentCounter` if `vinsert` is `MAX_INSERTS`. Nothing is then changed.
    pub fn set_inserting(&mut self) -> Result<(), SpentCounter>
        ensures ok { IsOk result ↔ (self.old.vinsert < MAX_INSERTS) }
        ensures spent { IsErr result ↔ (self.old.vinsert ≡ MAX_INSERTS) }
        ensures set { OnOk result (self.new ≡ record self.old { inserting = true }) }
        ensures unchanged { OnErr result (self.new ≡ self.old) }
        ensures whole { IsVersion self.new }
    {
        if self.is_insert_spent() {
            return Err(SpentCounter);
        }
        self.word |= INSERTING;
        Ok(())
    }

    /// Marks that the node is being split.
    ///
    /// # Errors
    ///
    /// `SpentCounter` if `vsplit` is `MAX_SPLITS`. Nothing is then changed.
    pub fn set_splitting(&mut self) -> Result<(), SpentCounter>
        ensures ok { IsOk result ↔ (self.old.vsplit < MAX_SPLITS) }
        ensures spent { IsErr result ↔ (self.old.vsplit ≡ MAX_SPLITS) }
        ensures set { OnOk result (self.new ≡ record self.old { splitting = true }) }
        ensures unchanged { OnErr result (self.new ≡ self.old) }
        ensures whole { IsVersion self.new }
    {
        if self.is_split_spent() {
            return Err(SpentCounter);
        }
        self.word |= SPLITTING;
        Ok(())
    }

    // Raises `vinsert` if keys were being inserted, which then ends.
    fn end_inserting(&mut self)
        requires { IsUnspent self.old }
        ensures value { self.new ≡ inserted self.old }
        ensures unspent { IsUnspent self.new }
    {
        if self.inserting() {
            self.word += (1 << VINSERT_SHIFT) - INSERTING;
        }
    }

    // Raises `vsplit` if the node was being split, which then ends.
    fn end_splitting(&mut self)
        requires { IsUnspent self.old }
        ensures value { self.new ≡ split self.old }
        ensures unspent { IsUnspent self.new }
    {
        if self.splitting() {
            self.word += (1 << VSPLIT_SHIFT) - SPLITTING;
        }
    }

    /// Unlocks the node, of which something may have been changed: it is then neither inserted into nor split, and for
    /// each of these flags that was set its counter is raised by one (Masstree, EuroSys 2012, section 4.5).
    pub fn unlock_changed(&mut self)
        requires locked { self.old.locked ≡ true }
        requires unspent { IsUnspent self.old }
        ensures value { self.new ≡ unlocked self.old }
        ensures whole { IsVersion self.new }
    {
        self.end_inserting();
        self.end_splitting();
        self.unlock();
    }

    /// Marks the node as deleted. One that is deleted already stays as it is.
    pub fn mark_deleted(&mut self)
        ensures value { self.new ≡ record self.old { deleted = true } }
        ensures whole { IsVersion self.new }
    {
        self.word |= DELETED;
    }

    /// The word itself.
    pub fn to_u128(&self) -> u128
        ensures value { result ≡ word_of_version self.now }
        ensures valid { IsVersionWord result }
        ensures read_back { version_of_word result ≡ self.now }
    {
        self.word
    }

    /// The version in a word, or `None` unless bits 5 to 7 are zero.
    pub fn from_u128(word: u128) -> Option<Self>
        ensures variant { IsSome result ↔ IsVersionWord word }
        ensures value { IfSome result (λ v. v ≡ version_of_word word) }
        ensures word_back { IfSome result (λ v. word_of_version v ≡ word) }
        ensures whole { IfSome result IsVersion }
    {
        if word & SPARE == 0 {
            Some(Version { word })
        } else {
            None
        }
    }
}
