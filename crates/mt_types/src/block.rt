//! The bytes of a row: few lie in place, and more in a block that copies share.

ghost use Rattle.std.specs.Prelude.{◌≡◌, ◌≤◌, ◌++◌, ◌∷◌, [], IfOk, OnOk, length, take};

use crate::refusal::NoMemory;
use arrayvec::ArrayVec;
use std::alloc::Global;
use std::marker::Model;
use std::sync::ArcSlice;

/// At most this many bytes lie in place. So a row takes 32 bytes, and a slot of a border with its row a cache line.
pub(crate) const FEW: usize = 22;

/// The places of the bytes of a block.
#[derive(Debug, Drop)]
pub(crate) enum Kept {
    /// In place: the first of these bytes, this many.
    Few(u8, [u8; FEW]),
    /// In memory that copies share.
    Many(ArcSlice<u8, Global>),
}

/// A block of bytes.
#[derive(Debug, Drop)]
pub(crate) struct Block {
    kept: Kept,
}

impl Model for Block {
    ghost use Rattle.std.specs.Prelude.{ℕ, List};
    ghost use Rattle.mt_types.specs.Block.{kept_bytes, IsKept};

    ghost Value = { List ℕ };

    ghost view = { λ b. kept_bytes b.kept };

    ghost invariant = { λ b. IsKept b.kept };
}

/// The places of the bytes of a block that is being made.
#[derive(Debug, Drop)]
pub(crate) enum Made {
    Few(ArrayVec<u8, FEW>),
    Many(Vec<u8>),
}

/// A block that is being made.
#[derive(Debug, Drop)]
pub(crate) struct Making {
    made: Made,
}

impl Model for Making {
    ghost use Rattle.std.specs.Prelude.{ℕ, List};
    ghost use Rattle.mt_types.specs.Block.{made_bytes};

    ghost Value = { List ℕ };

    ghost view = { λ m. made_bytes m.made };
}

// These bytes and zero bytes after them.
fn in_place(bytes: &[u8]) -> [u8; FEW]
    requires { length bytes.now ≤ FEW }
    ensures { take (length bytes.now) result ≡ bytes.now }
{
    let mut place = [0; FEW];
    place[..bytes.len()].copy_from_slice(bytes);
    place
}

impl Making {
    /// Begins a block of at most `room` bytes. Allocates nothing if they are at most `FEW`.
    ///
    /// # Errors
    ///
    /// `NoMemory` if an allocation is refused.
    pub(crate) fn with_room(alloc: Global, room: usize) -> Result<Making, NoMemory>
        ensures { IfOk result (λ made. made ≡ []) }
    {
        if room <= FEW {
            return Ok(Making {
                made: Made::Few(ArrayVec::new()),
            });
        }
        Ok(Making {
            made: Made::Many(Vec::with_capacity(alloc, room)?),
        })
    }

    /// Adds a byte. Refused if there is no room for it.
    pub(crate) fn push(&mut self, byte: u8) -> Result<(), NoMemory>
        ensures { OnOk result (self.new ≡ self.old ++ byte ∷ []) }
    {
        match &mut self.made {
            Made::Few(bytes) => match bytes.try_push(byte) {
                Ok(()) => Ok(()),
                Err(_) => Err(NoMemory),
            },
            Made::Many(bytes) => {
                bytes.push(byte)?;
                Ok(())
            }
        }
    }

    /// Adds bytes. Refused if there is no room for them.
    pub(crate) fn extend(&mut self, added: &[u8]) -> Result<(), NoMemory>
        ensures { OnOk result (self.new ≡ self.old ++ added.now) }
    {
        match &mut self.made {
            Made::Few(bytes) => match bytes.try_extend_from_slice(added) {
                Ok(()) => Ok(()),
                Err(_) => Err(NoMemory),
            },
            Made::Many(bytes) => {
                bytes.extend_from_slice(added)?;
                Ok(())
            }
        }
    }

    /// Returns the block.
    ///
    /// # Errors
    ///
    /// `NoMemory` if an allocation is refused.
    pub(crate) fn done(self) -> Result<Block, NoMemory>
        ensures { IfOk result (λ block. block ≡ self) }
    {
        let Making { made } = self;
        match made {
            Made::Few(bytes) => Ok(Block::few(bytes.as_slice())),
            Made::Many(bytes) => Ok(Block {
                kept: Kept::Many(ArcSlice::from_vec(bytes)?),
            }),
        }
    }
}

impl Block {
    /// Returns a block of at most `FEW` bytes. Allocates nothing.
    pub(crate) fn few(bytes: &[u8]) -> Block
        requires { length bytes.now ≤ FEW }
        ensures { result ≡ bytes.now }
    {
        Block {
            kept: Kept::Few(bytes.len() as u8, in_place(bytes)),
        }
    }

    /// The bytes, to be read.
    pub(crate) fn as_slice(&self) -> &[u8]
        ensures { result.now ≡ self.now }
    {
        match &self.kept {
            Kept::Few(count, bytes) => &bytes[..*count as usize],
            Kept::Many(block) => block.as_slice(),
        }
    }

    /// Returns the same bytes. Allocates nothing.
    pub(crate) fn copy(&self) -> Result<Block, NoMemory>
        ensures { IfOk result (λ block. block ≡ self.now) }
    {
        match &self.kept {
            Kept::Few(count, bytes) => Ok(Block {
                kept: Kept::Few(*count, *bytes),
            }),
            Kept::Many(block) => Ok(Block {
                kept: Kept::Many(block.clone()?),
            }),
        }
    }
}

impl PartialEq for Block {
    ghost use Rattle.std.specs.Prelude.{nat_eq};
    ghost use Rattle.std.specs.Cmp.{partial_equiv_from_equiv};
    ghost use Rattle.std.specs.Cmp.Lexicographic.{pointwise, nat_list_eq_equiv};

    ghost eq = { pointwise nat_eq };

    ghost laws = { partial_equiv_from_equiv nat_list_eq_equiv };

    fn eq(&self, other: &Block) -> bool {
        self.as_slice() == other.as_slice()
    }
}
