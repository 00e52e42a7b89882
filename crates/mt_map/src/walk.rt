//! The walks over the rows of a map, in the order of their keys.

ghost use Rattle.std.specs.Prelude.{◌≡◌, IfErr, IfOk, MatchOption, Err, false};
ghost use Rattle.mt_types.specs.Limits.{key_fault};
ghost use Rattle.mt_promise.specs.History.{History, moment, rows};
ghost use Rattle.mt_index.specs.Stands.{Stands};
ghost use Rattle.mt_reads.specs.Walks.{IsFirst};

use crate::map::Map;
pub use mt_reads::Rows;
use mt_reads::{first_of, key_of};
use mt_types::key::Key;
use mt_types::refusal::{NoMemory, Refusal};

impl Map {
    /// Returns a walk that is before the first row whose key is `start` or after it.
    ///
    ///     let mut rows = map.walk(b"a")?;
    ///
    /// Costs the visit of each node on the way to the key. Copies the key.
    ///
    /// # Errors
    ///
    /// `KeyTooLong` if `start` has more than `MAX_KEY_BYTES` bytes; otherwise `NoMemory` if an allocation is refused.
    pub fn walk(&self, start: &[u8]) -> Result<Rows<'_>, Refusal>
        ensures machine { IfOk result (λ walk. walk.machine ≡ self.now.machine) }
        ensures start { IfOk result (λ walk. walk.at ≡ record { key = start.now; given = false }) }
        ensures fault { MatchOption (key_fault start.now) (IfErr result (λ refusal. refusal ≡ Refusal.NoMemory))
            (λ refusal. result ≡ Err refusal) }
    {
        let start = key_of(self.alloc, start)?;
        match Rows::of(self.alloc, &self.machine, &start) {
            Ok(walk) => Ok(walk),
            Err(_) => Err(Refusal::NoMemory),
        }
    }

    /// Returns the first key, or `None` if there are no rows.
    ///
    ///     if let Some(key) = map.first()? {
    ///         let _ = map.remove(key.as_slice())?;
    ///     }
    ///
    /// Costs the visit of each node on the way to the key. Copies the key.
    ///
    /// # Errors
    ///
    /// `NoMemory` if an allocation is refused.
    pub fn first(&self) -> Result<Option<Key>, NoMemory>
        ensures { IfOk result (λ first. (h : History) → Stands self.now.machine h
            → IsFirst (rows self.now.machine.columns (moment h)) first) }
    {
        first_of(self.alloc, &self.machine)
    }
}
