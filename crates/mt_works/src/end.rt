//! The begin and the end of the keys of a view.

ghost use Rattle.std.specs.Prelude.{◌≡◌, ℕ, ◌∷◌, ◌++◌, [], List, IfOk, IsTrue, nat_eq, true};
ghost use Rattle.std.specs.List.{starts_with};
ghost use Rattle.mt_types.specs.Views.{is_before};
ghost use Rattle.mt_works.specs.Build.{first_key};
ghost use Rattle.mt_works.specs.History.{is_within};

use bytes::Bytes;
use mt_types::copying::TryCopy;
use mt_types::refusal::NoMemory;
use mt_types::view::ViewSpec;
use std::alloc::Global;

/// Returns the first key that a view may have. Shares the bytes.
pub(crate) fn first_key(alloc: Global, spec: &ViewSpec) -> Result<Bytes, NoMemory>
    ensures { IfOk result (λ key. key ≡ first_key spec.now) }
{
    match spec {
        ViewSpec::Range { lo, .. } => lo.copy(alloc),
        ViewSpec::Prefix { key, .. } => key.copy(alloc),
    }
}

// Returns the least bytes that are after all bytes that begin with a prefix, if there are such bytes.
fn end_of_prefix(alloc: Global, prefix: &[u8]) -> Result<Option<Bytes>, NoMemory>
    ensures { IfOk result (λ end. (key : List ℕ) → IsTrue (starts_with nat_eq key prefix.now)
        → IsTrue (is_before key end)) }
{
    let mut bytes = prefix.to_vec(alloc)?;
    while let Some(last) = bytes.pop() {
        if last < u8::MAX {
            bytes.push(last + 1)?;
            return Ok(Some(Bytes::from_vec(bytes)?));
        }
    }
    Ok(None)
}

/// Returns a key that is after each key of a view, if there is one. Shares the bytes of a range's end; for a prefix it
/// costs two allocations.
pub(crate) fn end_of(alloc: Global, spec: &ViewSpec) -> Result<Option<Bytes>, NoMemory>
    ensures { IfOk result (λ end. (key : List ℕ) → IsTrue (is_within spec.now key)
        → IsTrue (is_before key end)) }
{
    match spec {
        ViewSpec::Range { hi, .. } => hi.copy(alloc),
        ViewSpec::Prefix { key, .. } => end_of_prefix(alloc, key.as_slice()),
    }
}
