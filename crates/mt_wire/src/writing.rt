//! The fields of messages, written at the end of bytes.

ghost use Rattle.std.specs.Prelude.{◌≡◌, ◌∷◌, ◌<◌, ◌^◌, ◌++◌, ◌↔◌, ℕ, List, IsTrue, OnOk, length};
ghost use Rattle.std.specs.List.{AllByRecursion, flat_map};
ghost use Rattle.std.specs.Int.{w16, w32, w64, to_be_bytes};
ghost use Rattle.mt_wire.specs.Spelling.{key_spelling, short_spelling, counted, counted16};
ghost use Rattle.mt_wire.specs.Fits.{KeyFits, ShortFits, CountedFits, Counted16Fits};

use std::alloc::AllocError;

/// A value that has a spelling, if its lengths fit their fields.
pub trait Writable {
    ghost spelling: { Self → List ℕ };

    ghost lengths: { Self → Type 0 };

    /// Writes the value at the end of `out`. On an error some of its bytes may be there.
    fn write(&self, out: &mut Vec<u8>) -> Result<(), AllocError>
        requires { lengths self.now }
        ensures { OnOk result (out.new.items ≡ out.old.items ++ spelling self.now) };

    /// Returns whether its lengths fit.
    fn fits(&self) -> bool
        ensures { IsTrue result ↔ lengths self.now };
}

pub fn number16(out: &mut Vec<u8>, number: u16) -> Result<(), AllocError>
    ensures { OnOk result (out.new.items ≡ out.old.items ++ to_be_bytes w16 number) }
{
    out.extend_from_slice(&number.to_be_bytes())
}

pub fn number32(out: &mut Vec<u8>, number: u32) -> Result<(), AllocError>
    ensures { OnOk result (out.new.items ≡ out.old.items ++ to_be_bytes w32 number) }
{
    out.extend_from_slice(&number.to_be_bytes())
}

pub fn number64(out: &mut Vec<u8>, number: u64) -> Result<(), AllocError>
    ensures { OnOk result (out.new.items ≡ out.old.items ++ to_be_bytes w64 number) }
{
    out.extend_from_slice(&number.to_be_bytes())
}

/// Writes the byte of a kind, and two numbers.
pub fn head(out: &mut Vec<u8>, kind: u8, first: u64, second: u64) -> Result<(), AllocError>
    ensures { OnOk result (out.new.items ≡ out.old.items
        ++ (kind ∷ (to_be_bytes w64 first ++ to_be_bytes w64 second))) }
{
    out.push(kind)?;
    number64(out, first)?;
    number64(out, second)
}

pub fn key(out: &mut Vec<u8>, key: &[u8]) -> Result<(), AllocError>
    requires { KeyFits key.now }
    ensures { OnOk result (out.new.items ≡ out.old.items ++ key_spelling key.now) }
{
    number16(out, key.len() as u16)?;
    out.extend_from_slice(key)
}

pub fn short(out: &mut Vec<u8>, bytes: &[u8]) -> Result<(), AllocError>
    requires { ShortFits bytes.now }
    ensures { OnOk result (out.new.items ≡ out.old.items ++ short_spelling bytes.now) }
{
    out.push(bytes.len() as u8)?;
    out.extend_from_slice(bytes)
}

pub fn items<T: Writable>(out: &mut Vec<u8>, items: &[T]) -> Result<(), AllocError>
    requires { AllByRecursion T.lengths items.now }
    ensures { OnOk result (out.new.items ≡ out.old.items ++ flat_map T.spelling items.now) }
{
    for item in items {
        item.write(out)?;
    }
    Ok(())
}

pub fn counted<T: Writable>(out: &mut Vec<u8>, list: &[T]) -> Result<(), AllocError>
    requires { CountedFits T.lengths list.now }
    ensures { OnOk result (out.new.items ≡ out.old.items ++ counted T.spelling list.now) }
{
    out.push(list.len() as u8)?;
    items(out, list)
}

pub fn counted16<T: Writable>(out: &mut Vec<u8>, list: &[T]) -> Result<(), AllocError>
    requires { Counted16Fits T.lengths list.now }
    ensures { OnOk result (out.new.items ≡ out.old.items ++ counted16 T.spelling list.now) }
{
    number16(out, list.len() as u16)?;
    items(out, list)
}

pub fn key_fits(key: &[u8]) -> bool
    ensures { IsTrue result ↔ KeyFits key.now }
{
    key.len() < 0x1_0000
}

pub fn short_fits(bytes: &[u8]) -> bool
    ensures { IsTrue result ↔ ShortFits bytes.now }
{
    bytes.len() < 0x100
}

pub fn all_fit<T: Writable>(items: &[T]) -> bool
    ensures { IsTrue result ↔ AllByRecursion T.lengths items.now }
{
    for item in items {
        if !item.fits() {
            return false;
        }
    }
    true
}

pub fn counted_fits<T: Writable>(items: &[T]) -> bool
    ensures { IsTrue result ↔ CountedFits T.lengths items.now }
{
    items.len() < 0x100 && all_fit(items)
}

pub fn counted16_fits<T: Writable>(items: &[T]) -> bool
    ensures { IsTrue result ↔ Counted16Fits T.lengths items.now }
{
    items.len() < 0x1_0000 && all_fit(items)
}
