//! Keys whose slices were worked out by hand.

ghost use Rattle.std.specs.Prelude.{◌≡◌, IfOk};

use bytes::Bytes;
use mt_slice::{SLICE_BYTES, rest_after, slice_at};
use mt_types::key::Key;
use mt_types::refusal::Refusal;
use std::test::Fail;

// The bytes of a key, a layer, and there its slice, the number of its class, and what follows.
type Cut = (&'static [u8], u8, u64, u8, &'static [u8]);

const CUTS: [Cut; 7] = [
    (b"", 0, 0, 0, b""),
    (b"a", 0, 0x6100_0000_0000_0000, 1, b""),
    (b"a\x00", 0, 0x6100_0000_0000_0000, 2, b""),
    (b"a\x00\x00", 0, 0x6100_0000_0000_0000, 3, b""),
    (b"01234567", 0, 0x3031_3233_3435_3637, 8, b""),
    (b"01234567AB", 0, 0x3031_3233_3435_3637, 9, b"AB"),
    (b"01234567AB", 1, 0x4142_0000_0000_0000, 2, b""),
];

fn key(bytes: &'static [u8]) -> Result<Key, Refusal>
    ensures { IfOk result (λ key. key ≡ bytes.now) }
{
    Key::new(Bytes::from_static(bytes))
}

fn is_cut_so(cut: &Cut) -> Result<bool, Refusal> {
    let (bytes, layer, slice, class, rest) = *cut;
    let layer = layer as usize;
    if bytes.len() < SLICE_BYTES * layer {
        return Ok(false);
    }
    let key = key(bytes)?;
    let (found, found_class) = slice_at(&key, layer);
    Ok(found == slice && found_class.number() == class && rest_after(&key, layer) == rest)
}

#[test]
fn keys_are_cut(rt: HostRuntime) -> Result<(), Fail> {
    for cut in &CUTS {
        assert!(rt; is_cut_so(cut)?);
    }
    Ok(())
}
