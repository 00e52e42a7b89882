//! The slices of a key, layer by layer, and the order of keys.

ghost use Rattle.std.specs.Prelude.{◌≡◌, ◌+◌, ◌*◌, ◌≤◌, ◌++◌, length, take, drop, replicate};
ghost use Rattle.mt_types.specs.Keys.{key_cmp};
ghost use Rattle.mt_slice.specs.Place.{place_cmp, AreBytes, slice_number, rest_at, place_of};
ghost use Rattle.mt_slice.specs.Classes.{class_of, place_at};

use crate::slice_class::{Class, SLICE_BYTES};
use mt_types::key::Key;
use mt_types::limits::MAX_KEY_BYTES;
use std::cmp::Ordering;

// These bytes and zero bytes after them, eight in all.
fn padded(bytes: &[u8]) -> [u8; SLICE_BYTES]
    requires { length bytes.now ≤ SLICE_BYTES }
    ensures { result ≡ take SLICE_BYTES (bytes.now ++ replicate SLICE_BYTES 0) }
{
    let mut padded = [0; SLICE_BYTES];
    padded[..bytes.len()].copy_from_slice(bytes);
    padded
}

fn slice_number(bytes: &[u8]) -> u64
    ensures { result ≡ slice_number bytes.now }
{
    if bytes.len() < SLICE_BYTES {
        u64::from_be_bytes(padded(bytes))
    } else {
        u64::from_be_bytes([
            bytes[0], bytes[1], bytes[2], bytes[3], bytes[4], bytes[5], bytes[6], bytes[7],
        ])
    }
}

/// The slice of these bytes, which are the rest of a key in a layer, and their class: the first eight bytes as a
/// big-endian number, padded with zero bytes, and how many bytes there are, or that there are more.
///
/// Takes no memory (Masstree, EuroSys 2012, section 4.2).
pub fn slice_of(bytes: &[u8]) -> (u64, Class)
    ensures slice { result.0 ≡ slice_number bytes.now }
    ensures class { result.1 ≡ class_of (length bytes.now) }
    ensures place { place_of bytes.now ≡ place_at result.0 result.1 (place_of (drop SLICE_BYTES bytes.now)) }
{
    (slice_number(bytes), Class::of_length(bytes.len()))
}

/// Returns what follows the slice of these bytes: nothing if their class is a length.
pub fn rest_of(bytes: &[u8]) -> &[u8]
    ensures { result.now ≡ drop SLICE_BYTES bytes.now }
{
    &bytes[bytes.len().min(SLICE_BYTES)..]
}

/// The bytes of a key, each of which is below 256: its rest in layer 0.
pub fn key_bytes(key: &Key) -> &[u8]
    ensures value { result.now ≡ key.now }
    ensures bytes { AreBytes key.now }
    ensures fits { length key.now ≤ MAX_KEY_BYTES }
{
    // Of a variable the proof knows that its items are bytes.
    let bytes = key.as_slice();
    bytes
}

fn rest_at(key: &Key, layer: usize) -> &[u8]
    requires { SLICE_BYTES * layer ≤ length key.now }
    ensures value { result.now ≡ rest_at layer key.now }
{
    &key_bytes(key)[SLICE_BYTES * layer..]
}

/// The slice of the key in a layer, and its class there: those of its rest from byte `SLICE_BYTES * layer` on. Takes
/// no memory.
pub fn slice_at(key: &Key, layer: usize) -> (u64, Class)
    requires { SLICE_BYTES * layer ≤ length key.now }
    ensures slice { result.0 ≡ slice_number (rest_at layer key.now) }
    ensures class { result.1 ≡ class_of (length (rest_at layer key.now)) }
    ensures place { place_of (rest_at layer key.now)
        ≡ place_at result.0 result.1 (place_of (rest_at (layer + 1) key.now)) }
{
    slice_of(rest_at(key, layer))
}

/// Returns what follows the slice of the key in a layer: nothing if its class is a length.
pub fn rest_after(key: &Key, layer: usize) -> &[u8]
    requires { SLICE_BYTES * layer ≤ length key.now }
    ensures { result.now ≡ rest_at (layer + 1) key.now }
{
    rest_of(rest_at(key, layer))
}

/// How two keys compare: by their bytes from the first on, a proper prefix first, and so by their places. O(n) in
/// the bytes up to the first that differs.
pub fn compare(a: &Key, b: &Key) -> Ordering
    ensures keys { result ≡ key_cmp a.now b.now }
    ensures places { result ≡ place_cmp (place_of a.now) (place_of b.now) }
{
    key_bytes(a).cmp(key_bytes(b))
}
