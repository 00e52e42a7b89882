//! Worked frames. Their digests come from another implementation of SipHash-1-3.

use bytes::Bytes;
use mt_frame::decode::decode;
use mt_frame::encode::encode;
use mt_frame::entry::{Commits, Entry, Record};
use mt_frame::fault::{DecodeError, FrameFault};
use mt_types::items::Items;
use mt_types::key::Key;
use mt_types::refusal::Refusal;
use mt_types::row::Columns;
use std::alloc::Global;
use std::test::Fail;

const CLOSED: &[u8] =
    b"\x80\x80\x80\x80\x98\x06\x01\x01\x01\x01\x01\x01\x01\x01\x01\x01\x01\x01\x01\x02\x02\x1b\x32\x1f\xfe\x79\xab\x36\xff";

const COMMITS: &[u8] =
    b"\x80\x80\x80\x80\xbb\x02\x01\x01\x01\x01\x01\x01\x01\x01\x01\x01\x01\x01\x01\x01\x05\x01\x01\x01\x01\x01\x01\x01\x01\x01\x01\x01\x01\x01\x01\x04\x01\x01\x02\x01\x02\x01\x01\x01\x02\x6b\x01\x02\x02\x61\x62\x02\x01\x01\x01\x01\xe5\x25\x18\x05\xe6\x79\x52\x33";

const ROWS: &[u8] =
    b"\x80\x80\x80\x80\xcd\x03\x01\x01\x01\x01\x01\x01\x01\x01\x01\x01\x01\x01\x01\x01\x05\x01\x01\x02\x01\x01\x01\x01\x01\x01\x01\x01\x01\x01\x01\x01\x01\x01\x01\x01\x01\x01\x02\x01\x02\x02\x01\x01\x64\x01\x01\x01\x02\x6b\x01\x01\x01\x01\x01\x01\x01\x01\x01\x01\x01\x01\x01\x01\x05\x01\x02\x02\x61\x62\x28\x1a\xf1\x97\x0e\x39\x1f\x93";

const SEALED: &[u8] =
    b"\x80\x80\x80\x80\x99\x05\x01\x01\x01\x01\x01\x01\x01\x01\x01\x01\x01\x01\x01\x02\x02\x87\x68\x01\x01\xb5\x73\xb0\x60\x78";

const HEADER: &[u8] =
    b"\x80\x80\x80\x80\xca\x01\x02\x72\x6f\x77\x61\x6e\x73\x70\x61\x6e\x20\x6c\x6f\x67\x01\x01\x01\x02\x01\x02\x01\x01\x01\x01\x01\x01\x01\x01\x01\x01\x01\x01\x01\x01\x03\x01\x01\x01\x01\x01\x01\x01\x01\x01\x01\x01\x01\x01\x01\x04\x01\x01\x01\x01\x01\x01\x01\x01\x01\x01\x01\x01\x01\x01\x09\x10\x60\x22\xe5\x90\x94\x8f\xe8";

// The generation of a log, the place of a frame in it, and the frame: of each kind of entry one.
const FRAMES: [(u64, u64, &[u8]); 5] = [
    (3, 42, CLOSED),
    (3, 42, COMMITS),
    (3, 42, ROWS),
    (3, 42, SEALED),
    (0, 0, HEADER),
];

// Whether a frame is read whole, and what it says is written as the same bytes.
fn comes_back(alloc: Global, generation: u64, place: u64, bytes: &[u8]) -> Result<bool, Fail> {
    let Some((entry, length)) = decode(alloc, generation, place, bytes)? else {
        return Ok(false);
    };
    let frame = encode(alloc, generation, place, &entry)?;
    Ok(length == bytes.len() && frame.as_slice() == bytes)
}

// What `COMMITS` says: a row of the column `ab` at the key `k`, and none at the empty key.
fn commits(alloc: Global) -> Result<Entry, Refusal> {
    let columns = Columns::of_new_row(alloc, 1, &[(0, Bytes::from_static(b"ab"))])?;
    let row = Record::Row(Key::new(Bytes::from_static(b"k"))?, columns);
    let none = Record::Removed(Key::new(Bytes::new())?);
    Ok(Entry::Commits(Commits {
        first: 5,
        durable: 4,
        records: Items::from_vec(vec![in alloc; row, none]?),
    }))
}

#[test]
fn worked_frames(rt: HostRuntime) -> Result<(), Fail> {
    for (generation, place, bytes) in FRAMES {
        assert!(rt;
            comes_back(rt.alloc(), generation, place, bytes)?,
            "{bytes:?}"
        );
    }
    let read = decode(rt.alloc(), 3, 42, COMMITS)?;
    assert!(rt; read == Some((commits(rt.alloc())?, COMMITS.len())));
    Ok(())
}

// Bytes at the place 43, and why they are no frame.
const FAULTS: [(&[u8], FrameFault); 5] = [
    (b"\x80\x80\x80\x80\x80", FrameFault::Length),
    (b"\x80\x80\x80\x80\x98\x06", FrameFault::Cut),
    (b"\x80\x80\x80\x80\x82\x02\x01", FrameFault::Escape),
    (b"\x80\x80\x80\x80\x81\x02", FrameFault::Digest),
    (CLOSED, FrameFault::Digest),
];

#[test]
fn what_is_no_frame(rt: HostRuntime) -> Result<(), Fail> {
    for (bytes, fault) in FAULTS {
        let read = decode(rt.alloc(), 3, 43, bytes);
        assert_eq!(rt; read.err(), Some(DecodeError::Faulty(fault)));
    }
    for zeros in [b"\0".as_slice(), b"\x80\x80\x80\x80\x82\x02\0".as_slice()] {
        assert_eq!(rt; decode(rt.alloc(), 3, 43, zeros)?, None);
    }
    Ok(())
}
