//! The frames of the wire: the worked session, a frame of each kind of query, and each fault.

use bytes::Bytes;
use mt_types::copying::TryCopy;
use mt_types::event::Request;
use mt_types::items::Items;
use mt_types::refusal::NoMemory;
use mt_types::row::{Columns, Row};
use mt_wire::decoder::Decoder;
use mt_wire::encode::{encode_replies, encode_requests, replies_fit, requests_fit};
use mt_wire::fault::WireFault;
use mt_wire::frame::Frame;
use mt_wire::query::Query;
use mt_wire::response::{End, Response};
use mt_wire::version::WireVersion;
use std::alloc::Global;
use std::test::Fail;

// A put of 76 into column 0 of key 61, and a get of that key.
const ASKED: &[u8] = b"\0\0\0\x0f\x01\x02\x02\0\x01a\x01\0\x01v\x01\0\x01a\0";

// What an empty index answers: commit 1, and the row of version 1.
const ANSWERED: &[u8] =
    b"\0\0\0\x37\x01\x02\x03\0\0\0\0\0\0\0\0\0\0\0\0\0\0\0\x01\0\0\0\0\0\0\0\x01\x02\0\0\0\0\0\0\0\x01\0\0\0\0\0\0\0\x01\0\0\0\0\0\0\0\x01\x01\x01v";

// A get of two columns, a range, a remove and a tidy; builds, a page and the drop of a view; both in version 1. A
// conditional put, in version 2. In version 3 reads of one moment, hello, ping, info, a wait and a stop.
const FRAMES: [&[u8]; 9] = [
    b"\0\0\0\x17\x01\x04\x01\0\x01a\x02\x02\0\x04\0\0\x03\xe8\0\x03\0\x01a\x05\0\x01a",
    b"\0\0\0\x43\x01\x05\x06\0\0\x01a\0\0\x06\0\0\0\x01\0\x01a\x01\x01\x01v\x06\x01\0\x01a\x02\x02\0\0\0\0\0\0\x01\x02\x07\0\0\0\0\0\0\0\x01\0\0\0\0\0\0\0\x02\0\x01a\0\x0a\x08\0\0\0\0\0\0\0\x03",
    b"\0\0\0\x12\x02\x01\x09\0\x01a\0\0\0\0\0\0\0\0\x01\0\x01v",
    b"\0\0\0\x20\x03\x03\x0d\0\x02\0\x01a\0\x01b\0\x0e\x01\0\x01b\0\x0a\0\x0f\0\x01a\x01\0\x01b\0\0\x03\xe8",
    b"\0\0\0\x0a\x03\x01\x10\x03\0\x01k\0\x01n",
    b"\0\0\0\x0b\x03\x01\x11\0\0\0\0\0\0\x01\x02",
    b"\0\0\0\x03\x03\x01\x12",
    b"\0\0\0\x10\x03\x01\x14\x02\0\0\0\0\0\0\x01\x02\0\0\0\x05",
    b"\0\0\0\x04\x03\x01\x15\x01",
];

// Bytes, and the fault at their front. The last three are of a version that doesn't have their query.
const FAULTS: [(&[u8], WireFault); 10] = [
    (b"\0\0\0\x01", WireFault::BadLength),
    (b"\0\x04\0\x01", WireFault::BadLength),
    (b"\0\0\0\x02\x04\x01", WireFault::BadVersion),
    (b"\0\0\0\x02\x01\0", WireFault::BadBody),
    (b"\0\0\0\x02\x01\x41", WireFault::BadBody),
    (b"\0\0\0\x07\x01\x01\x01\0\0\0\0", WireFault::BadBody),
    (b"\0\0\0\x04\x03\x01\x15\x02", WireFault::BadBody),
    (
        b"\0\0\0\x12\x01\x01\x09\0\x01a\0\0\0\0\0\0\0\0\x01\0\x01v",
        WireFault::BadBody,
    ),
    (b"\0\0\0\x03\x01\x01\x12", WireFault::BadBody),
    (b"\0\0\0\x03\x02\x01\x12", WireFault::BadBody),
];

// The frame that a decoder returns at the last of these bytes, if it returns none before.
fn read(alloc: Global, bytes: &[u8]) -> Result<Option<Frame<Query>>, WireFault> {
    let mut decoder = Decoder::new(alloc);
    for byte in bytes {
        if decoder.next()?.is_some() {
            return Ok(None);
        }
        decoder.feed(&[*byte])?;
    }
    decoder.next()
}

// Whether each call has an equal copy.
fn have_copies(alloc: Global, queries: &[Query]) -> Result<bool, NoMemory> {
    for query in queries {
        if let Query::Call(request) = query {
            if request.copy(alloc)? != *request {
                return Ok(false);
            }
        }
    }
    Ok(true)
}

// Whether these queries are written as this frame.
fn are_written(
    alloc: Global,
    version: WireVersion,
    queries: &[Query],
    frame: &[u8],
) -> Result<bool, Fail> {
    if !requests_fit(version, queries) {
        return Ok(false);
    }
    let written = encode_requests(alloc, version, queries)?;
    Ok(written.as_slice() == frame)
}

// Whether the queries that are read from this frame have copies, and are written as the frame again.
fn comes_back(alloc: Global, bytes: &[u8]) -> Result<bool, Fail> {
    let Some(frame) = read(alloc, bytes)? else {
        return Ok(false);
    };
    let queries = frame.messages.as_slice();
    Ok(have_copies(alloc, queries)? && are_written(alloc, frame.version, queries, bytes)?)
}

fn asked(alloc: Global) -> Result<[Query; 2], NoMemory> {
    let (key, columns) = (Bytes::from_static(b"a"), Items::new(alloc));
    let sets = Items::from_vec(vec![in alloc; (0, Bytes::from_static(b"v"))]?);
    let put = Request::Put { key, sets };
    let key = Bytes::from_static(b"a");
    Ok([put, Request::Get { key, columns }].map(Query::Call))
}

fn answered(alloc: Global) -> Result<[Response; 2], NoMemory> {
    let columns = Columns::of_new_row(alloc, 1, &[(0, Bytes::from_static(b"v"))])?;
    let (from, to, end) = (0, 1, End::Committed(1));
    let put = Response::Done { from, to, end };
    let (from, end) = (
        1,
        End::Found(Row {
            version: 1,
            columns,
        }),
    );
    Ok([put, Response::Done { from, to, end }])
}

// Whether these answers are written as this frame.
fn are_answered(alloc: Global, responses: &[Response], frame: &[u8]) -> Result<bool, Fail> {
    if !replies_fit(responses) {
        return Ok(false);
    }
    let written = encode_replies(alloc, WireVersion::One, responses)?;
    Ok(written.as_slice() == frame)
}

#[test]
fn wire_session(rt: HostRuntime) -> Result<(), Fail> {
    let queries = asked(rt.alloc())?;
    let frame = read(rt.alloc(), ASKED)?.ok_or("frame")?;
    assert!(rt; frame.messages.as_slice() == queries.as_slice());
    assert!(rt; are_written(rt.alloc(), WireVersion::One, &queries, ASKED)?);
    assert!(rt; are_answered(rt.alloc(), &answered(rt.alloc())?, ANSWERED)?);
    Ok(())
}

#[test]
fn frames_come_back(rt: HostRuntime) -> Result<(), Fail> {
    for frame in FRAMES {
        assert!(rt; comes_back(rt.alloc(), frame)?, "{frame:?}");
    }
    Ok(())
}

#[test]
fn session_faults(rt: HostRuntime) {
    for (bytes, fault) in FAULTS {
        assert_eq!(rt; read(rt.alloc(), bytes).err(), Some(fault), "{bytes:?}");
    }
}
