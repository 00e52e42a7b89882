//! Rows that are loaded into a map, and rows that no map has.

use bytes::Bytes;
use mt_index::options::Options;
use mt_load::error::{Flaw, LoadError};
use mt_map::map::Map;
use mt_rows::rows::Rows;
use mt_types::key::Key;
use mt_types::refusal::Refusal;
use mt_types::row::{Columns, Row};
use std::alloc::Global;
use std::test::Fail;

// Rows by their keys and versions, how many columns they have, how many commits there were, and what is wrong with them
// in a map of one column, if something is.
type Case = (&'static [(&'static [u8], u64)], u8, u64, Option<Flaw>);

const CASES: [Case; 10] = [
    (&[], 1, 0, None),
    (&[], 1, 2, None),
    (&[(b"a", 2)], 1, 2, None),
    (&[(b"a", 1), (b"b", 5)], 1, 9, None),
    (&[(b"a", 0)], 1, 3, Some(Flaw::Version(0))),
    (&[(b"a", 4)], 1, 3, Some(Flaw::Version(4))),
    (&[(b"a", 1), (b"b", 1)], 1, 3, Some(Flaw::Version(1))),
    (&[], 1, 1, Some(Flaw::Last(1))),
    (&[(b"a", 1)], 1, 2, Some(Flaw::Last(2))),
    (&[(b"a", 1)], 2, 1, Some(Flaw::Columns(1))),
];

fn rows_of(alloc: Global, rows: &[(&'static [u8], u64)], columns: u8) -> Result<Rows, Refusal> {
    let mut all = Rows::open(alloc);
    for (key, version) in rows {
        let key = Key::new(Bytes::from_static(key))?;
        let (version, columns) = (*version, Columns::of_new_row(alloc, columns, &[])?);
        all.set(key, Row { version, columns })?;
    }
    Ok(all)
}

// What is wrong with these rows after this number of commits, if something is.
fn flaw(alloc: Global, rows: Rows, commits: u64) -> Result<Option<Flaw>, Refusal> {
    match Map::load(alloc, Options::default(), rows, commits) {
        Ok(_) => Ok(None),
        Err(LoadError::Impossible(flaw)) => Ok(Some(flaw)),
        Err(LoadError::Refused(refusal)) => Err(refusal),
    }
}

#[test]
fn rows_are_loaded(rt: HostRuntime) -> Result<(), Fail> {
    for (rows, columns, commits, wanted) in CASES {
        let loaded = rows_of(rt.alloc(), rows, columns)?;
        assert_eq!(rt; flaw(rt.alloc(), loaded, commits), Ok(wanted), "{rows:?}");
    }
    Ok(())
}
