//! A moment: rows and views that are borrowed while the lock is held for reading.

use bytes::Bytes;
use mt_asked::borrowed::{Set, Spec, Test};
use mt_index::options::Options;
use mt_reads::Rows;
use mt_shared::client::Client;
use mt_shared::door::Door;
use mt_shared::map::SharedMap;
use mt_shared::moment::Moment;
use mt_types::key::Key;
use mt_types::refusal::Refusal;
use std::alloc::Global;
use std::sync::Wait;
use std::test::Fail;

// Puts two rows, and builds a view of one of them.
fn fill<W: Wait>(client: &mut Client<Door<'_, W>>) -> Result<(), Refusal> {
    let _ = client.put(b"apple", &[Set::new(0, b"red")])?;
    let _ = client.put(b"pear", &[])?;
    let (key, test) = (b"a", Test::Any);
    let _ = client.build(&Spec::Prefix { key, test })?;
    Ok(())
}

// The version of the first row from key b on, by a walk, or 0.
fn after_b(alloc: Global, moment: &Moment<'_>) -> Result<u64, Refusal> {
    let Some(machine) = moment.machine() else {
        return Ok(0);
    };
    let start = Key::new(Bytes::from_static(b"b"))?;
    let mut walk = Rows::of(alloc, machine, &start)?;
    Ok(match walk.next()? {
        Some(row) => row.version,
        None => 0,
    })
}

// The first column of the row of a key, borrowed.
fn column<'m>(moment: &'m Moment<'_>, key: &Key) -> Option<&'m [u8]> {
    let row = moment.machine()?.row(key.as_slice())?;
    Some(row.columns.get_or_empty(0))
}

// Whether the first column of the row of a key is this.
fn has_column(moment: &Moment<'_>, key: &Key, wanted: &[u8]) -> bool {
    match column(moment, key) {
        Some(found) => found == wanted,
        None => false,
    }
}

#[test]
fn a_moment_of_rows(rt: HostRuntime) -> Result<(), Fail> {
    let (index, mut passes) = SharedMap::start(rt.alloc(), Options::default(), 1)?;
    let pass = passes.pop().ok_or("pass")?;
    let mut client = Client::new(rt.alloc(), Door::new(&index, &rt, 64), pass);
    fill(&mut client)?;
    let moment = client.shared.moment();
    assert_eq!(rt; after_b(rt.alloc(), &moment), Ok(2));
    let key = Key::new(Bytes::from_static(b"apple"))?;
    assert!(rt; has_column(&moment, &key, b"red"));
    assert_eq!(rt; (moment.commits(), moment.len()), (2, 2));
    assert_eq!(rt; moment.views().count(), 1);
    Ok(())
}
