//! Rows that are read again from the logs of a folder: after a checkpoint, in the middle of one, and after changes.

use mt_asked::borrowed::Set;
use mt_index::options::Options;
use mt_map::map::Map;
use mt_map_folder::log::MapLog;
use mt_map_folder::opening::{OpenedMap, open};
use mt_types::refusal::Refusal;
use sqlite_disk::Memory;
use std::alloc::Global;
use std::test::Fail;

// A map over an empty folder.
fn new_map(alloc: Global) -> Result<OpenedMap<Memory>, Fail> {
    Ok(open(
        alloc,
        Memory::new(alloc),
        Memory::new(alloc),
        Options::default(),
        0,
    )?)
}

// Puts the rows of these numbers, each with its number twice, and writes each commit.
fn put_rows(map: &mut Map, log: &mut MapLog<Memory>, from: u32, to: u32) -> Result<(), Fail> {
    for number in from..to {
        let bytes = number.to_be_bytes();
        let _ = map.put(&bytes, &[Set::new(0, &bytes)])?;
        log.write(map)?;
    }
    Ok(())
}

// Removes the rows of these numbers, and writes each commit.
fn remove_rows(map: &mut Map, log: &mut MapLog<Memory>, from: u32, to: u32) -> Result<(), Fail> {
    for number in from..to {
        let _ = map.remove(&number.to_be_bytes())?;
        log.write(map)?;
    }
    Ok(())
}

// Makes the rounds of a checkpoint up to its end.
fn end_checkpoint(map: &Map, log: &mut MapLog<Memory>, begins: bool) -> Result<(), Fail> {
    for _ in 0..100 {
        if !log.advance(map, begins)? {
            break;
        }
    }
    Ok(())
}

// Whether two maps have the same commits and the same rows, of which there are at most 1000.
fn are_same(left: &Map, right: &Map) -> Result<bool, Refusal> {
    Ok(
        left.commits() == right.commits()
            && left.len() == right.len()
            && left.pairs(b"", 1000, &[])? == right.pairs(b"", 1000, &[])?,
    )
}

// Whether the files of a log have the rows of its map. Returns what they open.
fn again(alloc: Global, map: &Map, log: MapLog<Memory>) -> Result<OpenedMap<Memory>, Fail> {
    let (disk, other) = log.into_disks();
    let other = other.ok_or("the other file")?;
    let opened = open(alloc, disk, other, Options::default(), 0)?;
    if are_same(map, &opened.map)? {
        Ok(opened)
    } else {
        Err(Fail::from("other rows"))
    }
}

#[test]
fn after_a_checkpoint(rt: HostRuntime) -> Result<(), Fail> {
    let OpenedMap { mut map, mut log } = new_map(rt.alloc())?;
    put_rows(&mut map, &mut log, 0, 600)?;
    assert!(rt; log.durable() == 0 && log.sync().is_ok() && log.durable() == 600);
    end_checkpoint(&map, &mut log, true)?;
    remove_rows(&mut map, &mut log, 100, 200)?;
    put_rows(&mut map, &mut log, 600, 700)?;
    let OpenedMap {
        map: mut second,
        log: mut next,
    } = again(rt.alloc(), &map, log)?;
    assert!(rt; second.commits() == 800 && second.len() == 600);
    put_rows(&mut second, &mut next, 700, 710)?;
    let third = again(rt.alloc(), &second, next)?;
    assert!(rt; third.map.len() == 610);
    Ok(())
}

#[test]
fn in_the_middle_of_a_checkpoint(rt: HostRuntime) -> Result<(), Fail> {
    let OpenedMap { mut map, mut log } = new_map(rt.alloc())?;
    put_rows(&mut map, &mut log, 0, 600)?;
    assert!(rt; log.advance(&map, true)? && log.advance(&map, false)?);
    remove_rows(&mut map, &mut log, 0, 50)?;
    put_rows(&mut map, &mut log, 600, 650)?;
    let OpenedMap {
        map: second,
        log: mut next,
    } = again(rt.alloc(), &map, log)?;
    end_checkpoint(&second, &mut next, false)?;
    let third = again(rt.alloc(), &second, next)?;
    assert!(rt; third.map.len() == 600 && third.map.commits() == 700);
    Ok(())
}

#[test]
fn commits_that_are_lacking(rt: HostRuntime) -> Result<(), Fail> {
    let OpenedMap { mut map, mut log } = new_map(rt.alloc())?;
    let _ = map.put(b"apple", &[Set::new(0, b"red")])?;
    let _ = map.put(b"fig", &[Set::new(0, b"blue")])?;
    assert!(rt; log.lacking(&map) == 2 && !log.advance(&map, true)?);
    log.write(&map)?;
    assert!(rt; log.lacking(&map) == 0 && log.sync()? == 2);
    let opened = again(rt.alloc(), &map, log)?;
    assert!(rt; opened.map.len() == 2);
    Ok(())
}

#[test]
fn a_checkpoint_without_commits(rt: HostRuntime) -> Result<(), Fail> {
    let OpenedMap { mut map, mut log } = new_map(rt.alloc())?;
    assert!(rt; !log.advance(&map, true)?);
    put_rows(&mut map, &mut log, 0, 3)?;
    assert!(rt; log.advance(&map, true)?);
    end_checkpoint(&map, &mut log, false)?;
    let opened = again(rt.alloc(), &map, log)?;
    assert!(rt; opened.map.len() == 3);
    Ok(())
}
