//! The words of nodes that were worked out by hand.

use mt_word::{Permutation, SpentCounter, Version};

#[test]
fn permutation_words(rt: HostRuntime) {
    let mut permutation = Permutation::empty();
    let none = permutation.to_u64();
    permutation.insert_at(0);
    let one = permutation.to_u64();
    permutation.insert_at(0);
    let two = permutation.to_u64();
    let mut three = permutation;
    permutation.remove_at(0);
    three.insert_at(0);
    let (removed, inserted) = (permutation.to_u64(), three.to_u64());
    three.keep_first(1);
    let words = [none, one, two, removed, inserted, three.to_u64()];
    let wanted = [
        0xedcb_a987_6543_2100,
        0xedcb_a987_6543_2101,
        0xedcb_a987_6543_2012,
        0xedcb_a987_6543_2101,
        0xedcb_a987_6543_0123,
        0xedcb_a987_6543_0121,
    ];
    assert_eq!(rt; words, wanted);
}

#[test]
fn words_of_permutations(rt: HostRuntime) {
    for word in [0, 0xfdcb_a987_6543_2101] {
        assert!(rt; Permutation::from_u64(word).is_none());
    }
    let full = Permutation::from_u64(0xedcb_a987_6543_201f);
    assert!(rt; full.map_or(false, |permutation| permutation.is_full()));
}

#[test]
fn version_words(rt: HostRuntime) {
    let mut version = Version::new_border();
    let unlocked = version.to_u128();
    version.lock();
    let locked = version.to_u128();
    assert_eq!(rt; version.set_inserting(), Ok(()));
    let inserting = version.to_u128();
    assert_eq!(rt; version.set_splitting(), Ok(()));
    let splitting = version.to_u128();
    version.unlock_changed();
    let changed = version.to_u128();
    version.mark_deleted();
    let deleted = version.to_u128();
    let words = [unlocked, locked, inserting, splitting, changed, deleted];
    let wanted = [
        0x10,
        0x11,
        0x13,
        0x17,
        0x1_0000_0000_0000_0110,
        0x1_0000_0000_0000_0118,
    ];
    assert_eq!(rt; words, wanted);
}

#[test]
fn one_flag_raises_its_counter(rt: HostRuntime) {
    let mut version = Version::new_border();
    version.lock();
    assert_eq!(rt; version.set_inserting(), Ok(()));
    version.unlock_changed();
    let inserted = version.to_u128();
    version.lock();
    assert_eq!(rt; version.set_splitting(), Ok(()));
    version.unlock_changed();
    let words = [inserted, version.to_u128()];
    assert_eq!(rt; words, [0x110, 0x1_0000_0000_0000_0110]);
}

// Bits 5 to 7 of a word are zero. Both counters have their last number but one, and then their last.
#[test]
fn words_of_versions(rt: HostRuntime) {
    for word in [0x20, 0x40, 0x80] {
        assert!(rt; Version::from_u128(word).is_none());
    }
    let last = Version::from_u128(0xffff_ffff_ffff_fffe_ffff_ffff_ffff_fe11);
    let mut version = last.expect(&rt, "bits 5 to 7 are zero");
    assert_eq!(rt; version.set_inserting(), Ok(()));
    assert_eq!(rt; version.set_splitting(), Ok(()));
    version.unlock_changed();
    assert_eq!(rt; version.set_inserting(), Err(SpentCounter));
    assert_eq!(rt; version.set_splitting(), Err(SpentCounter));
    let word = version.to_u128();
    assert_eq!(rt; word, 0xffff_ffff_ffff_ffff_ffff_ffff_ffff_ff10);
}
