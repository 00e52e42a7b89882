//! A session as bytes in and bytes out, whose bytes come in two pieces.

use crate::sessions::{ANSWERED_TWICE, ASKED_TWICE, ONE_FRAME, OPTIONS};
use mt_serve::answerer::{Answerer, Keeping};
use mt_shared::lone::Lone;
use mt_shared::pass::Pass;
use mt_talk::talk::Talk;
use mt_wire::fault::WireFault;
use std::alloc::Global;
use std::test::Fail;

// Answers the whole frames that came. Returns how many there were.
fn turns(
    talk: &mut Talk,
    answerer: &mut Answerer,
    lone: &mut Lone,
    pass: &mut Pass,
) -> Result<usize, WireFault> {
    for count in 0..9 {
        if !talk.turn(answerer, lone, pass)? {
            return Ok(count);
        }
    }
    Ok(9)
}

// Whether two frames are answered, each at its last byte, if they come in two pieces that are cut here.
fn is_answered(alloc: Global, cut: usize) -> Result<bool, Fail> {
    let (front, rest) = ASKED_TWICE.split_at(cut.min(ASKED_TWICE.len()));
    let (mut lone, mut pass) = Lone::start(alloc, OPTIONS)?;
    let mut answerer = Answerer::new(alloc, Keeping::Frame);
    let mut talk = Talk::new(alloc);
    talk.feed(front)?;
    let first = turns(&mut talk, &mut answerer, &mut lone, &mut pass)?;
    talk.feed(rest)?;
    let second = turns(&mut talk, &mut answerer, &mut lone, &mut pass)?;
    let are_whole = first == cut / ONE_FRAME && second == 2 - first.min(2);
    Ok(are_whole && talk.is_between_frames() && talk.output() == ANSWERED_TWICE)
}

#[test]
fn talk_cut_at_each_byte(rt: HostRuntime) -> Result<(), Fail> {
    for cut in 0..=ASKED_TWICE.len() {
        assert!(rt; is_answered(rt.alloc(), cut)?, "cut after {cut}");
    }
    Ok(())
}
