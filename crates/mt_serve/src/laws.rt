//! Laws of clients that may only read. Their bodies do nothing.

ghost use Rattle.mt_serve.specs.Reading.{ReadersKeepTheStore, ReadersMakeNoChange, ReadsKeepTheStore, ReadsMakeNoChange};

use mt_shared::driving::Shared;

/// Frames of gets, ranges, reads of one moment and pages are answered by begins of gets and ranges, by steps of these
/// calls and by reads of pages. Turns that keep views up are made only after an answer that says that something was
/// changed. A whole session of a server, among others, in which no hello grants another role than `read`, is answered by such
/// events and turns alone.
pub fn readers_make_no_change<S: Shared>()
    ensures frames { ReadsMakeNoChange S.does S.shows S.pages S.glances S.looks }
    ensures sessions { ReadersMakeNoChange S.does S.shows S.pages S.glances S.looks }
{}

/// Such frames leave a plain store as it is: the same changes were made, the same views are there, each at the same change,
/// and as many views were built. A session in which no hello grants another role than `read` leaves an index of one caller
/// so, as long as the index has made fewer than 18,446,744,073,709,551,615 events.
pub fn readers_keep_the_store()
    ensures frames { ReadsKeepTheStore }
    ensures sessions { ReadersKeepTheStore }
{}
