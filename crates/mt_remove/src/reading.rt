//! How a tidy reads the borders on its way: as a get does, but no row.

ghost use Rattle.std.specs.Prelude.{◌≡◌, [], IsSome};
ghost use Rattle.mt_arena.specs.Node.{node_at};
ghost use Rattle.mt_steps.specs.Reader.{IsReader, MayRead};
ghost use Rattle.mt_slice.specs.Place.{slice_number};
ghost use Rattle.mt_steps.specs.declared.finding.Kind.TheVariants.{Link as LinkKind};
ghost use Rattle.mt_steps.specs.Finding.{value_read};
ghost use Rattle.mt_remove.specs.Reading.{without_row, SeekReads};

use mt_arena::Part;
use mt_border::ValuePart;
use mt_slice::slice_of;
use mt_steps::finding::{FindReading, Finding, Kind, Sight, at_key, at_order};
use mt_steps::reader::{Counters, Reader, Reading, at_head, at_interior};
use mt_tree::Tree;
use mt_types::numbers::NodeNo;

// It needs no row: if the key that is sought has one, it has read all that it needs.
fn without_row(reading: FindReading) -> FindReading
    ensures { result ≡ without_row reading }
{
    if let Reading::GoesOn(Reader::AtValue(notes, Kind::Row)) = &reading {
        let counters = notes.glance.counters;
        return Reading::GoesOn(Reader::Settles(counters, Sight::Absent));
    }
    reading
}

// The value of a key that leads below.
fn at_link(counters: Counters, part: &ValuePart<'_>) -> FindReading
    ensures { result ≡ value_read [] counters LinkKind part.now }
{
    let sight = match part {
        ValuePart::Row(_) => Sight::Absent,
        ValuePart::Link(head) => Sight::Link(*head),
    };
    Reading::GoesOn(Reader::Settles(counters, sight))
}

/// Reads the next field of the border under a number, or visits the head or interior node there, on the way to a key of
/// which `rest` is what the layers above have left, and returns what a tidy does then. It is lent only that field or
/// node. Takes no memory.
pub fn read(finding: Finding, tree: &Tree, number: NodeNo, rest: &[u8]) -> FindReading
    requires node { IsSome (node_at tree.now.nodes number.0) }
    requires finding { IsReader finding }
    requires may { MayRead tree.now number.0 (slice_number rest.now) finding }
    ensures { SeekReads tree.now number.0 rest.now finding result }
{
    match tree.part(number, finding.wants()) {
        Part::Head(head) => at_head(head),
        Part::Interior(interior) => at_interior(interior, slice_of(rest).0),
        Part::Version(version) => finding.at_version(version),
        Part::Right(right) => finding.at_right(right, slice_of(rest).0),
        Part::Order(order) => at_order(finding, order),
        Part::Key(key) => without_row(at_key(finding, &key, rest)),
        Part::Value(value) => at_link(finding.before_value().0.glance.counters, &value),
    }
}
