//! The search in a border.

ghost use Rattle.std.specs.Prelude.{◌≡◌, ◌+◌, ◌*◌, ◌==◌, nat_lt, ◌<◌, ◌≤◌, length};
ghost use Rattle.std.specs.List.{prefix_len};
ghost use Rattle.mt_border.specs.Entry.{entry_rank};
ghost use Rattle.mt_border.specs.Order.{IsBorder};
ghost use Rattle.mt_border.specs.Find.{entries_before, found_in, found_content};

use crate::border::Border;
use crate::entry::{Content, Entry};
use crate::found::Found;
use mt_slice::Class;

// Whether the entry is before this slice and the class of this number.
fn is_before(entry: &Entry, slice: u64, class: u8) -> bool
    requires { class < 10 }
    ensures { result ≡ nat_lt (entry_rank entry.now) (slice * 10 + class) }
{
    let own = entry.class().number();
    entry.slice < slice || entry.slice == slice && own < class
}

// Whether the entry is at this slice and the class of this number.
fn stands_at(entry: &Entry, slice: u64, class: u8) -> bool
    requires { class < 10 }
    ensures { result ≡ (entry_rank entry.now == slice * 10 + class) }
{
    let own = entry.class().number();
    entry.slice == slice && own == class
}

// What this content, at a place, is to a key with this suffix.
fn found_content(content: &Content, place: usize, suffix: &[u8]) -> Found
    ensures { result ≡ found_content suffix.now place content.now }
{
    match content {
        Content::Short(_, _) => Found::Row(place),
        Content::Long(held, _) => {
            if held.as_slice() == suffix {
                Found::Row(place)
            } else {
                Found::OtherSuffix(place)
            }
        }
        Content::Link(head) => Found::Link(place, *head),
    }
}

impl Border {
    // How many live entries come before this slice and the class of this number.
    fn place_of(&self, slice: u64, class: u8) -> usize
        requires { class < 10 }
        ensures value { result ≡ prefix_len (λ entry. nat_lt (entry_rank entry) (slice * 10 + class)) self.now.live }
        ensures within { result ≤ length self.now.live }
    {
        let count = self.len();
        for place in 0..count {
            if !is_before(self.entry(place), slice, class) {
                return place;
            }
        }
        count
    }

    /// Returns the place at which an entry of this slice and class is or would be inserted, and what is there for a
    /// key with this suffix after the slice. The suffix counts only for the class `Long`.
    ///
    /// Looks at each live entry up to that place, compares at most one suffix, and takes no memory (Masstree,
    /// EuroSys 2012, section 4.6).
    pub fn find(&self, slice: u64, class: Class, suffix: &[u8]) -> Found
        ensures value { result ≡ found_in slice class suffix.now self.now.live }
        ensures within { entries_before slice class self.now.live ≤ length self.now.live }
        ensures sound { IsBorder self.now }
    {
        let number = class.number();
        let place = self.place_of(slice, number);
        if place < self.len() {
            let entry = self.entry(place);
            if stands_at(entry, slice, number) {
                return found_content(&entry.content, place, suffix);
            }
        }
        Found::Absent(place)
    }
}
