//! The place before which a full border is cut in two, by the keys that were read of it.

ghost use Rattle.std.specs.Prelude.{◌≡◌, ◌≤◌, ◌↔◌, length, IsTrue};
ghost use Rattle.mt_word.specs.declared.permutation_word.TheConstants.{SLOTS};
ghost use Rattle.mt_border.specs.Cut.{IsBestCut, IsCut, NoneNearer};
ghost use Rattle.mt_write.specs.Splitting.{key_slices};

use mt_steps::listing::SlotKey;
use mt_word::SLOTS;

// The place nearest to which a full border is cut in two.
const MIDDLE: usize = 8;

// Whether a full border with these keys may be cut in two before this place.
fn is_cut(keys: &[SlotKey], place: usize) -> bool
    requires full { length keys.now ≡ SLOTS }
    requires first { 1 ≤ place }
    ensures { IsTrue result ↔ IsCut (key_slices keys.now) place }
{
    place < SLOTS && keys[place - 1].slice != keys[place].slice
}

// Returns the place before which a full border with these keys is cut in two: of the places from 1 to 14 at which the
// slices on both sides differ, the nearest to 8, or the smaller of the two nearest. There is one, since a slice has ten
// classes.
pub fn cut_of(keys: &[SlotKey]) -> usize
    requires full { length keys.now ≡ SLOTS }
    requires some { NoneNearer (key_slices keys.now) 8 → ⊥ }
    ensures { IsBestCut (key_slices keys.now) result }
{
    for distance in 0..MIDDLE {
        if is_cut(keys, MIDDLE - distance) {
            return MIDDLE - distance;
        }
        if is_cut(keys, MIDDLE + distance) {
            return MIDDLE + distance;
        }
    }
    unreachable!()
}
