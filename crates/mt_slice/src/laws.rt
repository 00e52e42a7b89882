//! Laws of places, classes and keys. Each function does nothing, and its contract is the law.

ghost use Rattle.std.specs.Prelude.{◌≡◌, ◌↔◌};
ghost use Rattle.std.specs.Cmp.{IsTotalOrder};
ghost use Rattle.std.specs.Ordering.{nat_cmp};
ghost use Rattle.std.specs.declared.cmp.Ordering.TheVariants.{Less, Equal};
ghost use Rattle.mt_slice.specs.Place.{Place, Precedes, place_cmp};
ghost use Rattle.mt_slice.specs.Classes.{IsClass, class_number};
ghost use Rattle.mt_slice.specs.Laws.{PlacesCompareAsKeys, PlacesTellKeys, PlacesAreCanonical, BytesComeBack, CanonicalPlacesAreOfKeys, PlacesGoBySlices, PlacesGoByLayers, ClassesAreFew, ClassNumbersTellClasses};
ghost use Rattle.mt_slice.specs.declared.slice_class.Class.{Class};

use crate::slice_class::Class;

/// Two keys compare as their places do.
pub fn places_compare_as_keys()
    ensures { PlacesCompareAsKeys }
{}

/// Keys with the same place are the same.
pub fn places_tell_keys()
    ensures { PlacesTellKeys }
{}

/// The place of a key is canonical, and the key comes back from it.
pub fn keys_have_canonical_places()
    ensures canonical { PlacesAreCanonical }
    ensures back { BytesComeBack }
{}

/// Each canonical place is the place of a key, whose bytes are those of the place.
pub fn canonical_places_have_keys()
    ensures { CanonicalPlacesAreOfKeys }
{}

/// The place of a key by its slice and class, and by the slices of the layers above one that it comes to.
pub fn places_go_by_slices()
    ensures first { PlacesGoBySlices }
    ensures layers { PlacesGoByLayers }
{}

/// Places are in a total order, in which two that compare as equal are the same.
pub fn places_are_ordered()
    ensures total { IsTotalOrder place_cmp }
    ensures less { (x y : Place) → (place_cmp x y ≡ Less) ↔ Precedes x y }
    ensures equal { (x y : Place) → (place_cmp x y ≡ Equal) ↔ (x ≡ y) }
{}

/// A slice has at most ten classes, and they are in the order of their numbers.
pub fn classes_are_ten()
    ensures few { ClassesAreFew }
    ensures apart { ClassNumbersTellClasses }
    ensures ordered { (c d : Class) → IsClass c → IsClass d
        → ⟦<Class as Ord>⟧.cmp c d ≡ nat_cmp (class_number c) (class_number d) }
{}
