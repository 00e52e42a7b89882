//! The classes of a slice: the number of bytes of a key that ends there, or that the key continues.

ghost use Rattle.std.specs.Prelude.{◌≡◌, ◌≤◌, length};
ghost use Rattle.mt_slice.specs.Classes.{IsClass, class_number, class_of};

use std::marker::Model;

/// How many bytes of a key a slice holds.
pub const SLICE_BYTES: usize = 8;

// The number of the class `Long`.
const LONG_NUMBER: u8 = 9;

/// A number of bytes of a slice: 0 to 8.
#[derive(Clone, Copy, Debug, PartialEq, Eq, PartialOrd, Ord)]
pub struct Length {
    bytes: u8,
}

impl Model for Length {
    ghost use Rattle.std.specs.Prelude.{ℕ, ◌≤◌};

    ghost Value = { ℕ };

    ghost view = { λ length. length.bytes };

    ghost invariant = { λ length. length.bytes ≤ 8 };

    ghost inverse = { λ bytes. record { bytes = bytes } };
}

impl Length {
    /// The length of `bytes` bytes.
    pub fn new(bytes: usize) -> Length
        requires { bytes ≤ SLICE_BYTES }
        ensures { result ≡ bytes }
    {
        Length { bytes: bytes as u8 }
    }

    /// Returns the number of bytes.
    pub fn get(self) -> usize
        ensures value { result ≡ self }
        ensures fits { self ≤ SLICE_BYTES }
    {
        self.bytes as usize
    }
}

/// What is at a slice of a layer: a key that ends there, by the number of bytes that it has there, or one that
/// continues past it.
///
/// One slice has ten classes. They are ordered `Len(0)` to `Len(8)`, then `Long` (Masstree, EuroSys 2012, section 4.2).
#[derive(Clone, Copy, Debug, PartialEq, Eq, PartialOrd, Ord)]
pub enum Class {
    Len(Length),
    Long,
}

impl Class {
    /// The class of a rest of `bytes` bytes.
    pub fn of_length(bytes: usize) -> Class
        ensures { result ≡ class_of bytes }
    {
        if bytes <= SLICE_BYTES {
            Class::Len(Length::new(bytes))
        } else {
            Class::Long
        }
    }

    /// The class as a number: 0 to 8 for the lengths, 9 for `Long`.
    pub fn number(self) -> u8
        ensures value { result ≡ class_number self }
        ensures one_of_ten { result ≤ 9 }
        ensures class { IsClass self }
    {
        match self {
            Class::Len(length) => length.bytes,
            Class::Long => LONG_NUMBER,
        }
    }
}
