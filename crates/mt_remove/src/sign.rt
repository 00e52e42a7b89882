//! The signs that a tidy sees at its place.

ghost use Rattle.std.specs.Prelude.{◌≡◌};
ghost use Rattle.mt_remove.specs.Noted.{layer_sign, lone_sign, sign_of};

use crate::noted::{Came, Noted, OneChild};
use mt_steps::reader::Glance;
use mt_types::numbers::NodeNo;

/// What leads to an empty border that is to be taken out.
#[derive(Clone, Copy)]
pub enum Emptied {
    /// An interior, as to a child that is not its first: it is to drop the border.
    Child(NodeNo),
    /// The head of a layer of which it is the only border: the border above is to hide its link to the layer.
    Root(NodeNo),
}

/// The first rule whose signs are seen.
#[derive(Clone, Copy)]
pub enum Sign {
    /// No rule's.
    Nothing,
    /// The border was empty when this was read of it.
    Empty(Emptied, Glance),
    /// An interior on the way has one child.
    LoneChild(OneChild),
}

// Of an empty layer: the border was empty, is the first and was the last of it, and was reached straight from its head.
fn layer_sign(low: u64, noted: &Noted) -> Sign
    ensures { result ≡ layer_sign low noted.now.came noted.now.above noted.now.glance }
{
    let Some(glance) = noted.glance else {
        return Sign::Nothing;
    };
    match (noted.came, noted.above, glance.right) {
        (Came::Head, Some(above), None) if glance.order.len() == 0 && low == 0 => {
            Sign::Empty(Emptied::Root(above), glance)
        }
        _ => Sign::Nothing,
    }
}

// Of an interior with one child, if one was noted.
fn lone_sign(lone: Option<OneChild>, otherwise: Sign) -> Sign
    ensures { result ≡ lone_sign lone otherwise }
{
    match lone {
        Some(lone) => Sign::LoneChild(lone),
        None => otherwise,
    }
}

/// Returns the first rule whose signs are seen at a border of this low, by what was noted on the way to it. Constant
/// cost.
pub fn sign_of(low: u64, noted: &Noted) -> Sign
    ensures { result ≡ sign_of low noted.now }
{
    let otherwise = lone_sign(noted.lone, layer_sign(low, noted));
    let Some(glance) = noted.glance else {
        return otherwise;
    };
    match noted.came {
        Came::Child {
            parent,
            first: false,
        } if glance.order.len() == 0 && low != 0 => Sign::Empty(Emptied::Child(parent), glance),
        Came::Child { .. } | Came::Head | Came::Left => otherwise,
    }
}
