//! The part of a node that a call is lent when it reads a border one field at a time.

ghost use Rattle.mt_arena.specs.Node.{IsNode};
ghost use Rattle.mt_arena.specs.Parts.{IsField, IsPart};

use crate::node::Node;
use mt_border::{KeyPart, RightLink, ValuePart};
use mt_interior::{Head, Interior};
use mt_word::{Permutation, Version};

/// Which field of a border. A slot is named by its number, 0 to 14.
#[derive(Clone, Copy, Debug, PartialEq, Eq)]
pub enum Field {
    /// The version word.
    Version,
    /// The right link.
    Right,
    /// Which slots are live, in which order.
    Order,
    /// The key of a slot.
    Key(usize),
    /// The value of a slot.
    Value(usize),
}

/// A head or an interior node, whole; or one field of a border.
#[derive(Clone, Copy)]
pub enum Part<'a> {
    Head(&'a Head),
    Interior(&'a Interior),
    Version(Version),
    Right(Option<RightLink>),
    Order(Permutation),
    Key(KeyPart<'a>),
    Value(ValuePart<'a>),
}

impl Node {
    /// The part of the node that may be read: only this field of a border, or another node whole. Constant cost.
    pub fn part(&self, field: Field) -> Part<'_>
        requires { IsField field }
        ensures value { IsPart self.now field result }
        ensures sound { IsNode self.now }
    {
        match self {
            Node::Head(head) => {
                let _level = head.level();
                Part::Head(head)
            }
            Node::Interior(interior) => {
                let _level = interior.level();
                Part::Interior(interior)
            }
            Node::Border(border) => match field {
                Field::Version => Part::Version(border.version()),
                Field::Right => Part::Right(border.right()),
                Field::Order => Part::Order(border.order()),
                Field::Key(number) => Part::Key(border.key_at(number)),
                Field::Value(number) => Part::Value(border.value_at(number)),
            },
        }
    }
}
