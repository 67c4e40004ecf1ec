//! Groups of values: fields in braces, each a word and a number.

ghost use Rattle.std.specs.Prelude.{◌≡◌};
ghost use Rattle.std.specs.Option.{option_map};
ghost use Rattle.dumpi_text.specs.Items.{field_item};

use crate::items::{Item, read_items};
use crate::number::{Num, read_number};
use crate::tokens::{read_word, skip_byte, skip_spaces};
use crate::value::ValueFault;
use std::alloc::Global;
use std::marker::Model;

/// The word of a group's field: letters, digits and `_`.
#[derive(Debug, Drop)]
pub struct Word {
    bytes: Vec<u8>,
}

impl Model for Word {
    ghost use Rattle.std.specs.Prelude.{List, ℕ};

    ghost Value = { List ℕ };

    ghost view = { λ w. w.bytes.items };
}

impl Word {
    /// The word of these bytes, which are taken as they are. It takes no memory.
    pub fn from_vec(bytes: Vec<u8>) -> Self
        ensures { result ≡ bytes.items }
    {
        Word { bytes }
    }

    /// The bytes of the word.
    pub fn as_slice(&self) -> &[u8]
        ensures { result.now ≡ self.now }
    {
        &self.bytes
    }
}

/// One field of a group.
#[derive(Debug, Drop)]
pub struct Field {
    pub word: Word,
    pub number: Num,
}

/// The fields of a group, in its order.
#[derive(Drop)]
pub struct Group {
    fields: Vec<Field>,
}

impl Model for Group {
    ghost use Rattle.std.specs.Prelude.{List};
    ghost use Rattle.dumpi_text.specs.declared.group.Field.{Field};

    ghost Value = { List Field };

    ghost view = { λ g. g.fields.items };
}

impl Group {
    /// The group of these fields. It takes no memory.
    pub fn from_vec(fields: Vec<Field>) -> Self
        ensures { result ≡ fields.items }
    {
        Group { fields }
    }

    /// The fields, in the order of the text.
    pub fn as_slice(&self) -> &[Field]
        ensures { result.now ≡ self.now }
    {
        &self.fields
    }
}

/// The groups of a list, in its order.
#[derive(Drop)]
pub struct Groups {
    groups: Vec<Group>,
}

impl Model for Groups {
    ghost use Rattle.std.specs.Prelude.{List};
    ghost use Rattle.dumpi_text.specs.declared.group.Group.{Group};

    ghost Value = { List Group };

    ghost view = { λ g. g.groups.items };
}

impl Groups {
    /// The list of these groups. It takes no memory.
    pub fn from_vec(groups: Vec<Group>) -> Self
        ensures { result ≡ groups.items }
    {
        Groups { groups }
    }

    /// The groups, in the order of the text.
    pub fn as_slice(&self) -> &[Group]
        ensures { result.now ≡ self.now }
    {
        &self.groups
    }
}

/// The word, and the number, of the field in front, and what follows it.
#[tactic(auto, unfolding(crate::specs::Items::field_item))]
fn split_field(text: &[u8]) -> Option<(&[u8], Num, &[u8])>
    ensures { option_map (λ x. (record { word = x.0.now; number = x.1 }, x.2.now)) result ≡ field_item text.now }
{
    let (word, rest) = read_word(text)?;
    let rest = skip_byte(b'=', rest)?;
    let (number, rest) = read_number(skip_spaces(rest))?;
    Some((word, number, rest))
}

impl Item for Field {
    ghost use Rattle.dumpi_text.specs.Items.{field_item};

    ghost front = { field_item };

    fn read<'t>(alloc: Global, text: &'t [u8]) -> Result<(Field, &'t [u8]), ValueFault> {
        match split_field(text) {
            Some((word, number, rest)) => {
                let word = Word::from_vec(word.to_vec(alloc)?);
                Ok((Field { word, number }, rest))
            }
            None => Err(ValueFault::BadValue),
        }
    }
}

impl Item for Group {
    ghost use Rattle.dumpi_text.specs.Items.{group_item};

    ghost front = { group_item };

    fn read<'t>(alloc: Global, text: &'t [u8]) -> Result<(Group, &'t [u8]), ValueFault> {
        match text {
            [b'{', rest @ ..] => {
                let (fields, rest) = read_items(alloc, b'}', rest)?;
                Ok((Group::from_vec(fields), rest))
            }
            _ => Err(ValueFault::BadValue),
        }
    }
}
