//! The types of messages as data (X.511, X.518, X.525, RFC 4511): which elements are values of a type, in one table; and what
//! primitive contents say (X.690, section 8).
#![tactic(auto)]

mod alike;
mod bits;
mod codes;
mod component;
mod form;
mod given;
mod ldap;
mod leaf;
mod macros;
mod node;
mod number;
mod oid;
mod operations;
mod shadow;
mod surroundings;
mod table;
mod text;

pub use crate::alike::same;
pub use crate::bits::read_bits;
pub use crate::form::{
    Alternative, BitLeaf, Choices, Codes, Component, Content, Given, Leaf, Letters, Named, Numbers,
    Operation, Presence, Rule,
};
pub use crate::leaf::{leaf_node, read_leaf};
pub use crate::node::{Bytes, Characters, Node};
pub use crate::number::is_among;
pub use crate::oid::is_short;
pub use crate::surroundings::Surroundings;
pub use crate::table::{BIT_SEGMENT, SEGMENT, layout};
pub use crate::text::{is_length, is_numeric, is_printable, is_text};
pub use x5_memory::NoMemory;
