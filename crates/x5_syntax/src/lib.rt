//! Attribute types, values, their texts and their normal forms (X.501, section 12; X.520; docs/FORMATS.md).
//! Nothing here knows of entries: a value is read, printed and normalised by its type alone.
#![tactic(auto)]

mod containers;
mod escapes;
mod kinds;
mod names;
mod normalise;
mod oid;
mod texts;
mod values;

pub use containers::{Normal, Octets, Text};
pub use escapes::{EscapeFault, escape, resolve};
pub use kinds::{Kind, TypeId, TypeRef};
pub use names::{MOST_PAIRS, MOST_RDNS, MOST_VALUE_OCTETS, NameFault, NameValue, RdnValue};
pub use normalise::{normal, normal_part, text_normal};
pub use oid::Oid;
pub use values::{SyntaxFault, Value};
pub use x5_memory::NoMemory;
