//! Entries and filters, and when a filter is true of an entry (X.511, section 7.8; X.501, section 8: matching rules).
//! Nothing here knows of names: an entry is judged by its attributes alone.
#![tactic(auto)]

mod copies;
mod entry;
mod filter;
mod matching;
mod parse;
mod truth;

pub use copies::copied;
pub use entry::{Entry, Stored, StoredList, StoredValue, StoredValueList};
pub use filter::{
    Assertion, Filter, FilterList, Item, Piece, PieceList, PiecePlace, SubstringItem, holds,
    normal_for,
};
pub use matching::{NormalList, Parts, equal, order, substrings};
pub use parse::{DEEPEST, FilterFault};
pub use truth::Truth;
