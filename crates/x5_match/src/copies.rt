//! Copies of filters.

ghost use Rattle.std.specs.Prelude.{◌≡◌, IfOk};
ghost use Rattle.x5_match.specs.FilterView.{filter_view};

use crate::filter::{Assertion, Filter, Item, Piece, PieceList, SubstringItem};
use std::alloc::{AllocError, Global};

impl Clone for Assertion {
    ghost is_clone = { λ a b. b ≡ a };

    fn clone(&self) -> Result<Assertion, AllocError> {
        Ok(Assertion {
            kind: self.kind.clone()?,
            value: self.value.clone()?,
            normal: self.normal.clone()?,
        })
    }
}

impl Clone for Piece {
    ghost is_clone = { λ a b. b ≡ a };

    fn clone(&self) -> Result<Piece, AllocError> {
        Ok(Piece {
            place: self.place,
            value: self.value.clone()?,
        })
    }
}

impl Clone for SubstringItem {
    ghost is_clone = { λ a b. b ≡ a };

    fn clone(&self) -> Result<SubstringItem, AllocError> {
        Ok(SubstringItem {
            kind: self.kind.clone()?,
            pieces: self.pieces.clone()?,
            normal: self.normal.clone()?,
        })
    }
}

impl Clone for Item {
    ghost is_clone = { λ a b. b ≡ a };

    fn clone(&self) -> Result<Item, AllocError> {
        match self {
            Item::Equality(assertion) => Ok(Item::Equality(assertion.clone()?)),
            Item::Substrings(item) => Ok(Item::Substrings(item.clone()?)),
            Item::GreaterOrEqual(assertion) => Ok(Item::GreaterOrEqual(assertion.clone()?)),
            Item::LessOrEqual(assertion) => Ok(Item::LessOrEqual(assertion.clone()?)),
            Item::Present(kind) => Ok(Item::Present(kind.clone()?)),
            Item::Approximate(assertion) => Ok(Item::Approximate(assertion.clone()?)),
        }
    }
}

/// A copy of the filter.
pub fn copied(alloc: Global, filter: &Filter) -> Result<Filter, AllocError>
    ensures { IfOk result (λ f. filter_view f ≡ filter_view filter.now) }
{
    match filter {
        Filter::Item(item) => Ok(Filter::Item(item.clone()?)),
        Filter::And(members) => {
            let mut copies = Vec::new(alloc);
            for member in members {
                copies.push(copied(alloc, member)?)?;
            }
            Ok(Filter::And(copies))
        }
        Filter::Or(members) => {
            let mut copies = Vec::new(alloc);
            for member in members {
                copies.push(copied(alloc, member)?)?;
            }
            Ok(Filter::Or(copies))
        }
        Filter::Not(member) => Ok(Filter::Not(Box::new(alloc, copied(alloc, member)?)?)),
    }
}
