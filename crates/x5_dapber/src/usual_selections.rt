//! Types of the table, and selections of attributes that name these (X.511, section 7.6), read straight from octets.
ghost use Rattle.std.specs.Prelude.{[], IfOk, map};
ghost use Rattle.x5_direct.specs.Spelled.{ReadEach, Reads};
ghost use Rattle.x5_model_messages.specs.Requests as requests;
ghost use Rattle.x5_model_messages.specs.Terms as terms;
ghost use Rattle.x5_model_typed.specs.Named as named;
ghost use Rattle.x5_ops.specs.RequestViews.{selection_view};
ghost use Rattle.x5_syntax.specs.TypeView.{type_view};

use std::alloc::Global;
use x5_direct::Unread;
use x5_direct::element::whole;
use x5_direct::names::{SHORT_OID, type_at};
use x5_ops::{Selection, TypeList};
use x5_syntax::TypeRef;

/// The type of the table that is all of the octets.
pub(crate) fn known_type_in(octets: &[u8]) -> Result<TypeRef, Unread>
    ensures { IfOk result (λ t. Reads 0 named.AnyOid terms.type_in (type_view t) octets.now []) }
{
    let kind = type_at(octets)?;
    if octets.len() != SHORT_OID {
        return Err(Unread::Unusual);
    }
    Ok(TypeRef::Known(kind))
}

/// The types of the table that are all of the octets.
fn known_types_in(alloc: Global, octets: &[u8]) -> Result<TypeList, Unread>
    ensures { IfOk result (λ l. ReadEach 0 named.AnyOid terms.type_in (map type_view l) octets.now) }
{
    let mut kinds = Vec::with_capacity(alloc, octets.len() / SHORT_OID)?;
    let mut left = octets;
    while !left.is_empty() {
        let kind = type_at(left)?;
        kinds.push(TypeRef::Known(kind))?;
        left = &left[SHORT_OID..];
    }
    Ok(TypeList::from_vec(kinds))
}

/// The selection of types of the table that is all of the octets.
pub(crate) fn usual_selection(alloc: Global, octets: &[u8]) -> Result<Selection, Unread>
    ensures { IfOk result (λ s. Reads 48 named.Selection requests.selection_in (selection_view s) octets.now []) }
{
    let component = whole(0x31, octets)?;
    let list = whole(0xA1, component)?;
    let members = whole(0x31, list)?;
    Ok(Selection::Only(known_types_in(alloc, members)?))
}
