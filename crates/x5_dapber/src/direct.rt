//! Requests (X.511, sections 7 and 9 to 11; X.519, section 7), read straight from octets in their usual spelling: the components of
//! an argument in the order of their tags, each by its octets where these are usual, and else, if they are 96 at most, by the table of
//! types.
ghost use Rattle.std.specs.Prelude.{◌≡◌, ℕ, List, ◌-◌, ◌<◌, ◌≤◌, ◌%◌, ◌∷◌, [], IfOk, IfSome, length};
ghost use Rattle.std.specs.declared.option.Option.TheVariants.{Some};
ghost use Rattle.x5_dapber.specs.Direct.{Invokes, ReadsNext, code_of};
ghost use Rattle.x5_direct.specs.Spelled.{Opens, Reads, Spelled};
ghost use Rattle.x5_match.specs.FilterView.{filter_view};
ghost use Rattle.x5_model.specs.Assertions.{assertion_of};
ghost use Rattle.x5_model_messages.specs.FilterTerms as filters;
ghost use Rattle.x5_model_messages.specs.Requests as requests;
ghost use Rattle.x5_model_messages.specs.Terms as terms;
ghost use Rattle.x5_model_typed.specs.Forms as forms;
ghost use Rattle.x5_model_typed.specs.Judged as judged;
ghost use Rattle.x5_model_typed.specs.Layouts as layouts;
ghost use Rattle.x5_model_typed.specs.Leaves as leaves;
ghost use Rattle.x5_model_typed.specs.Named as named;
ghost use Rattle.x5_model_typed.specs.Nodes as nodes;
ghost use Rattle.x5_model_typed.specs.Typed.{Spells};
ghost use Rattle.x5_model_typed_laws.specs.Fits.{Fits};
ghost use Rattle.x5_ops.specs.RequestViews.{controls_view, request_view, selection_view, subset_view};
ghost use Rattle.x5_syntax.specs.TypeView.{type_view};
ghost use Rattle.x5_syntax.specs.ValueView.{value_view};
ghost use Rattle.x5_types.specs.FormView.{named_view, operation_view, table};
ghost use Rattle.x5_types.specs.NodeView.{node_view};

use crate::read_arguments::{argument_in, controls_in, selection_in};
use crate::read_filters::filter_in;
use crate::read_values::asserted_in;
use crate::usual_filters::usual_filter;
use crate::usual_selections::usual_selection;
use std::alloc::Global;
use x5_direct::Unread;
use x5_direct::element::{opened, whole};
use x5_direct::names::name_at;
use x5_direct::part::part_at;
use x5_match::Filter;
use x5_names::Name;
use x5_ops::{Body, Controls, Request, Selection, Subset};
use x5_syntax::{TypeRef, Value};
use x5_types::{Content, Leaf, Named, Node, Numbers, Operation, Surroundings, leaf_node};

/// The number below 128 in an element of that identifier and of one octet, which the octets begin with, and the octets behind it.
#[inline]
fn small_at(first: u8, octets: &[u8]) -> Option<(u8, &[u8])>
    ensures is { IfSome result (λ r. octets.now ≡ first ∷ 1 ∷ r.0 ∷ r.1.now) }
    ensures small { IfSome result (λ r. r.0 < 128) }
{
    let [identifier, length, number, rest @ ..] = octets else {
        return None;
    };
    if *identifier != first || *length != 1 || *number >= 128 {
        return None;
    }
    Some((*number, rest))
}

/// The value of the type that is all of the octets, by the table of types.
fn part<'a>(alloc: Global, form: Named, octets: &'a [u8]) -> Result<Node<'a>, Unread>
    ensures is { IfOk result (λ n. Spelled 48 (named_view form) (node_view n) octets.now []) }
    ensures fits { IfOk result (λ n. Fits table (table (named_view form)) (node_view n)) }
{
    let (node, rest) = part_at(alloc, form, octets)?;
    if !rest.is_empty() {
        drop(node);
        return Err(Unread::Unusual);
    }
    Ok(node)
}

/// The name of the object, which is the first component, and the octets behind it.
fn object_at(alloc: Global, octets: &[u8]) -> Result<(Name, &[u8]), Unread>
    ensures { IfOk result (λ r. ReadsNext 49 0 (forms.at 0 named.Name) terms.name_of r.0 octets.now r.1.now) }
{
    let (content, rest) = opened(0xA0, octets)?;
    let (name, taken) = name_at(alloc, content)?;
    if taken != content.len() {
        drop(name);
        return Err(Unread::Unusual);
    }
    Ok((name, rest))
}

/// The selection of attributes that is all of the octets, by the table of types.
fn selection_by_table(alloc: Global, octets: &[u8]) -> Result<Selection, Unread>
    ensures { IfOk result (λ s. Reads 48 named.Selection requests.selection_in (selection_view s) octets.now []) }
{
    let node = part(alloc, Named::Selection, octets)?;
    Ok(selection_in(alloc, &node)?)
}

/// The selection of attributes that is all of the octets.
fn selection_of(alloc: Global, octets: &[u8]) -> Result<Selection, Unread>
    ensures { IfOk result (λ s. Reads 48 named.Selection requests.selection_in (selection_view s) octets.now []) }
{
    match usual_selection(alloc, octets) {
        Err(Unread::Unusual) => selection_by_table(alloc, octets),
        read => read,
    }
}

/// The selection of attributes behind that octet, and the octets behind it. All are selected where it's missing.
fn selection_at(alloc: Global, first: u8, octets: &[u8]) -> Result<(Selection, &[u8]), Unread>
    requires context { 160 ≤ first }
    requires low { first < 191 }
    ensures { IfOk result (λ r. ReadsNext 49 (first - 160) (forms.or layouts.all_attributes (forms.at (first - 160) named.Selection)) requests.selection_in (selection_view r.0) octets.now r.1.now) }
{
    let [octet, ..] = octets else {
        return Ok((Selection::All, octets));
    };
    if *octet != first {
        return Ok((Selection::All, octets));
    }
    let (content, rest) = opened(first, octets)?;
    Ok((selection_of(alloc, content)?, rest))
}

/// The service controls, which are all of the octets, or missing.
fn controls_last(alloc: Global, octets: &[u8]) -> Result<Controls, Unread>
    ensures { IfOk result (λ c. ReadsNext 49 30 layouts.controls requests.controls_in (controls_view c) octets.now []) }
{
    if octets.is_empty() {
        return Ok(Controls {
            nocopy: false,
            nochain: false,
            size: None,
        });
    }
    let content = whole(0xBE, octets)?;
    let node = part(alloc, Named::Controls, content)?;
    Ok(controls_in(&node))
}

/// Where a search looks, as the content says.
fn subset_of(content: &[u8]) -> Option<Subset>
    ensures { IfSome result (λ s. content.now ≡ 2 ∷ 1 ∷ requests.subset_number (subset_view s) ∷ []) }
{
    let (number, rest) = small_at(2, content)?;
    if !rest.is_empty() {
        return None;
    }
    match number {
        0 => Some(Subset::Base),
        1 => Some(Subset::One),
        2 => Some(Subset::Tree),
        _ => None,
    }
}

/// Where a search looks, and the octets behind it. It's the base where it's missing.
fn subset_at(octets: &[u8]) -> Result<(Subset, &[u8]), Unread>
    ensures { IfOk result (λ r. ReadsNext 49 1 (forms.or (nodes.whole 0) (forms.at 1 (named.NumberBelow 0 2))) requests.subset_in (subset_view r.0) octets.now r.1.now) }
{
    let [0xA1, ..] = octets else {
        return Ok((Subset::Base, octets));
    };
    let (content, rest) = opened(0xA1, octets)?;
    let Some(subset) = subset_of(content) else {
        return Err(Unread::Unusual);
    };
    Ok((subset, rest))
}

/// The filter that is all of the octets, by the table of types.
fn filter_by_table(alloc: Global, octets: &[u8]) -> Result<Filter, Unread>
    ensures { IfOk result (λ f. Reads 48 (named.Filter 16) filters.filter_in (filter_view f) octets.now []) }
{
    let node = part(alloc, Named::Filter(16), octets)?;
    Ok(filter_in(alloc, &node)?)
}

/// The filter that is all of the octets.
fn filter_of(alloc: Global, octets: &[u8]) -> Result<Filter, Unread>
    ensures { IfOk result (λ f. Reads 48 (named.Filter 16) filters.filter_in (filter_view f) octets.now []) }
{
    match usual_filter(alloc, octets) {
        Err(Unread::Unusual) => filter_by_table(alloc, octets),
        read => read,
    }
}

/// The filter of a search, and the octets behind it. Everything matches where it's missing.
fn filter_at(alloc: Global, octets: &[u8]) -> Result<(Filter, &[u8]), Unread>
    ensures { IfOk result (λ r. ReadsNext 49 2 (forms.or layouts.everything (forms.at 2 (named.Filter 16))) filters.filter_in (filter_view r.0) octets.now r.1.now) }
{
    let [0xA2, ..] = octets else {
        return Ok((Filter::And(Vec::new(alloc)), octets));
    };
    let (content, rest) = opened(0xA2, octets)?;
    Ok((filter_of(alloc, content)?, rest))
}

/// The type and the value of the assertion of a compare, and the octets behind it.
fn asserted_at(alloc: Global, octets: &[u8]) -> Result<(TypeRef, Value, &[u8]), Unread>
    ensures { IfOk result (λ r. ReadsNext 49 1 (forms.at 1 named.Assertion) terms.assertion_in (assertion_of (type_view r.0) (value_view r.1)) octets.now r.2.now) }
{
    let (content, rest) = opened(0xA1, octets)?;
    let node = part(alloc, Named::Assertion, content)?;
    let (kind, value) = asserted_in(alloc, &node)?;
    Ok((kind, value, rest))
}

/// The request to read whose argument is all of the octets.
fn read_of(alloc: Global, octets: &[u8]) -> Result<Request, Unread>
    ensures { IfOk result (λ r. Reads 50 (named.Argument named.Read) (requests.argument_in 1) (request_view r) octets.now []) }
{
    let content = whole(0x31, octets)?;
    let (object, behind) = object_at(alloc, content)?;
    let (selection, last) = selection_at(alloc, 0xA1, behind)?;
    match controls_last(alloc, last) {
        Ok(controls) => Ok(Request {
            controls,
            body: Body::Read { object, selection },
        }),
        Err(fault) => {
            drop(object);
            drop(selection);
            Err(fault)
        }
    }
}

/// The request to compare whose argument is all of the octets.
fn compare_of(alloc: Global, octets: &[u8]) -> Result<Request, Unread>
    ensures { IfOk result (λ r. Reads 50 (named.Argument named.Compare) (requests.argument_in 2) (request_view r) octets.now []) }
{
    let content = whole(0x31, octets)?;
    let (object, behind) = object_at(alloc, content)?;
    let (kind, value, last) = asserted_at(alloc, behind)?;
    match controls_last(alloc, last) {
        Ok(controls) => Ok(Request {
            controls,
            body: Body::Compare {
                object,
                kind,
                value,
            },
        }),
        Err(fault) => {
            drop(object);
            drop(kind);
            drop(value);
            Err(fault)
        }
    }
}

/// The request to list whose argument is all of the octets.
fn list_of(alloc: Global, octets: &[u8]) -> Result<Request, Unread>
    ensures { IfOk result (λ r. Reads 50 (named.Argument named.ListBelow) (requests.argument_in 4) (request_view r) octets.now []) }
{
    let content = whole(0x31, octets)?;
    let (object, last) = object_at(alloc, content)?;
    let controls = controls_last(alloc, last)?;
    Ok(Request {
        controls,
        body: Body::List { object },
    })
}

/// The selection of attributes of a search and its service controls, which are all of the octets.
fn selection_last(alloc: Global, octets: &[u8]) -> Result<(Selection, Controls), Unread>
    ensures { IfOk result (λ r. (last : List ℕ)
        × ReadsNext 49 4 (forms.or layouts.all_attributes (forms.at 4 named.Selection)) requests.selection_in (selection_view r.0) octets.now last
        × ReadsNext 49 30 layouts.controls requests.controls_in (controls_view r.1) last []) }
{
    let (selection, last) = selection_at(alloc, 0xA4, octets)?;
    let controls = controls_last(alloc, last)?;
    Ok((selection, controls))
}

/// The request to search whose argument is all of the octets.
fn search_of(alloc: Global, octets: &[u8]) -> Result<Request, Unread>
    ensures { IfOk result (λ r. Reads 50 (named.Argument named.Search) (requests.argument_in 5) (request_view r) octets.now []) }
{
    let content = whole(0x31, octets)?;
    let (base, second) = object_at(alloc, content)?;
    let (subset, third) = subset_at(second)?;
    let (filter, fourth) = filter_at(alloc, third)?;
    match selection_last(alloc, fourth) {
        Ok((selection, controls)) => Ok(Request {
            controls,
            body: Body::Search {
                base,
                subset,
                filter,
                selection,
            },
        }),
        Err(fault) => {
            drop(base);
            drop(filter);
            Err(fault)
        }
    }
}

/// The request to remove whose argument is all of the octets.
fn remove_of(alloc: Global, octets: &[u8]) -> Result<Request, Unread>
    ensures { IfOk result (λ r. Reads 50 (named.Argument named.RemoveEntry) (requests.argument_in 7) (request_view r) octets.now []) }
{
    let content = whole(0x31, octets)?;
    let (object, last) = object_at(alloc, content)?;
    let controls = controls_last(alloc, last)?;
    Ok(Request {
        controls,
        body: Body::Remove { object },
    })
}

/// The request of the operation whose argument is all of the octets, by the table of types.
fn by_table(alloc: Global, code: u8, operation: Operation, octets: &[u8]) -> Result<Request, Unread>
    requires { code ≡ code_of (operation_view operation) }
    ensures { IfOk result (λ r. Reads 50 (named.Argument (operation_view operation)) (requests.argument_in code) (request_view r) octets.now []) }
{
    let node = part(alloc, Named::Argument(operation), octets)?;
    Ok(argument_in(alloc, u32::from(code), &node)?)
}

/// The request of the operation whose argument is all of the octets.
pub fn argument_of(
    alloc: Global,
    code: u8,
    operation: Operation,
    octets: &[u8],
) -> Result<Request, Unread>
    requires { code ≡ code_of (operation_view operation) }
    ensures { IfOk result (λ r. Reads 50 (named.Argument (operation_view operation)) (requests.argument_in code) (request_view r) octets.now []) }
{
    match operation {
        Operation::Read => read_of(alloc, octets),
        Operation::Compare => compare_of(alloc, octets),
        Operation::ListBelow => list_of(alloc, octets),
        Operation::Search => search_of(alloc, octets),
        Operation::RemoveEntry => remove_of(alloc, octets),
        _ => by_table(alloc, code, operation, octets),
    }
}

/// The operation with the code (X.519, section 7).
fn operation_of(code: u8) -> Option<Operation>
    ensures { IfSome result (λ o. code ≡ code_of (operation_view o)) }
{
    match code {
        1 => Some(Operation::Read),
        2 => Some(Operation::Compare),
        4 => Some(Operation::ListBelow),
        5 => Some(Operation::Search),
        6 => Some(Operation::AddEntry),
        7 => Some(Operation::RemoveEntry),
        8 => Some(Operation::ModifyEntry),
        9 => Some(Operation::ModifyDn),
        _ => None,
    }
}

/// The id that the content says.
fn id_of(alloc: Global, content: &[u8]) -> Result<u32, Unread>
    ensures { IfOk result (λ k. judged.leaf_node (forms.Primitive (leaves.number (leaves.from_to 0 4294967295))) content.now ≡ Some (nodes.whole k)) }
{
    let ids = Content::Primitive(Leaf::Number(Numbers::FromTo(0, u32::MAX)));
    match leaf_node(alloc, Surroundings::Nowhere, ids, content)? {
        Some(Node::Number(number)) => u32::try_from(number).or(Err(Unread::Unusual)),
        _ => Err(Unread::Unusual),
    }
}

/// The id that the octets begin with, and the octets behind it.
fn id_at(alloc: Global, octets: &[u8]) -> Result<(u32, &[u8]), Unread>
    ensures { IfOk result (λ r. Spelled 0 (named.NumberBelow 0 4294967295) (nodes.whole r.0) octets.now r.1.now) }
{
    let (content, rest) = opened(0x02, octets)?;
    Ok((id_of(alloc, content)?, rest))
}

/// The id, the code and the operation of the message that is all of the octets, and what the code says.
pub fn invoke_in(alloc: Global, octets: &[u8]) -> Result<(u32, u8, Operation, &[u8]), Unread>
    ensures invokes { IfOk result (λ r. Invokes r.0 r.1 (operation_view r.2) octets.now r.3.now) }
    ensures code { IfOk result (λ r. r.1 ≡ code_of (operation_view r.2)) }
{
    let content = whole(0xA1, octets)?;
    let (id, after) = id_at(alloc, content)?;
    let Some((code, rest)) = small_at(2, after) else {
        return Err(Unread::Unusual);
    };
    let Some(operation) = operation_of(code) else {
        return Err(Unread::Unusual);
    };
    Ok((id, code, operation, rest))
}

/// The id of the user's message that is all of the octets, and the request.
pub(crate) fn message_in(alloc: Global, octets: &[u8]) -> Result<(u32, Request), Unread>
    ensures { IfOk result (λ p. (n : nodes.Node) × Spells table named.DapRequest octets.now n
        × ((p.0, request_view p.1) ≡ requests.request_in n)) }
{
    let (id, code, operation, argument) = invoke_in(alloc, octets)?;
    Ok((id, argument_of(alloc, code, operation, argument)?))
}
