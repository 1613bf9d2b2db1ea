//! Arguments of operations (X.511, sections 9 to 11), written as their canonical octets (X.690, section 10) before the octets that are
//! there.
ghost use Rattle.std.specs.Prelude.{◌≡◌, ◌∷◌, [], map};
ghost use Rattle.x5_dapber.specs.PutsPart.{PutsPart, PutsValue, asked_by};
ghost use Rattle.x5_direct_writer.specs.PutsOf.{PutsEach, PutsOf};
ghost use Rattle.x5_match.specs.FilterView.{filter_view};
ghost use Rattle.x5_model.specs.Assertions.{assertion_of};
ghost use Rattle.x5_model.specs.Requests as model;
ghost use Rattle.x5_model_messages.specs.FilterTerms.{filter_node as filter_node_of};
ghost use Rattle.x5_model_messages.specs.Requests as requests;
ghost use Rattle.x5_model_messages.specs.Terms.{assertion_node as assertion_node_of, name_node as name_node_of, node_of};
ghost use Rattle.x5_model_messages.specs.Terms.{type_node as type_node_of};
ghost use Rattle.x5_model_typed.specs.Forms as forms;
ghost use Rattle.x5_model_typed.specs.Layouts as layouts;
ghost use Rattle.x5_model_typed.specs.Named as named;
ghost use Rattle.x5_model_typed.specs.Nodes as nodes;
ghost use Rattle.x5_ops.specs.RequestViews.{body_view, controls_view, request_view, selection_view, subset_view};
ghost use Rattle.x5_syntax.specs.TypeView.{type_view};
ghost use Rattle.x5_syntax.specs.ValueView.{value_view};
ghost use Rattle.x5_types.specs.FormView.{operation_view};

use crate::arguments::{argument_node, controls_node};
use crate::filters::filter_node;
use crate::write_parts::{put_object, put_tagged};
use std::alloc::Global;
use x5_direct_writer::enclose;
use x5_direct_writer::names::put_type;
use x5_direct_writer::values::put_value;
use x5_match::Filter;
use x5_names::Name;
use x5_ops::{Body, Controls, Request, Selection, Subset};
use x5_syntax::{TypeRef, Value};
use x5_types::{Named, Operation, Surroundings};
use x5_writer::{Backwards, WriteFault, write_node};

/// The operation whose argument it has.
fn operation_asked(body: &Body) -> Operation
    ensures { operation_view result ≡ asked_by (body_view body.now) }
{
    match body {
        Body::Read { .. } => Operation::Read,
        Body::Compare { .. } => Operation::Compare,
        Body::List { .. } => Operation::ListBelow,
        Body::Search { .. } => Operation::Search,
        Body::Add { .. } => Operation::AddEntry,
        Body::Remove { .. } => Operation::RemoveEntry,
        Body::Modify { .. } => Operation::ModifyEntry,
        Body::ModifyDn { .. } => Operation::ModifyDn,
    }
}

/// Whether the service controls are those that stand where there are none.
fn are_usual(controls: Controls) -> bool
    ensures { result ≡ nodes.same layouts.no_controls (requests.controls_node (controls_view controls)) }
{
    match controls.size {
        None => !controls.nocopy && !controls.nochain,
        Some(_) => false,
    }
}

/// Service controls (X.511, section 7.5), in their tag.
fn put_controls(alloc: Global, out: &mut Backwards, controls: Controls) -> Result<(), WriteFault>
    ensures { PutsPart layouts.controls (requests.controls_node (controls_view controls)) out.old out.new result }
{
    if are_usual(controls) {
        return Ok(());
    }
    let node = controls_node(alloc, controls)?;
    put_tagged(alloc, out, 30, Named::Controls, &node)
}

fn put_types(alloc: Global, out: &mut Backwards, kinds: &[TypeRef]) -> Result<(), WriteFault>
    ensures { PutsEach named.AnyOid (map (λ k. type_node_of (type_view k)) kinds.now) out.old out.new result }
{
    let mut i = kinds.len();
    while i > 0 {
        i -= 1;
        put_type(alloc, out, &kinds[i])?;
    }
    Ok(())
}

/// A selection of these types.
fn put_selected(alloc: Global, out: &mut Backwards, kinds: &[TypeRef]) -> Result<(), WriteFault>
    ensures { PutsValue named.Selection (requests.selection_node (model.Only (map type_view kinds.now))) out.old out.new result }
{
    let behind = out.len();
    put_types(alloc, out, kinds)?;
    enclose(out, 0, 17, behind)?;
    enclose(out, 2, 1, behind)?;
    enclose(out, 0, 17, behind)?;
    Ok(())
}

/// The same, in its tag.
fn put_chosen(
    alloc: Global,
    out: &mut Backwards,
    tag: u32,
    kinds: &[TypeRef],
) -> Result<(), WriteFault>
    ensures { PutsPart (forms.at tag named.Selection) (requests.selection_node (model.Only (map type_view kinds.now))) out.old out.new result }
{
    let behind = out.len();
    put_selected(alloc, out, kinds)?;
    enclose(out, 2, tag, behind)?;
    Ok(())
}

/// A selection of attributes (X.511, section 7.6), in its tag; nothing where it's of all.
fn put_selection(
    alloc: Global,
    out: &mut Backwards,
    tag: u32,
    selection: &Selection,
) -> Result<(), WriteFault>
    ensures { PutsPart (forms.or layouts.all_attributes (forms.at tag named.Selection)) (requests.selection_node (selection_view selection.now)) out.old out.new result }
{
    match selection {
        Selection::All => Ok(()),
        Selection::Only(kinds) => put_chosen(alloc, out, tag, kinds.as_slice()),
    }
}

/// What is asserted of a type.
fn put_asserted(
    alloc: Global,
    out: &mut Backwards,
    kind: &TypeRef,
    value: &Value,
) -> Result<(), WriteFault>
    ensures { PutsOf named.Assertion (assertion_node_of (assertion_of (type_view kind.now) (value_view value.now))) out.old out.new result }
{
    let behind = out.len();
    put_value(alloc, out, value)?;
    put_type(alloc, out, kind)?;
    enclose(out, 0, 16, behind)?;
    Ok(())
}

/// The same, in its tag.
fn put_assertion(
    alloc: Global,
    out: &mut Backwards,
    kind: &TypeRef,
    value: &Value,
) -> Result<(), WriteFault>
    ensures { PutsPart (forms.at 1 named.Assertion) (assertion_node_of (assertion_of (type_view kind.now) (value_view value.now))) out.old out.new result }
{
    let behind = out.len();
    put_asserted(alloc, out, kind, value)?;
    enclose(out, 2, 1, behind)?;
    Ok(())
}

/// The subset of a search (X.511, section 10.2.1), in its tag; nothing where it's the base object.
fn put_subset(out: &mut Backwards, subset: Subset) -> Result<(), WriteFault>
    ensures { PutsPart (forms.or (nodes.whole 0) (forms.at 1 (named.NumberBelow 0 2))) (nodes.whole (requests.subset_number (subset_view subset))) out.old out.new result }
{
    match subset {
        Subset::Base => Ok(()),
        Subset::One => Ok(out.put_all(&[0xA1, 3, 2, 1, 1])?),
        Subset::Tree => Ok(out.put_all(&[0xA1, 3, 2, 1, 2])?),
    }
}

/// Whether the filter is met by all entries since it has no parts: it stands where there is none.
fn is_everything(filter: &Filter) -> bool
    ensures { result ≡ nodes.same layouts.everything (filter_node_of (filter_view filter.now)) }
{
    match filter {
        Filter::And(filters) => filters.len() == 0,
        Filter::Item(_) | Filter::Or(_) | Filter::Not(_) => false,
    }
}

/// The filter of a search (X.511, section 7.8), in its tag.
fn put_filter(alloc: Global, out: &mut Backwards, filter: &Filter) -> Result<(), WriteFault>
    ensures { PutsPart (forms.or layouts.everything (forms.at 2 (named.Filter 16))) (filter_node_of (filter_view filter.now)) out.old out.new result }
{
    if is_everything(filter) {
        return Ok(());
    }
    let node = filter_node(alloc, filter)?;
    put_tagged(alloc, out, 2, Named::Filter(16), &node)
}

/// The argument of a read (X.511, section 9.1).
fn put_read(
    alloc: Global,
    out: &mut Backwards,
    object: &Name,
    selection: &Selection,
    controls: Controls,
) -> Result<(), WriteFault>
    ensures { PutsValue (named.Argument named.Read) (node_of (name_node_of object.now ∷ requests.selection_node (selection_view selection.now)
        ∷ requests.controls_node (controls_view controls) ∷ [])) out.old out.new result }
{
    let behind = out.len();
    put_controls(alloc, out, controls)?;
    put_selection(alloc, out, 1, selection)?;
    put_object(alloc, out, object)?;
    enclose(out, 0, 17, behind)?;
    Ok(())
}

/// The argument of a compare (X.511, section 9.2).
fn put_compare(
    alloc: Global,
    out: &mut Backwards,
    object: &Name,
    kind: &TypeRef,
    value: &Value,
    controls: Controls,
) -> Result<(), WriteFault>
    ensures { PutsValue (named.Argument named.Compare) (node_of (name_node_of object.now
        ∷ assertion_node_of (assertion_of (type_view kind.now) (value_view value.now))
        ∷ requests.controls_node (controls_view controls) ∷ [])) out.old out.new result }
{
    let behind = out.len();
    put_controls(alloc, out, controls)?;
    put_assertion(alloc, out, kind, value)?;
    put_object(alloc, out, object)?;
    enclose(out, 0, 17, behind)?;
    Ok(())
}

/// The argument of a list (X.511, section 10.1).
fn put_list(
    alloc: Global,
    out: &mut Backwards,
    object: &Name,
    controls: Controls,
) -> Result<(), WriteFault>
    ensures { PutsValue (named.Argument named.ListBelow) (node_of (name_node_of object.now ∷ requests.controls_node (controls_view controls) ∷ [])) out.old out.new result }
{
    let behind = out.len();
    put_controls(alloc, out, controls)?;
    put_object(alloc, out, object)?;
    enclose(out, 0, 17, behind)?;
    Ok(())
}

/// The argument of a search (X.511, section 10.2).
fn put_search(
    alloc: Global,
    out: &mut Backwards,
    base: &Name,
    subset: Subset,
    filter: &Filter,
    selection: &Selection,
    controls: Controls,
) -> Result<(), WriteFault>
    ensures { PutsValue (named.Argument named.Search) (node_of (name_node_of base.now
        ∷ nodes.whole (requests.subset_number (subset_view subset)) ∷ filter_node_of (filter_view filter.now)
        ∷ requests.selection_node (selection_view selection.now)
        ∷ requests.controls_node (controls_view controls) ∷ [])) out.old out.new result }
{
    let behind = out.len();
    put_controls(alloc, out, controls)?;
    put_selection(alloc, out, 4, selection)?;
    put_filter(alloc, out, filter)?;
    put_subset(out, subset)?;
    put_object(alloc, out, base)?;
    enclose(out, 0, 17, behind)?;
    Ok(())
}

/// The argument of any operation, by the writer over the table of types.
fn put_other(alloc: Global, out: &mut Backwards, request: &Request) -> Result<(), WriteFault>
    ensures { PutsValue (named.Argument (asked_by (body_view request.now.body))) (requests.argument_node (request_view request.now)) out.old out.new result }
{
    let node = argument_node(alloc, request)?;
    let form = Named::Argument(operation_asked(&request.body));
    write_node(alloc, out, Surroundings::Nowhere, form, &node)
}

/// The argument of an operation, with its controls.
pub fn put_argument(alloc: Global, out: &mut Backwards, request: &Request) -> Result<(), WriteFault>
    ensures { PutsValue (named.Argument (asked_by (body_view request.now.body))) (requests.argument_node (request_view request.now)) out.old out.new result }
{
    let controls = request.controls;
    match &request.body {
        Body::Read { object, selection } => put_read(alloc, out, object, selection, controls),
        Body::Compare {
            object,
            kind,
            value,
        } => put_compare(alloc, out, object, kind, value, controls),
        Body::List { object } => put_list(alloc, out, object, controls),
        Body::Search {
            base,
            subset,
            filter,
            selection,
        } => put_search(alloc, out, base, *subset, filter, selection, controls),
        _ => put_other(alloc, out, request),
    }
}
