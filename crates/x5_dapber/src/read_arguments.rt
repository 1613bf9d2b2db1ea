//! Requests and their arguments (X.511, sections 7 and 9 to 11) that values of types of messages say.
ghost use Rattle.std.specs.Prelude.{◌≡◌, IfOk, All, map};
ghost use Rattle.x5_dapber.specs.Sayable as sayable;
ghost use Rattle.x5_model_messages.specs.Requests as requests;
ghost use Rattle.x5_model_messages.specs.Terms as terms;
ghost use Rattle.x5_model_typed.specs.Nodes as nodes;
ghost use Rattle.x5_ops.specs.RequestViews.{controls_view, subset_view, selection_view, body_view, request_view};
ghost use Rattle.x5_syntax.specs.TypeView.{type_view};
ghost use Rattle.x5_types.specs.NodeView.{node_view};

use crate::read_attributes::{attributes_in, changes_in};
use crate::read_filters::filter_in;
use crate::read_parts::{code_in, count_in, flag_in, is_vacant, rdn_of};
use crate::read_values::{asserted_in, type_in};
use std::alloc::Global;
use x5_memory::NoMemory;
use x5_ops::{Body, Controls, Request, Selection, Subset, TypeList};
use x5_rules::name_of;
use x5_types::Node;

/// The service controls that the node says.
pub(crate) fn controls_in(node: &Node<'_>) -> Controls
    requires { sayable.AreControls (node_view node.now) }
    ensures { controls_view result ≡ requests.controls_in (node_view node.now) }
{
    let [options, _, _, size] = node.parts() else {
        unreachable!()
    };
    let size = count_in(size);
    match options.two_parts() {
        Some((nocopy, nochain)) => Controls {
            nocopy: flag_in(nocopy),
            nochain: flag_in(nochain),
            size,
        },
        None => Controls {
            nocopy: false,
            nochain: false,
            size,
        },
    }
}

/// Where the node says that a search looks.
fn subset_in(node: &Node<'_>) -> Subset
    requires { sayable.IsCount (node_view node.now) }
    ensures { subset_view result ≡ requests.subset_in (node_view node.now) }
{
    match code_in(node) {
        0 => Subset::Base,
        1 => Subset::One,
        _ => Subset::Tree,
    }
}

fn types_in(alloc: Global, nodes: &[Node<'_>]) -> Result<TypeList, NoMemory>
    requires { All (λ n. sayable.IsType (node_view n)) nodes.now }
    ensures { IfOk result (λ l. map type_view l ≡ map terms.type_in (map node_view nodes.now)) }
{
    let mut kinds = TypeList::new(alloc);
    for node in nodes {
        kinds.push(type_in(alloc, node)?)?;
    }
    Ok(kinds)
}

/// The selection of attributes that the node says.
pub(crate) fn selection_in(alloc: Global, node: &Node<'_>) -> Result<Selection, NoMemory>
    requires { sayable.IsSelection (node_view node.now) }
    ensures { IfOk result (λ s. selection_view s ≡ requests.selection_in (node_view node.now)) }
{
    let [kinds] = node.parts() else {
        unreachable!()
    };
    if is_vacant(kinds) {
        Ok(Selection::All)
    } else {
        Ok(Selection::Only(types_in(alloc, kinds.parts())?))
    }
}

fn read_in(alloc: Global, parts: &[Node<'_>]) -> Result<Body, NoMemory>
    requires { sayable.AreParts 1 (map node_view parts.now) }
    ensures { IfOk result (λ b. body_view b ≡ requests.body_in 1 (map node_view parts.now)) }
{
    let [object, selection, _] = parts else {
        unreachable!()
    };
    Ok(Body::Read {
        object: name_of(alloc, object)?,
        selection: selection_in(alloc, selection)?,
    })
}

fn compare_in(alloc: Global, parts: &[Node<'_>]) -> Result<Body, NoMemory>
    requires { sayable.AreParts 2 (map node_view parts.now) }
    ensures { IfOk result (λ b. body_view b ≡ requests.body_in 2 (map node_view parts.now)) }
{
    let [object, assertion, _] = parts else {
        unreachable!()
    };
    let object = name_of(alloc, object)?;
    let (kind, value) = asserted_in(alloc, assertion)?;
    Ok(Body::Compare {
        object,
        kind,
        value,
    })
}

fn list_in(alloc: Global, parts: &[Node<'_>]) -> Result<Body, NoMemory>
    requires { sayable.AreParts 4 (map node_view parts.now) }
    ensures { IfOk result (λ b. body_view b ≡ requests.body_in 4 (map node_view parts.now)) }
{
    let [object, _] = parts else { unreachable!() };
    Ok(Body::List {
        object: name_of(alloc, object)?,
    })
}

fn search_in(alloc: Global, parts: &[Node<'_>]) -> Result<Body, NoMemory>
    requires { sayable.AreParts 5 (map node_view parts.now) }
    ensures { IfOk result (λ b. body_view b ≡ requests.body_in 5 (map node_view parts.now)) }
{
    if parts.len() != 5 {
        unreachable!()
    }
    let base = name_of(alloc, &parts[0])?;
    let subset = subset_in(&parts[1]);
    let selection = selection_in(alloc, &parts[3])?;
    let filter = filter_in(alloc, &parts[2])?;
    Ok(Body::Search {
        base,
        subset,
        filter,
        selection,
    })
}

fn add_in(alloc: Global, parts: &[Node<'_>]) -> Result<Body, NoMemory>
    requires { sayable.AreParts 6 (map node_view parts.now) }
    ensures { IfOk result (λ b. body_view b ≡ requests.body_in 6 (map node_view parts.now)) }
{
    let [object, attributes, _] = parts else {
        unreachable!()
    };
    Ok(Body::Add {
        object: name_of(alloc, object)?,
        attributes: attributes_in(alloc, attributes.parts())?,
    })
}

fn remove_in(alloc: Global, parts: &[Node<'_>]) -> Result<Body, NoMemory>
    requires { sayable.AreParts 7 (map node_view parts.now) }
    ensures { IfOk result (λ b. body_view b ≡ requests.body_in 7 (map node_view parts.now)) }
{
    let [object, _] = parts else { unreachable!() };
    Ok(Body::Remove {
        object: name_of(alloc, object)?,
    })
}

fn modify_in(alloc: Global, parts: &[Node<'_>]) -> Result<Body, NoMemory>
    requires { sayable.AreParts 8 (map node_view parts.now) }
    ensures { IfOk result (λ b. body_view b ≡ requests.body_in 8 (map node_view parts.now)) }
{
    let [object, changes, _] = parts else {
        unreachable!()
    };
    Ok(Body::Modify {
        object: name_of(alloc, object)?,
        changes: changes_in(alloc, changes.parts())?,
    })
}

fn rename_in(alloc: Global, parts: &[Node<'_>]) -> Result<Body, NoMemory>
    requires { sayable.AreParts 9 (map node_view parts.now) }
    ensures { IfOk result (λ b. body_view b ≡ requests.body_in 9 (map node_view parts.now)) }
{
    let [object, rdn, drops, _] = parts else {
        unreachable!()
    };
    Ok(Body::ModifyDn {
        object: name_of(alloc, object)?,
        rdn: rdn_of(alloc, rdn)?,
        drop_old: flag_in(drops),
    })
}

/// The operation of the code, with its argument's components.
fn body_in(alloc: Global, code: u32, parts: &[Node<'_>]) -> Result<Body, NoMemory>
    requires { sayable.AreParts code (map node_view parts.now) }
    ensures { IfOk result (λ b. body_view b ≡ requests.body_in code (map node_view parts.now)) }
{
    match code {
        1 => read_in(alloc, parts),
        2 => compare_in(alloc, parts),
        4 => list_in(alloc, parts),
        5 => search_in(alloc, parts),
        6 => add_in(alloc, parts),
        7 => remove_in(alloc, parts),
        8 => modify_in(alloc, parts),
        _ => rename_in(alloc, parts),
    }
}

/// The request of the operation with the code that the argument says.
pub fn argument_in(alloc: Global, code: u32, node: &Node<'_>) -> Result<Request, NoMemory>
    requires { sayable.IsArgument code (node_view node.now) }
    ensures { IfOk result (λ r. request_view r ≡ requests.argument_in code (node_view node.now)) }
{
    let parts = node.parts();
    let Some(controls) = parts.last() else {
        unreachable!()
    };
    Ok(Request {
        controls: controls_in(controls),
        body: body_in(alloc, code, parts)?,
    })
}

/// The id and the request of the user's message that the node says.
pub(crate) fn request_in(alloc: Global, node: &Node<'_>) -> Result<(u32, Request), NoMemory>
    requires { sayable.IsRequest (node_view node.now) }
    ensures { IfOk result (λ p. (p.0, request_view p.1) ≡ requests.request_in (node_view node.now)) }
{
    let Node::Chosen(_, message) = node else {
        unreachable!()
    };
    let parts = message.parts();
    if parts.len() != 3 {
        unreachable!()
    }
    let code = code_in(&parts[1]);
    let request = argument_in(alloc, code, &parts[2])?;
    Ok((code_in(&parts[0]), request))
}
