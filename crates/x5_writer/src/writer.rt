//! Writes a value of a type as its canonical octets.
ghost use Rattle.std.specs.Prelude.{◌≡◌, ◌<◌, ◌++◌, map, IfOk, OnOk, IsTrue};
ghost use Rattle.std.specs.Option.{is_some};
ghost use Rattle.x5_model_octets.specs.Elements.{canonical, canonical_all};
ghost use Rattle.x5_model_typed.specs.Nodes as nodes;
ghost use Rattle.x5_model_typed.specs.Written as written;
ghost use Rattle.x5_types.specs.FormView.{alternative_view, around, component_view, components_view, content_view, named_view, table, table_in};
ghost use Rattle.x5_types.specs.NodeView.{node_view};
ghost use Rattle.x5_writer.specs.Contents.{components_of, content_of, element_of, octets_in, octets_of};
ghost use Rattle.x5_writer.specs.LeftView.{left_view};
ghost use Rattle.x5_writer.specs.Puts.{Puts, Writes};

use crate::backwards::Backwards;
use crate::choices::{chosen, holding, is_many, marked};
use crate::components::Left;
use crate::fault::WriteFault;
use crate::leaf::{holds, put_content};
use std::alloc::Global;
use x5_memory::NoMemory;
use x5_types::{Alternative, Component, Content, Named, Node, Surroundings, layout, same};

/// Writes the value as the canonical octets of the type in those surroundings (X.690, section 10): definite lengths in the fewest
/// octets, strings in one piece, components and members in their order, and none that has its default.
///
/// # Errors
/// That it is no value of the type, or that memory ran out.
pub fn write_in(
    alloc: Global,
    surroundings: Surroundings<'_>,
    form: Named,
    node: &Node<'_>,
) -> Result<Vec<u8>, WriteFault>
    ensures { Writes (written.canonical_octets (table_in surroundings.entry) (named_view form) (node_view node.now)) result }
{
    let mut out = Backwards::new(alloc);
    write_node(alloc, &mut out, surroundings, form, node)?;
    Ok(out.into_octets())
}

/// The same of a type that depends on no surroundings, as those of messages of users and between agents.
///
/// # Errors
/// That it is no value of the type, or that memory ran out.
pub fn write(alloc: Global, form: Named, node: &Node<'_>) -> Result<Vec<u8>, WriteFault>
    ensures { Writes (written.canonical_octets table (named_view form) (node_view node.now)) result }
{
    write_in(alloc, Surroundings::Nowhere, form, node)
}

/// Writes the element of a value of the type before the octets that are there.
///
/// # Errors
/// That it is no value of the type, or that memory ran out.
#[cycle(writing)]
pub fn write_node(
    alloc: Global,
    out: &mut Backwards,
    surroundings: Surroundings<'_>,
    form: Named,
    node: &Node<'_>,
) -> Result<(), WriteFault>
    ensures { Puts canonical (written.written (table_in surroundings.entry) ((table_in surroundings.entry) (named_view form)) (node_view node.now)) out.old out.new result }
{
    match chosen(node) {
        Some((tag, inner)) => {
            let Some(a) = marked(layout(form), tag) else {
                return Err(WriteFault::Misfit);
            };
            write_element(alloc, out, surroundings, a, inner, true)
        }
        None => {
            let Some(a) = holding(surroundings, layout(form), node) else {
                return Err(WriteFault::Misfit);
            };
            write_element(alloc, out, surroundings, a, node, false)
        }
    }
}

/// Whether the value is octets of the alternative's content. Where its tag was chosen, a value that has parts isn't.
fn has_octets(
    surroundings: Surroundings<'_>,
    chosen: bool,
    content: Content,
    node: &Node<'_>,
) -> bool
    ensures { result ≡ is_some (octets_of chosen (content_view (around surroundings.entry) content) (node_view node.now)) }
{
    !(chosen && is_many(node)) && holds(surroundings, content, node)
}

/// The primitive element whose octets say the value.
fn put_primitive(
    alloc: Global,
    out: &mut Backwards,
    surroundings: Surroundings<'_>,
    a: Alternative,
    node: &Node<'_>,
) -> Result<(), NoMemory>
    requires class { a.class < 4 }
    requires octets { IsTrue (is_some (written.leaf_octets (content_view (around surroundings) a.content) (node_view node.now))) }
    ensures { OnOk result (out.new ≡ canonical (written.primitive_of (alternative_view (around surroundings.entry) a) (octets_in (written.leaf_octets (content_view (around surroundings.entry) a.content) (node_view node.now)))) ++ out.old) }
{
    let behind = out.len();
    put_content(alloc, out, surroundings, a.content, node)?;
    out.put_header(a.class, false, a.tag, out.len() - behind)?;
    Ok(())
}

/// The element of a value by one alternative, whose tag was chosen or not.
#[cycle(writing)]
fn write_element(
    alloc: Global,
    out: &mut Backwards,
    surroundings: Surroundings<'_>,
    a: Alternative,
    node: &Node<'_>,
    chosen: bool,
) -> Result<(), WriteFault>
    requires { a.class < 4 }
    ensures { Puts canonical (element_of (table_in surroundings.entry) chosen (alternative_view (around surroundings.entry) a) (node_view node.now)) out.old out.new result }
{
    if has_octets(surroundings, chosen, a.content, node) {
        put_primitive(alloc, out, surroundings, a, node)?;
        return Ok(());
    }
    let behind = out.len();
    write_content(alloc, out, surroundings, a.content, node, chosen)?;
    out.put_header(a.class, true, a.tag, out.len() - behind)?;
    Ok(())
}

/// The elements of a content.
#[cycle(writing)]
fn write_content(
    alloc: Global,
    out: &mut Backwards,
    surroundings: Surroundings<'_>,
    content: Content,
    node: &Node<'_>,
    chosen: bool,
) -> Result<(), WriteFault>
    ensures { Puts canonical_all (content_of (table_in surroundings.entry) chosen (content_view (around surroundings.entry) content) (node_view node.now)) out.old out.new result }
{
    match content {
        Content::Explicit(form) if chosen => write_node(alloc, out, surroundings, form, node),
        Content::Sequence(components) => write_parts(alloc, out, surroundings, components, node),
        Content::Set(components) => write_parts(alloc, out, surroundings, components, node),
        Content::Members(form) if is_many(node) => write_members(
            alloc,
            out,
            surroundings,
            form,
            node.parts(),
        ),
        _ => Err(WriteFault::Misfit),
    }
}

/// The elements of the components of a value.
#[cycle(writing)]
fn write_parts(
    alloc: Global,
    out: &mut Backwards,
    surroundings: Surroundings<'_>,
    components: &'static [Component],
    node: &Node<'_>,
) -> Result<(), WriteFault>
    ensures { Puts canonical_all (components_of (table_in surroundings.entry) (node_view node.now) (components_view components.now)) out.old out.new result }
{
    if is_many(node) {
        write_components(
            alloc,
            out,
            surroundings,
            Left::Listed(components),
            node.parts(),
        )
    } else {
        Err(WriteFault::Misfit)
    }
}

/// The elements of values of one type.
#[cycle(writing)]
fn write_members(
    alloc: Global,
    out: &mut Backwards,
    surroundings: Surroundings<'_>,
    form: Named,
    members: &[Node<'_>],
) -> Result<(), WriteFault>
    ensures { Puts canonical_all (written.written_members (table_in surroundings.entry) ((table_in surroundings.entry) (named_view form)) (nodes.row (map node_view members.now))) out.old out.new result }
{
    let mut i = members.len();
    while i > 0 {
        i -= 1;
        write_node(alloc, out, surroundings, form, &members[i])?;
    }
    Ok(())
}

/// The elements of components, of which there are few.
#[cycle(writing)]
fn write_components(
    alloc: Global,
    out: &mut Backwards,
    surroundings: Surroundings<'_>,
    left: Left,
    values: &[Node<'_>],
) -> Result<(), WriteFault>
    ensures { Puts canonical_all (written.written_components (table_in surroundings.entry) (left_view left) (nodes.row (map node_view values.now))) out.old out.new result }
{
    let Some((component, others)) = left.split() else {
        return Ok(());
    };
    let [value, behind @ ..] = values else {
        return Err(WriteFault::Misfit);
    };
    if is_default(alloc, component, value)? {
        return write_components(alloc, out, surroundings, others, behind);
    }
    write_components(
        alloc,
        out,
        surroundings,
        others.behind(component.presence, value),
        behind,
    )?;
    write_component(alloc, out, surroundings, component, value)
}

/// The element of a component, with its explicit tag if it has one.
#[cycle(writing)]
fn write_component(
    alloc: Global,
    out: &mut Backwards,
    surroundings: Surroundings<'_>,
    component: Component,
    value: &Node<'_>,
) -> Result<(), WriteFault>
    ensures { Puts canonical (written.tagged_with (component_view component).tag (written.written (table_in surroundings.entry) ((table_in surroundings.entry) (component_view component).form) (node_view value.now))) out.old out.new result }
{
    let behind = out.len();
    write_node(alloc, out, surroundings, component.form, value)?;
    if let Some(tag) = component.tag {
        out.put_header(2, true, tag, out.len() - behind)?;
    }
    Ok(())
}

/// Whether the value is the one that the component has where it isn't there.
fn is_default(alloc: Global, component: Component, value: &Node<'_>) -> Result<bool, NoMemory>
    ensures { IfOk result (λ b. b ≡ written.is_default (component_view component).presence (node_view value.now)) }
{
    if !component.may_be_missing() {
        return Ok(false);
    }
    let default = component.default_node(alloc)?;
    Ok(same(&default, value))
}
