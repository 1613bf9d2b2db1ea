//! Values of types with components or members, of these.
ghost use Rattle.std.specs.Prelude.{◌≡◌, ◌∷◌, [], map, IfOk, pos};
ghost use Rattle.x5_model_messages.specs.Terms.{node_of};
ghost use Rattle.x5_model_typed.specs.Nodes as nodes;
ghost use Rattle.x5_types.specs.NodeView.{node_view};

use std::alloc::Global;
use x5_memory::NoMemory;
use x5_syntax::Text;
use x5_types::{Characters, Node};

/// The value whose parts these are.
pub fn many<'a>(parts: Vec<Node<'a>>) -> Node<'a>
    ensures { node_view result ≡ node_of (map node_view parts.entry.items) }
{
    Node::Many(parts)
}

/// The value of one part.
pub fn one<'a>(alloc: Global, a: Node<'a>) -> Result<Node<'a>, NoMemory>
    ensures { IfOk result (λ n. node_view n ≡ node_of (node_view a.entry ∷ [])) }
{
    Ok(many(vec![in alloc; a]?))
}

/// The value of two parts.
pub fn two<'a>(alloc: Global, a: Node<'a>, b: Node<'a>) -> Result<Node<'a>, NoMemory>
    ensures { IfOk result (λ n. node_view n ≡ node_of (node_view a.entry ∷ node_view b.entry ∷ [])) }
{
    Ok(many(vec![in alloc; a, b]?))
}

/// The value of three parts.
pub fn three<'a>(alloc: Global, a: Node<'a>, b: Node<'a>, c: Node<'a>) -> Result<Node<'a>, NoMemory>
    ensures { IfOk result (λ n. node_view n ≡ node_of (node_view a.entry ∷ node_view b.entry ∷ node_view c.entry ∷ [])) }
{
    Ok(many(vec![in alloc; a, b, c]?))
}

/// The value of four parts.
pub fn four<'a>(
    alloc: Global,
    a: Node<'a>,
    b: Node<'a>,
    c: Node<'a>,
    d: Node<'a>,
) -> Result<Node<'a>, NoMemory>
    ensures { IfOk result (λ n. node_view n ≡ node_of (node_view a.entry ∷ node_view b.entry ∷ node_view c.entry
        ∷ node_view d.entry ∷ [])) }
{
    Ok(many(vec![in alloc; a, b, c, d]?))
}

/// One of several, by its context tag.
pub fn chosen<'a>(alloc: Global, tag: u32, node: Node<'a>) -> Result<Node<'a>, NoMemory>
    ensures { IfOk result (λ n. node_view n ≡ nodes.Chosen tag (node_view node.entry)) }
{
    Ok(Node::Chosen(tag, Box::new(alloc, node)?))
}

/// A number.
pub fn number<'a>(number: u32) -> Node<'a>
    ensures { node_view result ≡ nodes.whole number }
{
    Node::Number(i64::from(number))
}

pub(crate) fn text<'a>(text: &'a Text) -> Node<'a>
    ensures { node_view result ≡ nodes.Text text.now }
{
    Node::Text(Characters::Lent(text.as_str()))
}
