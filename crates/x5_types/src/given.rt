//! The values that components have where they aren't there.
ghost use Rattle.std.specs.Prelude.{◌≡◌, ◌∷◌, [], IfOk, false};
ghost use Rattle.x5_model_typed.specs.Judged as judged;
ghost use Rattle.x5_model_typed.specs.Leaves as leaves;
ghost use Rattle.x5_model_typed.specs.Nodes as nodes;
ghost use Rattle.x5_model_typed.specs.Layouts as layouts;
ghost use Rattle.x5_types.specs.FormView.{component_view, given_view};
ghost use Rattle.x5_types.specs.NodeView.{node_view};

use crate::bits::options_node;
use crate::form::{Component, Given, Presence};
use crate::node::Node;
use std::alloc::Global;
use x5_memory::NoMemory;

impl Component {
    /// The value that it has where it is missing; nothing where it has none.
    pub fn default_node<'a>(self, alloc: Global) -> Result<Node<'a>, NoMemory>
        ensures { IfOk result (λ n. node_view n ≡ judged.default_of (component_view self)) }
    {
        match self.presence {
            Presence::Default(given) => given_node(alloc, given),
            Presence::Required | Presence::Code(_) => Ok(Node::Vacant),
        }
    }
}

fn given_node<'a>(alloc: Global, given: Given) -> Result<Node<'a>, NoMemory>
    ensures { IfOk result (λ n. node_view n ≡ given_view given) }
{
    match given {
        Given::Vacant => Ok(Node::Vacant),
        Given::Flag(flag) => Ok(Node::Flag(flag)),
        Given::Zero => Ok(Node::Number(0)),
        Given::Nothing => Ok(nothing(alloc)),
        Given::NoOptions => options_node(alloc, false, false),
        Given::NoControls => no_controls(alloc),
        Given::AllAttributes => one(alloc, Node::Vacant),
        Given::Everything => Ok(Node::Chosen(1, Box::new(alloc, nothing(alloc))?)),
        Given::NoQualifier => two(alloc, Node::Vacant, nothing(alloc)),
    }
}

fn nothing<'a>(alloc: Global) -> Node<'a>
    ensures { node_view result ≡ nodes.Many nodes.Nil }
{
    Node::Many(Vec::new(alloc))
}

fn one<'a>(alloc: Global, first: Node<'a>) -> Result<Node<'a>, NoMemory>
    ensures { IfOk result (λ n. node_view n ≡ nodes.Many (nodes.row (node_view first.entry ∷ []))) }
{
    let mut parts = Vec::new(alloc);
    parts.push(first)?;
    Ok(Node::Many(parts))
}

/// Both, as parts of a whole.
pub(crate) fn two<'a>(
    alloc: Global,
    first: Node<'a>,
    second: Node<'a>,
) -> Result<Node<'a>, NoMemory>
    ensures { IfOk result (λ n. node_view n ≡ nodes.Many (nodes.row (node_view first.entry ∷ node_view second.entry ∷ []))) }
{
    let mut parts = Vec::new(alloc);
    parts.push(first)?;
    parts.push(second)?;
    Ok(Node::Many(parts))
}

/// Controls without a component.
fn no_controls<'a>(alloc: Global) -> Result<Node<'a>, NoMemory>
    ensures { IfOk result (λ n. node_view n ≡ layouts.no_controls) }
{
    let options = options_node(alloc, false, false)?;
    let mut parts = Vec::new(alloc);
    parts.push(options)?;
    parts.push(Node::Vacant)?;
    parts.push(Node::Vacant)?;
    parts.push(Node::Vacant)?;
    Ok(Node::Many(parts))
}
