//! Messages of shadowing (X.525, sections 9 to 12) that values of types of messages say.
ghost use Rattle.std.specs.Prelude.{◌≡◌, ℕ, List, IfOk, map};
ghost use Rattle.x5_dapber.specs.Sayable.{IsCount};
ghost use Rattle.x5_dispber.specs.Sayable.{AreMessage, IsArgument, IsDone, IsFailed, IsMessage};
ghost use Rattle.x5_dispber.specs.ShadowViews.{told_shadow};
ghost use Rattle.x5_know.specs.Names.{has_name};
ghost use Rattle.x5_model_messages.specs.Shadows as shadows;
ghost use Rattle.x5_types.specs.NodeView.{node_view};

use crate::read_refreshes::refresh_in;
use crate::shadow::Shadow;
use std::alloc::Global;
use x5_dapber::read_parts::code_in;
use x5_dapreply::read_references::{moment_in, small_in};
use x5_know::AgentNames;
use x5_memory::NoMemory;
use x5_ops::Moment;
use x5_types::Node;

/// Whether the strategy is total (X.525, section 9.2).
fn is_total(node: &Node<'_>) -> bool
    requires { IsCount (node_view node.now) }
    ensures { result ≡ shadows.is_total (node_view node.now) }
{
    code_in(node) == 2
}

/// What the argument of the operation with the code says.
fn argument_in(
    alloc: Global,
    names: &AgentNames,
    code: u32,
    node: &Node<'_>,
) -> Result<Shadow, NoMemory>
    requires { IsArgument (has_name names.now) code (node_view node.now) }
    ensures { IfOk result (λ m. told_shadow names.now m ≡ shadows.argument_in code (node_view node.now)) }
{
    match node.parts() {
        [agreement, a, b] => match code {
            1 => Ok(Shadow::Request {
                agreement: code_in(agreement),
                last: moment_in(a),
                total: is_total(b),
            }),
            2 => Ok(Shadow::Update {
                agreement: code_in(agreement),
                stamp: Moment(code_in(a)),
                refresh: refresh_in(alloc, names, b)?,
            }),
            _ => Ok(Shadow::Coordinate {
                agreement: code_in(agreement),
                last: moment_in(a),
                total: is_total(b),
            }),
        },
        _ => unreachable!(),
    }
}

/// The result that the node says: of which operation it is.
fn done_in(node: &Node<'_>) -> Shadow
    requires { IsDone (node_view node.now) }
    ensures { (names : List (List ℕ)) → told_shadow names result ≡ shadows.done_in (node_view node.now) }
{
    match node.parts() {
        [code, _] => Shadow::Done {
            operation: small_in(code),
        },
        _ => unreachable!(),
    }
}

/// The error that the node says.
fn failed_in(node: &Node<'_>) -> Shadow
    requires { IsFailed (node_view node.now) }
    ensures { (names : List (List ℕ)) → told_shadow names result ≡ shadows.failed_in (node_view node.now) }
{
    match node.parts() {
        [problem, held, given] => Shadow::Failed {
            problem: small_in(problem),
            held: moment_in(held),
            given: moment_in(given),
        },
        _ => unreachable!(),
    }
}

/// The id and the message that the components with the tag say.
fn message_in(
    alloc: Global,
    names: &AgentNames,
    tag: u32,
    parts: &[Node<'_>],
) -> Result<(u32, Shadow), NoMemory>
    requires { AreMessage (has_name names.now) tag (map node_view parts.now) }
    ensures { IfOk result (λ p. (p.0, told_shadow names.now p.1) ≡ shadows.message_in tag (map node_view parts.now)) }
{
    match parts {
        [id, inner] => Ok((code_in(id), done_in(inner))),
        [id, code, said] => match tag {
            1 => Ok((code_in(id), argument_in(alloc, names, code_in(code), said)?)),
            _ => Ok((code_in(id), failed_in(said))),
        },
        _ => unreachable!(),
    }
}

/// The id and the message of shadowing that the node says.
pub(crate) fn shadow_in(
    alloc: Global,
    names: &AgentNames,
    node: &Node<'_>,
) -> Result<(u32, Shadow), NoMemory>
    requires { IsMessage (has_name names.now) (node_view node.now) }
    ensures { IfOk result (λ p. (p.0, told_shadow names.now p.1) ≡ shadows.shadow_in (node_view node.now)) }
{
    match node {
        Node::Chosen(tag, message) => message_in(alloc, names, *tag, message.parts()),
        _ => unreachable!(),
    }
}
