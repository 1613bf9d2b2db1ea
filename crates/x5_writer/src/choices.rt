//! Which alternative of a type is written for a value.
ghost use Rattle.std.specs.Prelude.{◌≡◌, MatchOption, None, Some, false};
ghost use Rattle.std.specs.List.{find};
ghost use Rattle.x5_model_typed.specs.Layouts as layouts;
ghost use Rattle.x5_model_typed.specs.Nodes as nodes;
ghost use Rattle.x5_model_typed.specs.Written as written;
ghost use Rattle.x5_types.specs.FormView.{alternative_view, around, choices_view, content_view, types_view};
ghost use Rattle.x5_types.specs.NodeView.{node_view};
ghost use Rattle.x5_writer.specs.Contents.{is_chosen};

use crate::leaf::holds;
use x5_types::{Alternative, Choices, Content, Node, Surroundings};

/// The alternative that is marked with the tag.
pub(crate) fn marked(choices: Choices, tag: u32) -> Option<Alternative>
    ensures { (w : layouts.Surroundings) → MatchOption result
        (find (written.is_marked tag) (choices_view w choices) ≡ None)
        (λ a. find (written.is_marked tag) (choices_view w choices) ≡ Some (alternative_view w a)) }
{
    match choices {
        Choices::Listed(types) => listed_marked(types, tag),
        Choices::One(alternative) => {
            if alternative.marked && alternative.tag == tag {
                Some(alternative)
            } else {
                None
            }
        }
        Choices::Filter(_) => choices.by_tag(2, tag),
    }
}

fn listed_marked(types: &'static [Alternative], tag: u32) -> Option<Alternative>
    ensures { (w : layouts.Surroundings) → MatchOption result
        (find (written.is_marked tag) (types_view w types.now) ≡ None)
        (λ a. find (written.is_marked tag) (types_view w types.now) ≡ Some (alternative_view w a)) }
{
    for a in types {
        if a.marked && a.tag == tag {
            return Some(*a);
        }
    }
    None
}

/// The first alternative whose content says the value.
pub(crate) fn holding(
    surroundings: Surroundings<'_>,
    choices: Choices,
    node: &Node<'_>,
) -> Option<Alternative>
    ensures { MatchOption result
        (find (written.can_hold (node_view node.now)) (choices_view (around surroundings.entry) choices) ≡ None)
        (λ a. find (written.can_hold (node_view node.now)) (choices_view (around surroundings.entry) choices) ≡ Some (alternative_view (around surroundings.entry) a)) }
{
    match choices {
        Choices::Listed(types) => listed_holding(surroundings, types, node),
        Choices::One(alternative) => {
            if can_hold(surroundings, alternative, node) {
                Some(alternative)
            } else {
                None
            }
        }
        Choices::Filter(_) => None,
    }
}

fn listed_holding(
    surroundings: Surroundings<'_>,
    types: &'static [Alternative],
    node: &Node<'_>,
) -> Option<Alternative>
    ensures { MatchOption result
        (find (written.can_hold (node_view node.now)) (types_view (around surroundings.entry) types.now) ≡ None)
        (λ a. find (written.can_hold (node_view node.now)) (types_view (around surroundings.entry) types.now) ≡ Some (alternative_view (around surroundings.entry) a)) }
{
    for a in types {
        if can_hold(surroundings, *a, node) {
            return Some(*a);
        }
    }
    None
}

fn can_hold(surroundings: Surroundings<'_>, a: Alternative, node: &Node<'_>) -> bool
    ensures { result ≡ written.can_hold (node_view node.now) (alternative_view (around surroundings.entry) a) }
{
    holds(surroundings, a.content, node) || (is_many(node) && is_made_of_members(a.content))
}

/// The tag that was chosen and what has it, if the value is one of several.
pub(crate) fn chosen<'n, 'a>(node: &'n Node<'a>) -> Option<(u32, &'n Node<'a>)>
    ensures { MatchOption result
        (is_chosen (node_view node.now) ≡ false)
        (λ p. node_view node.now ≡ nodes.Chosen p.0 (node_view p.1.now)) }
{
    match node {
        Node::Chosen(tag, inner) => Some((*tag, inner)),
        _ => None,
    }
}

/// Whether the value has parts.
pub(crate) fn is_many(node: &Node<'_>) -> bool
    ensures { result ≡ written.is_many (node_view node.now) }
{
    matches!(node, Node::Many(_))
}

fn is_made_of_members(content: Content) -> bool
    ensures { (w : layouts.Surroundings) → result ≡ written.is_made_of_members (content_view w content) }
{
    matches!(
        content,
        Content::Sequence(_) | Content::Set(_) | Content::Members(_)
    )
}
