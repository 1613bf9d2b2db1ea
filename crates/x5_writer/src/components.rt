//! The components of a SEQUENCE or SET that are still to be written.
ghost use Rattle.std.specs.Prelude.{◌≡◌, ◌∷◌, [], MatchOption};
ghost use Rattle.x5_model_typed.specs.Written as written;
ghost use Rattle.x5_types.specs.FormView.{component_view, components_view, presence_view};
ghost use Rattle.x5_types.specs.NodeView.{node_view};
ghost use Rattle.x5_writer.specs.LeftView.{left_view};

use x5_types::{Component, Named, Node, Presence};

#[derive(Clone, Copy)]
pub(crate) enum Left {
    Listed(&'static [Component]),
    /// The one that a code names.
    Named(Named),
}

impl Left {
    /// The first one, and those behind it.
    pub(crate) fn split(self) -> Option<(Component, Left)>
        ensures { MatchOption result
            (left_view self ≡ [])
            (λ p. left_view self ≡ component_view p.0 ∷ left_view p.1) }
    {
        match self {
            Left::Listed(components) => split_listed(components),
            Left::Named(form) => Some((
                Component {
                    tag: None,
                    form,
                    presence: Presence::Required,
                },
                Left::Listed(&[]),
            )),
        }
    }

    /// Those behind a component that has this value: a code names the only one.
    pub(crate) fn behind(self, presence: Presence, node: &Node<'_>) -> Left
        ensures { left_view result ≡ written.goes_on (presence_view presence) (node_view node.now) (left_view self) }
    {
        match (presence, node) {
            (Presence::Code(codes), Node::Number(number)) => match codes.named(*number) {
                Some(form) => Left::Named(form),
                None => self,
            },
            _ => self,
        }
    }
}

fn split_listed(components: &'static [Component]) -> Option<(Component, Left)>
    ensures { MatchOption result
        (components_view components.now ≡ [])
        (λ p. components_view components.now ≡ component_view p.0 ∷ left_view p.1) }
{
    match components {
        [] => None,
        [first, others @ ..] => Some((*first, Left::Listed(others))),
    }
}
