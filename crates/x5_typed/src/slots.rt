//! The components of a SEQUENCE or SET that may still come, and which of them an element is.
ghost use Rattle.std.specs.Prelude.{◌≡◌, ◌+◌, ◌<◌, ◌∷◌, [], map, MatchResult, IfOk, Ok, Err, length, drop};
ghost use Rattle.std.specs.List.{list_all};
ghost use Rattle.x5_model_typed.specs.Forms as forms;
ghost use Rattle.x5_model_typed.specs.Judged as judged;
ghost use Rattle.x5_model_typed.specs.Layouts as layouts;
ghost use Rattle.x5_typed.specs.Breaches.{breach_view};
ghost use Rattle.x5_types.specs.FormView.{choices_view, component_view, components_view, content_view, named_view, presence_view};
ghost use Rattle.x5_types.specs.NodeView.{node_view, option_view};
ghost use Rattle.x5_typed.specs.StateView.{awaited_view, left_view, IsPlace, IsSlot, SlotIs};

use crate::fault::{Breach, wrong_content, wrong_tag};
use x5_types::{Choices, Component, Content, Named, Node, Presence};

/// The components that may still come.
#[derive(Clone, Copy)]
pub(crate) enum Left {
    Listed(&'static [Component]),
    /// The one that a code names.
    Named(Named),
}

/// What a member is: the next one of the same kind, so many components on in a SEQUENCE, or that one of a SET.
#[derive(Clone, Copy)]
pub(crate) enum Step {
    Next,
    InPlace(usize),
    InSlot(usize),
}

/// What the next member has to be.
#[derive(Clone, Copy)]
pub(crate) struct Awaited {
    pub choices: Choices,
    pub step: Step,
}

impl Left {
    pub(crate) fn len(&self) -> usize
        ensures { result ≡ length (left_view self.now) }
    {
        match self {
            Left::Listed(components) => components.len(),
            Left::Named(_) => 1,
        }
    }

    /// The component so many components on.
    pub(crate) fn component(&self, i: usize) -> Component
        requires { i < length (left_view self.now) }
        ensures { drop i (left_view self.now) ≡ component_view result ∷ drop (i + 1) (left_view self.now) }
    {
        match self {
            Left::Listed(components) => listed(components, i),
            Left::Named(form) => Component {
                tag: None,
                form: *form,
                presence: Presence::Required,
            },
        }
    }

    /// The components behind that number.
    pub(crate) fn behind(&self, i: usize) -> Left
        requires { i < length (left_view self.now) }
        ensures { left_view result ≡ drop (i + 1) (left_view self.now) }
    {
        match self {
            Left::Listed(components) => listed_behind(components, i),
            Left::Named(_) => Left::Listed(&[]),
        }
    }

    pub(crate) fn may_all_be_missing(&self) -> bool
        ensures { result ≡ list_all judged.may_be_missing (left_view self.now) }
    {
        for i in 0..self.len() {
            if !self.component(i).may_be_missing() {
                return false;
            }
        }
        true
    }
}

fn listed(components: &'static [Component], i: usize) -> Component
    requires { i < length components.now }
    ensures { drop i (components_view components.now) ≡ component_view result ∷ drop (i + 1) (components_view components.now) }
{
    components[i]
}

fn listed_behind(components: &'static [Component], i: usize) -> Left
    requires { i < length components.now }
    ensures { left_view result ≡ drop (i + 1) (components_view components.now) }
{
    Left::Listed(&components[i + 1..])
}

/// The components of a content.
pub(crate) fn components_in(content: Content) -> Left
    ensures { (w : layouts.Surroundings) → left_view result ≡ judged.components_in (content_view w content) }
{
    match content {
        Content::Sequence(components) | Content::Set(components) => Left::Listed(components),
        _ => Left::Listed(&[]),
    }
}

/// In a SEQUENCE the first component that has the tag, where those before it may be missing.
pub(crate) fn sequence_awaits(
    left: &Left,
    at: usize,
    class: u8,
    tag: u32,
) -> Result<Awaited, Breach>
    ensures fits { IfOk result (λ a. IsPlace (length (left_view left.now)) a.step) }
    ensures awaits { (w : layouts.Surroundings) → MatchResult result
        (λ a. judged.sequence_awaits (layouts.layout w) at class tag 0 (left_view left.now) ≡ Ok (awaited_view w a))
        (λ b. judged.sequence_awaits (layouts.layout w) at class tag 0 (left_view left.now) ≡ Err (breach_view b)) }
{
    for i in 0..left.len() {
        let component = left.component(i);
        let choices = component.choices();
        if choices.by_tag(class, tag).is_some() {
            return Ok(Awaited {
                choices,
                step: Step::InPlace(i),
            });
        }
        if !component.may_be_missing() {
            return Err(wrong_tag(at));
        }
    }
    Err(wrong_tag(at))
}

/// Whether the slot has a value.
pub(crate) fn is_taken(slots: &[Option<Node<'_>>], i: usize) -> bool
    requires { i < length slots.now }
    ensures { SlotIs result i (map option_view slots.now) }
{
    slots[i].is_some()
}

/// In a SET the component that has the tag; each stands once.
pub(crate) fn set_awaits(
    left: &Left,
    slots: &[Option<Node<'_>>],
    at: usize,
    class: u8,
    tag: u32,
) -> Result<Awaited, Breach>
    requires { length slots.now ≡ length (left_view left.now) }
    ensures fits { IfOk result (λ a. IsSlot (length slots.now) a.step) }
    ensures awaits { (w : layouts.Surroundings) → MatchResult result
        (λ a. judged.set_awaits (layouts.layout w) at class tag 0 (left_view left.now) (map option_view slots.now) ≡ Ok (awaited_view w a))
        (λ b. judged.set_awaits (layouts.layout w) at class tag 0 (left_view left.now) (map option_view slots.now) ≡ Err (breach_view b)) }
{
    for i in 0..left.len() {
        let choices = left.component(i).choices();
        let taken = is_taken(slots, i);
        if choices.by_tag(class, tag).is_some() {
            if taken {
                return Err(wrong_content(at));
            }
            return Ok(Awaited {
                choices,
                step: Step::InSlot(i),
            });
        }
    }
    Err(wrong_tag(at))
}

/// The components behind one that has this value: a code names the last one.
pub(crate) fn left_behind(
    presence: Presence,
    node: &Node<'_>,
    rest: Left,
    at: usize,
) -> Result<Left, Breach>
    ensures { MatchResult result
        (λ left. judged.left_behind (presence_view presence) (node_view node.now) (left_view rest) at ≡ Ok (left_view left))
        (λ b. judged.left_behind (presence_view presence) (node_view node.now) (left_view rest) at ≡ Err (breach_view b)) }
{
    match presence {
        Presence::Code(codes) => match node {
            Node::Number(number) => match codes.named(*number) {
                Some(form) => Ok(Left::Named(form)),
                None => Err(Breach::Unrecognised(*number)),
            },
            _ => Err(wrong_content(at)),
        },
        Presence::Required | Presence::Default(_) => Ok(rest),
    }
}
