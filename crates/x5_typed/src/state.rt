//! Where reading stands in a constructed content.
ghost use Rattle.std.specs.Prelude.{◌≡◌, ◌≤◌, ◌<◌, ◌+◌, ◌++◌, ◌∷◌, ◌||◌, [], map, drop, MatchResult, IfOk, OnOk, Ok, Err, Some, length, take, slice_set};
ghost use Rattle.std.specs.List.{list_all};
ghost use Rattle.x5_model_typed.specs.Judged as judged;
ghost use Rattle.x5_model_typed.specs.Layouts as layouts;
ghost use Rattle.x5_typed.specs.Breaches.{breach_view, Gives};
ghost use Rattle.x5_types.specs.FormView.{around, content_view, named_view};
ghost use Rattle.x5_types.specs.NodeView.{node_view, option_view};
ghost use Rattle.x5_typed.specs.StateView.{state_view, awaited_view, step_view, left_view, awaits_bits, IsState, Fits, IsSequence, no_node};

use crate::fault::{Breach, ReadFault, wrong_content, wrong_tag};
use crate::slots::{
    Awaited, Left, Step, components_in, is_taken, left_behind, sequence_awaits, set_awaits,
};
use std::alloc::Global;
use x5_memory::NoMemory;
use x5_types::{
    BIT_SEGMENT, Bytes, Choices, Component, Content, Named, Node, SEGMENT, Surroundings, layout,
    read_bits, read_leaf,
};

/// Where reading stands: the element's place and content, the components that may still come, what the members so far
/// say (of a SET in a slot for each component), and the last member's place.
#[derive(Drop)]
pub(crate) struct State<'a> {
    pub at: usize,
    pub content: Content,
    pub left: Left,
    pub nodes: Vec<Node<'a>>,
    pub slots: Vec<Option<Node<'a>>>,
    pub last: usize,
}

/// Whether a segment of a bit string has unused bits.
fn is_ragged(node: &Node<'_>) -> bool
    ensures { result ≡ judged.is_ragged (node_view node.now) }
{
    match node {
        Node::Bits(bits) => bits.len() % 8 != 0,
        _ => false,
    }
}

/// Whether the last segment of a bit string has unused bits.
fn is_last_ragged(nodes: &[Node<'_>]) -> bool
    ensures { result ≡ judged.is_ragged (judged.last_node (map node_view nodes.now)) }
{
    if nodes.is_empty() {
        return false;
    }
    is_ragged(&nodes[nodes.len() - 1])
}

fn next_of(form: Named) -> Awaited
    ensures { (w : layouts.Surroundings) → awaited_view w result ≡ record { types = layouts.layout w (named_view form); step = judged.Next } }
{
    Awaited {
        choices: layout(form),
        step: Step::Next,
    }
}

impl<'a> State<'a> {
    /// What the next member has to be, by its place and tag.
    pub(crate) fn awaits(&self, at: usize, class: u8, tag: u32) -> Result<Awaited, Breach>
        requires { IsState self.now }
        ensures fits { IfOk result (λ a. Fits a.step self.now) }
        ensures awaits { (w : layouts.Surroundings) → MatchResult result
            (λ a. judged.awaits (layouts.layout w) (state_view w self.now) at class tag ≡ Ok (awaited_view w a))
            (λ b. judged.awaits (layouts.layout w) (state_view w self.now) at class tag ≡ Err (breach_view b)) }
    {
        match self.content {
            Content::Primitive(_) | Content::Never => Err(wrong_content(self.at)),
            Content::Joined(_) => Ok(Awaited {
                choices: Choices::Listed(SEGMENT),
                step: Step::Next,
            }),
            Content::JoinedBits(_) => self.awaits_bits(),
            Content::Explicit(form) => {
                if self.nodes.is_empty() {
                    Ok(next_of(form))
                } else {
                    Err(wrong_tag(at))
                }
            }
            Content::Sequence(_) => sequence_awaits(&self.left, at, class, tag),
            Content::Set(_) => set_awaits(&self.left, &self.slots, at, class, tag),
            Content::Members(form) => Ok(next_of(form)),
        }
    }

    /// The next segment of a bit string: one with unused bits is the last.
    fn awaits_bits(&self) -> Result<Awaited, Breach>
        ensures fits { IfOk result (λ a. Fits a.step self.now) }
        ensures awaits { (w : layouts.Surroundings) → MatchResult result
            (λ a. awaits_bits (state_view w self.now) ≡ Ok (awaited_view w a))
            (λ b. awaits_bits (state_view w self.now) ≡ Err (breach_view b)) }
    {
        if is_last_ragged(&self.nodes) {
            Err(wrong_content(self.last))
        } else {
            Ok(Awaited {
                choices: Choices::Listed(BIT_SEGMENT),
                step: Step::Next,
            })
        }
    }

    /// The beginning of a content.
    pub(crate) fn new(alloc: Global, at: usize, content: Content) -> Result<State<'a>, NoMemory>
        ensures begun { (w : layouts.Surroundings) → IfOk result (λ s. state_view w s ≡ judged.begun at (content_view w content)) }
        ensures kept { IfOk result IsState }
    {
        let left = components_in(content);
        let slots = empty_slots(alloc, content)?;
        let nodes = no_nodes(alloc, content)?;
        Ok(State {
            at,
            content,
            left,
            nodes,
            slots,
            last: at,
        })
    }

    /// What the content is that is over.
    pub(crate) fn ended(
        self,
        alloc: Global,
        surroundings: Surroundings<'_>,
    ) -> Result<Option<Node<'a>>, NoMemory>
        requires { IsState self }
        ensures { IfOk result (λ n. option_view n ≡ judged.ended (state_view (around surroundings.entry) self.entry)) }
    {
        match self.content {
            Content::Primitive(_) | Content::Never => Ok(None),
            Content::Members(_) => Ok(Some(Node::Many(self.nodes))),
            Content::Explicit(_) => Ok(first(self.nodes)),
            Content::Sequence(_) => with_defaults(alloc, self.nodes, &self.left),
            Content::Set(_) => with_slots(alloc, self.slots, &self.left),
            Content::Joined(leaf) => {
                let octets = joined(alloc, &self.nodes)?;
                read_leaf(alloc, surroundings, leaf, Bytes::Kept(octets))
            }
            Content::JoinedBits(leaf) => {
                let bits = joined_bits(alloc, &self.nodes)?;
                read_bits(alloc, leaf, bits)
            }
        }
    }

    /// Goes on behind a member.
    pub(crate) fn step(
        &mut self,
        alloc: Global,
        at: usize,
        step: Step,
        node: Node<'a>,
    ) -> Result<(), ReadFault>
        requires fits { Fits step self.old }
        requires state { IsState self.old }
        ensures stepped { (w : layouts.Surroundings) → Gives (λ _ t. state_view w self.new ≡ t) (judged.stepped (state_view w self.old) at (step_view step) (node_view node.entry)) result }
        ensures kept { IsState self.new }
    {
        match step {
            Step::Next => self.push(at, node),
            Step::InPlace(i) => self.place(alloc, at, i, node),
            Step::InSlot(i) => {
                self.put(at, i, node);
                Ok(())
            }
        }
    }

    fn push(&mut self, at: usize, node: Node<'a>) -> Result<(), ReadFault>
        requires state { IsState self.old }
        ensures stepped { (w : layouts.Surroundings) → Gives (λ _ t. state_view w self.new ≡ t) (judged.stepped (state_view w self.old) at judged.Next (node_view node.entry)) result }
        ensures kept { IsState self.new }
    {
        self.nodes.push(node)?;
        self.last = at;
        Ok(())
    }

    fn put(&mut self, at: usize, i: usize, node: Node<'a>)
        requires state { IsState self.old }
        requires fits { i < length self.old.slots.items }
        ensures stepped { (w : layouts.Surroundings) → Ok (state_view w self.new) ≡ judged.stepped (state_view w self.old) at (judged.InSlot i) (node_view node.entry) }
        ensures kept { IsState self.new }
    {
        fill(&mut self.slots, i, node);
        self.last = at;
    }

    fn place(&mut self, alloc: Global, at: usize, i: usize, node: Node<'a>) -> Result<(), ReadFault>
        requires fits { i < length (left_view self.old.left) }
        requires sequence { IsSequence self.old }
        ensures stepped { (w : layouts.Surroundings) → Gives (λ _ t. state_view w self.new ≡ t) (judged.stepped (state_view w self.old) at (judged.InPlace i) (node_view node.entry)) result }
        ensures kept { IsState self.new }
    {
        let component = self.left.component(i);
        let left = left_behind(component.presence, &node, self.left.behind(i), at)?;
        push_defaults(alloc, &mut self.nodes, &self.left, i)?;
        self.nodes.push(node)?;
        self.left = left;
        self.last = at;
        Ok(())
    }
}

fn fill<'a>(slots: &mut Vec<Option<Node<'a>>>, i: usize, node: Node<'a>)
    requires { i < length slots.old.items }
    ensures items { slots.new.items ≡ slice_set slots.old.items i (Some node.entry) }
    ensures seen { map option_view slots.new.items ≡ slice_set (map option_view slots.old.items) i (Some (node_view node.entry)) }
    ensures count { length slots.new.items ≡ length slots.old.items }
{
    slots[i] = Some(node);
}

/// Puts the values of the first components, which are missing.
fn push_defaults(
    alloc: Global,
    nodes: &mut Vec<Node<'_>>,
    left: &Left,
    count: usize,
) -> Result<(), NoMemory>
    requires { count ≤ length (left_view left.now) }
    ensures { OnOk result (map node_view nodes.new.items ≡ map node_view nodes.old.items ++ map judged.default_of (take count (left_view left.now))) }
{
    for i in 0..count {
        let node = left.component(i).default_node(alloc)?;
        nodes.push(node)?;
    }
    Ok(())
}

/// Room for the members that a content has as a rule.
fn no_nodes<'a>(alloc: Global, content: Content) -> Result<Vec<Node<'a>>, NoMemory>
    ensures { IfOk result (λ nodes. nodes.items ≡ []) }
{
    match content {
        Content::Sequence(components) => Ok(Vec::with_capacity(alloc, components.len())?),
        Content::Explicit(_) | Content::Members(Named::Pair | Named::Value) => Ok(
            Vec::with_capacity(alloc, 1)?,
        ),
        _ => Ok(Vec::new(alloc)),
    }
}

fn empty_slots<'a>(alloc: Global, content: Content) -> Result<Vec<Option<Node<'a>>>, NoMemory>
    ensures { (w : layouts.Surroundings) → IfOk result (λ slots. map option_view slots.items ≡ judged.slots_in (content_view w content)) }
{
    match content {
        Content::Set(components) => empty(alloc, components),
        _ => Ok(Vec::new(alloc)),
    }
}

fn empty<'a>(alloc: Global, components: &[Component]) -> Result<Vec<Option<Node<'a>>>, NoMemory>
    ensures { IfOk result (λ slots. map option_view slots.items ≡ map no_node components.now) }
{
    let mut slots = Vec::with_capacity(alloc, components.len())?;
    for _component in components {
        slots.push(None)?;
    }
    Ok(slots)
}

/// The first node, if there is one.
fn first<'a>(mut nodes: Vec<Node<'a>>) -> Option<Node<'a>>
    ensures { option_view result ≡ judged.only (map node_view nodes.entry.items) }
{
    if nodes.is_empty() {
        None
    } else {
        Some(nodes.swap_remove(0))
    }
}

/// The components of a SEQUENCE, where those that are left may be missing.
fn with_defaults<'a>(
    alloc: Global,
    mut nodes: Vec<Node<'a>>,
    left: &Left,
) -> Result<Option<Node<'a>>, NoMemory>
    ensures { IfOk result (λ n.
        option_view n
        ≡ judged.some_many (list_all judged.may_be_missing (left_view left.now)) (map node_view nodes.entry.items ++ map judged.default_of (left_view left.now))) }
{
    if !left.may_all_be_missing() {
        return Ok(None);
    }
    push_defaults(alloc, &mut nodes, left, left.len())?;
    Ok(Some(Node::Many(nodes)))
}

/// Whether each component is there or may be missing.
fn are_filled(slots: &[Option<Node<'_>>], left: &Left) -> bool
    requires { length slots.now ≡ length (left_view left.now) }
    ensures { result ≡ judged.all_filled (left_view left.now) (map option_view slots.now) }
{
    for i in 0..left.len() {
        let taken = is_taken(slots, i);
        let missing = left.component(i).may_be_missing();
        if !either(taken, missing) {
            return false;
        }
    }
    true
}

fn either(a: bool, b: bool) -> bool
    ensures { result ≡ (a || b) }
{
    a || b
}

/// Takes what stands in a slot.
fn taken<'a>(slots: &mut Vec<Option<Node<'a>>>, i: usize) -> Option<Node<'a>>
    requires { i < length slots.old.items }
    ensures item { drop i (map option_view slots.old.items) ≡ option_view result ∷ drop (i + 1) (map option_view slots.old.items) }
    ensures later { drop (i + 1) (map option_view slots.new.items) ≡ drop (i + 1) (map option_view slots.old.items) }
    ensures count { length slots.new.items ≡ length slots.old.items }
{
    slots[i].take()
}

/// What a component is: what stands in its slot, or its default.
fn filled<'a>(
    alloc: Global,
    slots: &mut Vec<Option<Node<'a>>>,
    left: &Left,
    i: usize,
) -> Result<Node<'a>, NoMemory>
    requires slot { i < length slots.old.items }
    requires place { i < length (left_view left.now) }
    ensures item { IfOk result (λ node.
        judged.filled (drop i (left_view left.now)) (drop i (map option_view slots.old.items))
        ≡ node_view node ∷ judged.filled (drop (i + 1) (left_view left.now)) (drop (i + 1) (map option_view slots.new.items))) }
    ensures count { length slots.new.items ≡ length slots.old.items }
{
    match taken(slots, i) {
        Some(node) => Ok(node),
        None => left.component(i).default_node(alloc),
    }
}

/// The components of a SET, where those that aren't there may be missing.
fn with_slots<'a>(
    alloc: Global,
    mut slots: Vec<Option<Node<'a>>>,
    left: &Left,
) -> Result<Option<Node<'a>>, NoMemory>
    requires { length slots.items ≡ length (left_view left.now) }
    ensures { IfOk result (λ n.
        option_view n
        ≡ judged.some_many (judged.all_filled (left_view left.now) (map option_view slots.entry.items)) (judged.filled (left_view left.now) (map option_view slots.entry.items))) }
{
    if !are_filled(&slots, left) {
        return Ok(None);
    }
    let mut nodes = Vec::with_capacity(alloc, left.len())?;
    for i in 0..left.len() {
        let node = filled(alloc, &mut slots, left, i)?;
        nodes.push(node)?;
    }
    Ok(Some(Node::Many(nodes)))
}

/// Adds the octets of a segment.
fn add_octets(octets: &mut Vec<u8>, node: &Node<'_>) -> Result<(), NoMemory>
    ensures { OnOk result (octets.new.items ≡ octets.old.items ++ judged.joined (node_view node.now ∷ [])) }
{
    if let Node::Octets(segment) = node {
        octets.extend_from_slice(segment.as_slice())?;
    }
    Ok(())
}

/// The octets of segments.
fn joined(alloc: Global, nodes: &[Node<'_>]) -> Result<Vec<u8>, NoMemory>
    ensures { IfOk result (λ v. v.items ≡ judged.joined (map node_view nodes.now)) }
{
    let mut octets = Vec::new(alloc);
    for node in nodes {
        add_octets(&mut octets, node)?;
    }
    Ok(octets)
}

/// Adds the bits of a segment.
fn add_bits(bits: &mut Vec<bool>, node: &Node<'_>) -> Result<(), NoMemory>
    ensures { OnOk result (bits.new.items ≡ bits.old.items ++ judged.joined_bits (node_view node.now ∷ [])) }
{
    if let Node::Bits(segment) = node {
        bits.extend_from_slice(segment)?;
    }
    Ok(())
}

/// The bits of segments.
fn joined_bits(alloc: Global, nodes: &[Node<'_>]) -> Result<Vec<bool>, NoMemory>
    ensures { IfOk result (λ v. v.items ≡ judged.joined_bits (map node_view nodes.now)) }
{
    let mut bits = Vec::new(alloc);
    for node in nodes {
        add_bits(&mut bits, node)?;
    }
    Ok(bits)
}
