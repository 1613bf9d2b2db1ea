//! The agents of a world with their places, each with its references in the order of the file.

ghost use Rattle.std.specs.Prelude.{◌≡◌, ◌≤◌, ◌++◌, length, map, IfOk};
ghost use Rattle.x5_model_tree.specs.Masters.{numbered};
ghost use Rattle.x5_model_tree.specs.Consistent.{references, in_file_order, ToBelow, ToAnywhere, specific_of};
ghost use Rattle.x5_check.specs.Kinds.{is_anywhere};
ghost use Rattle.x5_ops.specs.KnowledgeViews.{specific_view, cross_view};
ghost use Rattle.x5_know.specs.WorldView.{described_agent_view, world_view};

use std::alloc::Global;
use std::marker::Model;
use x5_know::{Described, DescribedAgent};
use x5_memory::NoMemory;
use x5_names::Name;
use x5_ops::{Access, AgentId, Cross, Specific};

/// A reference of either kind.
#[derive(Drop)]
pub(crate) struct FileReference<'a> {
    pin: &'a Name,
    access: &'a Access,
    is_cross: bool,
}

impl<'a> Model for FileReference<'a> {
    ghost use Rattle.std.specs.Prelude.{if◌then◌else◌};
    ghost use Rattle.x5_model_tree.specs.Consistent as consistent;

    ghost Value = { consistent.FileReference };

    ghost view = { λ r. if r.is_cross then consistent.ToAnywhere (record { pin = r.pin.now; access = r.access.now }) else consistent.ToBelow (record { pin = r.pin.now; access = r.access.now }) };
}

impl<'a> FileReference<'a> {
    /// A subordinate reference. No memory.
    fn below(reference: &'a Specific) -> FileReference<'a>
        ensures { result ≡ ToBelow (specific_view reference.now) }
    {
        FileReference {
            pin: &reference.pin,
            access: &reference.access,
            is_cross: false,
        }
    }

    /// A cross reference. No memory.
    fn anywhere(reference: &'a Cross) -> FileReference<'a>
        ensures { result ≡ ToAnywhere (cross_view reference.now) }
    {
        FileReference {
            pin: &reference.pin,
            access: &reference.access,
            is_cross: true,
        }
    }

    /// The name that it gives. No memory.
    pub(crate) fn pin(&self) -> &Name
        ensures { result.now ≡ (specific_of self.now).pin }
    {
        self.pin
    }

    /// The agents that it gives. No memory.
    pub(crate) fn access(&self) -> &Access
        ensures { result.now ≡ (specific_of self.now).access }
    {
        self.access
    }

    /// Whether it's a cross reference. No memory.
    pub(crate) fn is_cross(&self) -> bool
        ensures { result ≡ is_anywhere self.now }
    {
        self.is_cross
    }
}

/// All these, and the subordinate references.
fn with_below<'a>(
    list: Vec<FileReference<'a>>,
    references: &'a [Specific],
) -> Result<Vec<FileReference<'a>>, NoMemory>
    ensures { IfOk result (λ v. v.items ≡ list.entry.items ++ map ToBelow (map specific_view references.now)) }
{
    let mut list = list;
    for reference in references {
        list.push(FileReference::below(reference))?;
    }
    Ok(list)
}

/// All these, and the cross references.
fn with_anywhere<'a>(
    list: Vec<FileReference<'a>>,
    references: &'a [Cross],
) -> Result<Vec<FileReference<'a>>, NoMemory>
    ensures { IfOk result (λ v. v.items ≡ list.entry.items ++ map ToAnywhere (map cross_view references.now)) }
{
    let mut list = list;
    for reference in references {
        list.push(FileReference::anywhere(reference))?;
    }
    Ok(list)
}

/// The references of both kinds in the order that the file has; those that it doesn't count stand behind.
fn in_order<'a>(
    alloc: Global,
    crosses: &[bool],
    below: &'a [Specific],
    anywhere: &'a [Cross],
) -> Result<Vec<FileReference<'a>>, NoMemory>
    ensures { IfOk result (λ v. v.items ≡ in_file_order crosses.now (map specific_view below.now) (map cross_view anywhere.now)) }
{
    let mut below = below;
    let mut anywhere = anywhere;
    let mut list = Vec::new(alloc);
    for is_cross in crosses {
        if *is_cross {
            if let [first, rest @ ..] = anywhere {
                list.push(FileReference::anywhere(first))?;
                anywhere = rest;
            }
        } else if let [first, rest @ ..] = below {
            list.push(FileReference::below(first))?;
            below = rest;
        }
    }
    let list = with_below(list, below)?;
    with_anywhere(list, anywhere)
}

/// An agent with its place.
#[derive(Drop)]
pub(crate) struct Numbered<'a> {
    id: AgentId,
    agent: &'a DescribedAgent,
    references: Vec<FileReference<'a>>,
}

impl<'a> Model for Numbered<'a> {
    ghost use Rattle.std.specs.Prelude.{◌≡◌, ℕ};
    ghost use Rattle.x5_model_tree.specs.World as world;
    ghost use Rattle.x5_model_tree.specs.Consistent as consistent;
    ghost use Rattle.x5_know.specs.WorldView as views;

    ghost Value = { ℕ × world.Agent };

    ghost view = { λ n. (n.id, views.described_agent_view n.agent.now) };

    ghost invariant = { λ n. n.references.items ≡ consistent.references (views.described_agent_view n.agent.now) };
}

impl<'a> Numbered<'a> {
    /// The agent at the place.
    fn new(alloc: Global, id: AgentId, agent: &'a DescribedAgent) -> Result<Numbered<'a>, NoMemory>
        ensures { IfOk result (λ n. n ≡ (id, described_agent_view agent.now)) }
    {
        let references = in_order(
            alloc,
            agent.crosses.as_slice(),
            agent.spec.specific.as_slice(),
            agent.spec.cross.as_slice(),
        )?;
        Ok(Numbered {
            id,
            agent,
            references,
        })
    }

    /// Its place. No memory.
    pub(crate) fn id(&self) -> AgentId
        ensures { result ≡ self.now.0 }
    {
        self.id
    }

    /// Its superior; a first-level agent has none. No memory.
    pub(crate) fn superior(&self) -> Option<AgentId>
        ensures { result ≡ self.now.1.superior }
    {
        self.agent.spec.superior
    }

    /// Its subordinate references. No memory.
    pub(crate) fn subordinate(&self) -> &[Specific]
        ensures { map specific_view result.now ≡ self.now.1.subordinate }
    {
        self.agent.spec.specific.as_slice()
    }

    /// Its references of both kinds, in the order of the file. No memory.
    pub(crate) fn references(&self) -> &[FileReference<'a>]
        ensures { result.now ≡ references self.now.1 }
    {
        self.references.as_slice()
    }
}

/// The agents of the world with their places.
pub(crate) fn numbered_agents<'a>(
    alloc: Global,
    world: &'a Described,
) -> Result<Vec<Numbered<'a>>, NoMemory>
    requires { length world.now.agents ≤ 256 }
    ensures { IfOk result (λ v. v.items ≡ numbered (world_view world.now)) }
{
    let mut agents = Vec::new(alloc);
    for (place, agent) in world.agents.as_slice().iter().enumerate() {
        agents.push(Numbered::new(alloc, AgentId(place as u8), agent)?)?;
    }
    Ok(agents)
}
