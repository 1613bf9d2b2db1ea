//! The one tree: all entries in the order of their keys, with the naming contexts and their masters.

ghost use Rattle.std.specs.Prelude.{◌≡◌, ℕ, true, false, List, IfOk, OnOk, OnErr};
ghost use Rattle.x5_model.specs.Answers as answers;
ghost use Rattle.x5_model.specs.Values.{key_of};
ghost use Rattle.x5_model_tree.specs.Ask as model;
ghost use Rattle.x5_model_tree.specs.Consistent.{IsConsistent};
ghost use Rattle.x5_model_tree.specs.Described.{IsDescribed};
ghost use Rattle.x5_model_tree.specs.Masters.{whole};
ghost use Rattle.x5_model_run.specs.History.{tree_with};
ghost use Rattle.x5_know.specs.WorldView.{world_view};
ghost use Rattle.x5_ops.specs.AnswerViews.{reply_view};
ghost use Rattle.x5_ops.specs.RequestViews.{body_view, request_view, name_of};
ghost use Rattle.x5_one.specs.One.{contexts_of, tree_in};
ghost use Rattle.x5_one.specs.Replies.{reply_of, source_at};

use crate::answering::answer;
use crate::contexts::{Held, Pin, contexts_in, pins_of};
use crate::entries::entries_in;
use crate::updating::{replied, update};
use std::alloc::Global;
use std::marker::Model;
use x5_know::Described;
use x5_memory::NoMemory;
use x5_ops::{Named, Reply, Request, fault_of};

/// The whole tree of a world, which answers by itself (X.501, section 7: the directory information tree). Contracts see its
/// entries in the order of their keys, and its naming contexts with their masters in the order of the world's file.
#[derive(Drop)]
pub struct OneTree {
    entries: Vec<Named>,
    contexts: Vec<Held>,
    pins: Vec<Pin>,
}

impl Model for OneTree {
    ghost use Rattle.x5_one.specs.One as one;

    ghost Value = { one.One };

    ghost use Rattle.x5_one.specs.Kept as kept;

    ghost view = { kept.view };

    ghost invariant = { kept.Invariant };
}

impl OneTree {
    /// The tree of all entries that the world's agents master. Its knowledge must be consistent.
    pub fn new(alloc: Global, world: &Described) -> Result<OneTree, NoMemory>
        requires described { IsDescribed (world_view world.now) }
        requires consistent { IsConsistent (world_view world.now) }
        ensures tree { IfOk result (λ tree. tree_in tree ≡ whole (world_view world.now)) }
        ensures contexts { IfOk result (λ tree. tree.contexts ≡ contexts_of (world_view world.now)) }
    {
        let contexts = contexts_in(alloc, world)?;
        let pins = pins_of(alloc, &contexts)?;
        let entries = entries_in(alloc, world)?;
        Ok(OneTree {
            entries,
            contexts,
            pins,
        })
    }

    /// What a read, compare, list or search is answered (X.511, sections 9 and 10): static refusals come first. The source of a
    /// read or compare is the context with its master and no moment; a list or search has no sources.
    pub fn ask(&self, alloc: Global, request: &Request) -> Result<Reply, NoMemory>
        requires { model.is_update (body_view request.now.body) ≡ false }
        ensures { IfOk result (λ reply. (names : List (List ℕ)) → reply_view names reply ≡ reply_of (source_at names self.now.contexts (key_of (name_of (body_view request.now.body)))) (model.ask (tree_in self.now) (request_view request.now))) }
    {
        if let Some(error) = fault_of(alloc, request)? {
            return Ok(Reply::Failed(error));
        }
        answer(alloc, &self.entries, &self.contexts, &self.pins, request)
    }

    /// Makes an update (X.511, section 11): static refusals come first. Where it's refused the tree stays as it was, and so it
    /// does where memory runs out.
    pub fn apply(&mut self, alloc: Global, request: &Request) -> Result<Reply, NoMemory>
        requires { model.is_update (body_view request.now.body) ≡ true }
        ensures reply { IfOk result (λ reply. (names : List (List ℕ)) (source : answers.Source) → reply_view names reply ≡ reply_of source (model.ask (tree_in self.old) (request_view request.now))) }
        ensures tree { OnOk result (tree_in self.new ≡ tree_with (tree_in self.old) (request_view request.now)) }
        ensures contexts { self.new.contexts ≡ self.old.contexts }
        ensures err { OnErr result (self.new ≡ self.old) }
    {
        if let Some(error) = fault_of(alloc, request)? {
            return Ok(Reply::Failed(error));
        }
        let made = update(alloc, &mut self.entries, &self.pins, &request.body);
        replied(made)
    }
}
