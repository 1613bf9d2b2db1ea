//! What a read or compare is answered at an entry (X.511, section 9).

ghost use Rattle.std.specs.Prelude.{◌≡◌, ◌<◌, ◌∷◌, [], ℕ, true, List, Some, length, IfOk, IsTrue, slice_get};
ghost use Rattle.std.specs.Option.{is_some};
ghost use Rattle.x5_model.specs.Answers as answers;
ghost use Rattle.x5_model.specs.Assertions.{assertion_of};
ghost use Rattle.x5_model.specs.Words.{distinct, same_octets};
ghost use Rattle.x5_model_tree.specs.Ask as model;
ghost use Rattle.x5_model_serve.specs.Answering as parts;
ghost use Rattle.x5_syntax.specs.TypeView.{type_view};
ghost use Rattle.x5_syntax.specs.ValueView.{value_view};
ghost use Rattle.x5_ops.specs.AnswerViews.{reply_view, source_view, info_view};
ghost use Rattle.x5_ops.specs.ReferenceViews.{chained_view};
ghost use Rattle.x5_ops.specs.RequestViews.{body_view, selection_view};
ghost use Rattle.x5_dse.specs.Linked.{Node, node_with, is_live};
ghost use Rattle.x5_holdings.specs.State.{Kept, CopyKept, held_view, copy_view};
ghost use Rattle.x5_eval.specs.Asked.{IsAsked, IsTarget, IsCopyTarget, read_told};
ghost use Rattle.x5_model_tree.specs.Ask.{is_read};
ghost use Rattle.x5_eval.specs.Spots.{info_shown};

use crate::naming::source;
use std::alloc::Global;
use x5_dse::{DseTree, NodeId};
use x5_holdings::Holdings;
use x5_know::AgentNames;
use x5_match::Entry;
use x5_memory::NoMemory;
use x5_ops::{
    Answer, Body, Chained, DirError, EntryInfo, Reply, Selection, Source, attribute_problem,
    compares, selection_fault, shown,
};
use x5_syntax::{TypeRef, Value};

/// noSuchAttributeOrValue (X.511, section 12.4).
fn lacking(kind: &TypeRef) -> Result<Reply, NoMemory>
    ensures { IfOk result (λ reply. (names : List (List ℕ)) → reply_view names reply ≡ answers.Failed (answers.AttributeProblem 1 (type_view kind.now))) }
{
    Ok(Reply::Failed(DirError::Attribute {
        problem: attribute_problem::NO_SUCH_ATTRIBUTE_OR_VALUE,
        kind: kind.clone()?,
    }))
}

/// The entry at the node with the selected attributes; `copy` says that it comes from a shadow.
pub(crate) fn info_at(
    alloc: Global,
    tree: &DseTree,
    node: NodeId,
    copy: bool,
    selection: &Selection,
) -> Result<EntryInfo, NoMemory>
    requires live { IsTrue (is_live tree.now.nodes node) }
    ensures info { IfOk result (λ info. (n : Node) → node_with tree.now.nodes node ≡ Some n → info_view info ≡ model.info_of (λ key. copy) (selection_view selection.now) n.named) }
    ensures shown { IfOk result (λ info. info_view info ≡ info_shown tree.now.nodes copy (selection_view selection.now) node) }
{
    Ok(EntryInfo {
        copy,
        attributes: shown(alloc, selection, tree.entry(node))?,
        name: tree.name(alloc, node)?,
    })
}

/// What a read is answered at a node (X.511, section 9.1).
fn read(
    alloc: Global,
    tree: &DseTree,
    node: NodeId,
    found: &Entry,
    source: Source,
    selection: &Selection,
) -> Result<Reply, NoMemory>
    requires live { IsTrue (is_live tree.now.nodes node) }
    ensures { IfOk result (λ reply. (names : List (List ℕ)) (n : Node) → node_with tree.now.nodes node ≡ Some n → n.named.entry ≡ found.now → reply_view names reply ≡ parts.reply_from (source_view names source ∷ []) (model.read (λ key. is_some source.moment) (selection_view selection.now) n.named)) }
{
    if let Some(kind) = selection_fault(selection, found) {
        drop(source);
        return lacking(kind);
    }
    let copy = source.moment.is_some();
    match info_at(alloc, tree, node, copy, selection) {
        Ok(entry) => Ok(Reply::Done(Answer::Entry { entry, source })),
        Err(fault) => {
            drop(source);
            Err(fault)
        }
    }
}

/// What a compare is answered at an entry (X.511, section 9.2).
fn compare(
    alloc: Global,
    entry: &Entry,
    source: Source,
    kind: &TypeRef,
    value: &Value,
) -> Result<Reply, NoMemory>
    ensures { IfOk result (λ reply. (names : List (List ℕ)) (n : Node) → n.named.entry ≡ entry.now → reply_view names reply ≡ parts.reply_from (source_view names source ∷ []) (model.compare (λ key. is_some source.moment) (assertion_of (type_view kind.now) (value_view value.now)) n.named)) }
{
    let copy = source.moment.is_some();
    match compares(alloc, entry, kind, value) {
        Ok(Some(matched)) => Ok(Reply::Done(Answer::Match {
            matched,
            copy,
            source,
        })),
        Ok(None) => {
            drop(source);
            lacking(kind)
        }
        Err(fault) => {
            drop(source);
            Err(fault)
        }
    }
}

/// What a read or compare is answered at a node.
fn answer_at(
    alloc: Global,
    tree: &DseTree,
    node: NodeId,
    found: &Entry,
    source: Source,
    body: &Body,
) -> Result<Reply, NoMemory>
    requires live { IsTrue (is_live tree.now.nodes node) }
    requires reads { IsTrue (is_read (body_view body.now)) }
    ensures { IfOk result (λ reply. (names : List (List ℕ)) (n : Node) → node_with tree.now.nodes node ≡ Some n → n.named.entry ≡ found.now → reply_view names reply ≡ parts.reply_from (source_view names source ∷ []) (read_told (is_some source.moment) (body_view body.now) n.named)) }
{
    match body {
        Body::Read { selection, .. } => read(alloc, tree, node, found, source, selection),
        Body::Compare { kind, value, .. } => compare(alloc, found, source, kind, value),
        _ => unreachable!(),
    }
}

/// What a read or compare is answered at the target, in a context that the agent masters (X.518, section 19).
pub fn read_own(
    alloc: Global,
    names: &AgentNames,
    state: &Holdings,
    message: &Chained,
    own: usize,
    node: NodeId,
) -> Result<Reply, NoMemory>
    requires asked { IsAsked (chained_view names.now message.now) }
    requires reads { IsTrue (is_read (body_view message.now.request.body)) }
    requires me { state.now.me < length names.now }
    requires apart { distinct same_octets names.now ≡ true }
    requires at { IsTarget state.now (chained_view names.now message.now) own node }
    ensures { IfOk result (λ reply. (c : Kept) → slice_get state.now.own own ≡ Some c → reply_view names.now reply ≡ parts.reply_in_own state.now.me (chained_view names.now message.now) (held_view c)) }
{
    let held = &state.own()[own];
    let tree = held.tree();
    let found = tree.entry(node);
    let source = source(names, state.me(), held.prefix(), None)?;
    answer_at(alloc, tree, node, found, source, &message.request.body)
}

/// What a read or compare is answered at the target, in a copy that may be used. An answer that is an error is to be had from the
/// copy's supplier.
pub fn read_copy(
    alloc: Global,
    names: &AgentNames,
    state: &Holdings,
    message: &Chained,
    copy: usize,
    node: NodeId,
) -> Result<Reply, NoMemory>
    requires asked { IsAsked (chained_view names.now message.now) }
    requires reads { IsTrue (is_read (body_view message.now.request.body)) }
    requires me { state.now.me < length names.now }
    requires apart { distinct same_octets names.now ≡ true }
    requires at { IsCopyTarget state.now (chained_view names.now message.now) copy node }
    ensures { IfOk result (λ reply. (c : CopyKept) → slice_get state.now.copies copy ≡ Some c → reply_view names.now reply ≡ parts.reply_in_copy state.now.me (chained_view names.now message.now) (copy_view c)) }
{
    let copied = &state.copies()[copy];
    let Some(held) = copied.held() else {
        unreachable!()
    };
    let tree = held.tree();
    let found = tree.entry(node);
    let source = source(names, state.me(), copied.prefix(), copied.stamp())?;
    answer_at(alloc, tree, node, found, source, &message.request.body)
}
