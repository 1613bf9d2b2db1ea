//! What one context shows of a list or search, with its source (X.511, section 10; X.518, section 19).

ghost use Rattle.std.specs.Prelude.{◌≡◌, ◌<◌, ◌∷◌, ◌&&◌, [], ℕ, true, List, Some, length, map, IfOk, IsTrue};
ghost use Rattle.std.specs.List.{filter};
ghost use Rattle.x5_model.specs.Truth.{selects_entry};
ghost use Rattle.x5_model.specs.Values.{key_of};
ghost use Rattle.x5_model.specs.Words.{distinct, same_octets, sorted};
ghost use Rattle.x5_model_tree.specs.Ask as model;
ghost use Rattle.x5_model_tree.specs.Tree.{key_at};
ghost use Rattle.x5_model_run.specs.Placed.{is_query_below};
ghost use Rattle.x5_model_serve.specs.Answering.{before_info, is_in_order};
ghost use Rattle.x5_match.specs.FilterView.{filter_view};
ghost use Rattle.x5_ops.specs.AnswerViews.{answer_view, info_view, outcome_view, source_view, sub_view};
ghost use Rattle.x5_ops.specs.ReferenceViews.{chained_view};
ghost use Rattle.x5_ops.specs.RequestViews.{body_view, selection_view, subset_view};
ghost use Rattle.x5_dse.specs.Linked.{entries_of, is_live};
ghost use Rattle.x5_eval.specs.Shown.{nothing_by, shown_by, whole};
ghost use Rattle.x5_eval.specs.Spots.{AreLive, AreNamed, held_as, info_shown, sub_shown};

use crate::naming::source;
use crate::reading::info_at;
use crate::scope::{nodes_found, nodes_in};
use crate::subsets::subset_of;
use std::alloc::Global;
use x5_dse::{DseTree, NodeId};
use x5_holdings::Held;
use x5_know::AgentNames;
use x5_match::Filter;
use x5_memory::NoMemory;
use x5_names::Name;
use x5_ops::{
    AgentId, Answer, Body, Chained, EntryInfo, Listed, Moment, Outcome, Selection, SourceList, Sub,
    Subset,
};

/// What a list says of the entry at the node; `copy` says that it comes from a shadow.
fn sub_at(alloc: Global, tree: &DseTree, node: NodeId, copy: bool) -> Result<Sub, NoMemory>
    requires live { IsTrue (is_live tree.now.nodes node) }
    requires named { AreNamed tree.now.nodes }
    ensures { IfOk result (λ sub. sub_view sub ≡ sub_shown tree.now.nodes copy node) }
{
    let name = tree.name(alloc, node)?;
    let Some(rdn) = name.last() else {
        unreachable!()
    };
    Ok(Sub {
        rdn: rdn.clone()?,
        copy,
    })
}

/// What a list says of the entries at the nodes.
fn subs_at(
    alloc: Global,
    tree: &DseTree,
    nodes: &[NodeId],
    copy: bool,
) -> Result<Vec<Sub>, NoMemory>
    requires live { AreLive tree.now.nodes nodes.now }
    requires named { AreNamed tree.now.nodes }
    ensures { IfOk result (λ subs. map sub_view subs.items ≡ map (sub_shown tree.now.nodes copy) nodes.now) }
{
    let mut subs = Vec::new(alloc);
    for &node in nodes {
        subs.push(sub_at(alloc, tree, node, copy)?)?;
    }
    Ok(subs)
}

/// What a search says of the entries at the nodes.
fn infos_at(
    alloc: Global,
    tree: &DseTree,
    nodes: &[NodeId],
    copy: bool,
    selection: &Selection,
) -> Result<Vec<EntryInfo>, NoMemory>
    requires { AreLive tree.now.nodes nodes.now }
    ensures { IfOk result (λ infos. map info_view infos.items ≡ map (info_shown tree.now.nodes copy (selection_view selection.now)) nodes.now) }
{
    let mut infos = Vec::new(alloc);
    for &node in nodes {
        infos.push(info_at(alloc, tree, node, copy, selection)?)?;
    }
    Ok(infos)
}

/// These in the order of their names' keys.
fn in_order(infos: Vec<EntryInfo>) -> Result<Vec<EntryInfo>, NoMemory>
    ensures { IfOk result (λ all. map info_view all.items ≡ sorted before_info (map info_view infos.items)) }
{
    let mut infos = infos;
    infos.sort_by(|a, b| a.name.cmp_key(&b.name))?;
    Ok(infos)
}

/// What a list finds in the context, in the order of keys.
fn subs_in(
    alloc: Global,
    held: &Held,
    copy: bool,
    base: &Name,
    subset: Subset,
) -> Result<Vec<Sub>, NoMemory>
    ensures { IfOk result (λ subs. map sub_view subs.items ≡ map (model.sub_of (λ key. copy)) (filter (λ e. model.in_subset (subset_view subset) (key_of base.now) (key_at e)) (entries_of held.now.nodes.nodes))) }
{
    let nodes = nodes_in(alloc, held, base, subset)?;
    let tree = held.tree();
    let _ = tree.entry(tree.top());
    subs_at(alloc, tree, &nodes, copy)
}

/// What a search finds in the context, in the order of keys.
fn infos_in(
    alloc: Global,
    held: &Held,
    copy: bool,
    base: &Name,
    subset: Subset,
    wanted: &Filter,
    selection: &Selection,
) -> Result<Vec<EntryInfo>, NoMemory>
    ensures { IfOk result (λ infos. map info_view infos.items ≡ map (model.info_of (λ key. copy) (selection_view selection.now)) (filter (λ e. model.in_subset (subset_view subset) (key_of base.now) (key_at e) && selects_entry (filter_view wanted.now) e.entry) (entries_of held.now.nodes.nodes))) }
{
    let nodes = nodes_found(alloc, held, base, subset, wanted)?;
    let tree = held.tree();
    let _ = tree.entry(tree.top());
    in_order(infos_at(alloc, tree, &nodes, copy, selection)?)
}

/// The context alone as the source.
fn source_alone(
    alloc: Global,
    names: &AgentNames,
    me: AgentId,
    prefix: &Name,
    stamp: Option<Moment>,
) -> Result<SourceList, NoMemory>
    requires there { me < length names.now }
    requires apart { distinct same_octets names.now ≡ true }
    ensures { IfOk result (λ sources. map (source_view names.now) sources ≡ record { context = prefix.now; agent = me; moment = stamp } ∷ []) }
{
    let mut sources = Listed::new(alloc);
    sources.push(source(names, me, prefix, stamp)?)?;
    Ok(sources)
}

/// An outcome that leaves nothing out. No memory.
fn complete(alloc: Global) -> Outcome
    ensures { (names : List (List ℕ)) → outcome_view names result ≡ whole }
{
    Outcome {
        limited: false,
        unexplored: Listed::new(alloc),
    }
}

/// What no context shows. No memory.
pub(crate) fn nothing(alloc: Global, body: &Body) -> Answer
    ensures { (names : List (List ℕ)) → answer_view names result ≡ nothing_by (body_view body.now) }
{
    match body {
        Body::List { .. } => Answer::Listed {
            subs: Listed::new(alloc),
            sources: Listed::new(alloc),
            outcome: complete(alloc),
        },
        Body::Search { .. } => Answer::Found {
            entries: Listed::new(alloc),
            sources: Listed::new(alloc),
            outcome: complete(alloc),
        },
        _ => Answer::Changed,
    }
}

/// What a context shows of a list or search: its entries that are asked for, in the order of their keys, with the context as the
/// source, by its prefix as its holder spells it. `stamp` is that of a copy; marks say what comes from a shadow.
pub(crate) fn part_in(
    alloc: Global,
    names: &AgentNames,
    me: AgentId,
    message: &Chained,
    prefix: &Name,
    held: &Held,
    stamp: Option<Moment>,
) -> Result<Answer, NoMemory>
    requires there { me < length names.now }
    requires apart { distinct same_octets names.now ≡ true }
    requires query { is_query_below (body_view message.now.request.body) ≡ true }
    ensures part { IfOk result (λ a. answer_view names.now a ≡ shown_by (body_view message.now.request.body) (chained_view names.now message.now) me stamp (held_as prefix.now held.now)) }
    ensures order { IfOk result (λ a. is_in_order (answer_view names.now a) ≡ true) }
{
    let Some(subset) = subset_of(message) else {
        unreachable!()
    };
    let sources = source_alone(alloc, names, me, prefix, stamp)?;
    let outcome = complete(alloc);
    let _ = held.tree().len();
    let copy = stamp.is_some();
    let base = &message.target;
    match &message.request.body {
        Body::List { .. } => Ok(Answer::Listed {
            subs: Listed::from_vec(subs_in(alloc, held, copy, base, subset)?),
            sources,
            outcome,
        }),
        Body::Search {
            filter,
            selection,
            ..
        } => Ok(Answer::Found {
            entries: Listed::from_vec(infos_in(
                alloc, held, copy, base, subset, filter, selection,
            )?),
            sources,
            outcome,
        }),
        _ => unreachable!(),
    }
}
