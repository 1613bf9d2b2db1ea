//! What is answered from entries in the order of their keys (X.511, sections 9 and 10).

ghost use Rattle.std.specs.Prelude.{◌≡◌, ◌+◌, ◌-◌, ◌<◌, ◌≤◌, ◌++◌, ◌∷◌, ℕ, true, false, if◌then◌else◌, List, [], length, map, take, drop, IfOk, OnOk};
ghost use Rattle.std.specs.List.{filter};
ghost use Rattle.x5_model.specs.Answers as answers;
ghost use Rattle.x5_model.specs.Assertions.{assertion_of};
ghost use Rattle.x5_model.specs.Entries as entries;
ghost use Rattle.x5_model.specs.Keys as keys;
ghost use Rattle.x5_model.specs.Members.{In};
ghost use Rattle.x5_model.specs.Truth.{selects_entry};
ghost use Rattle.x5_model.specs.Values.{key_of};
ghost use Rattle.x5_model.specs.Words.{ascending};
ghost use Rattle.x5_model_tree.specs.Ask as model;
ghost use Rattle.x5_model_tree.specs.Tree as tree;
ghost use Rattle.x5_match.specs.FilterView.{filter_view};
ghost use Rattle.x5_syntax.specs.TypeView.{type_view};
ghost use Rattle.x5_syntax.specs.ValueView.{value_view};
ghost use Rattle.x5_ops.specs.RequestViews.{selection_view, subset_view};
ghost use Rattle.x5_ops.specs.AnswerViews.{reply_view, source_view, info_view, sub_view};
ghost use Rattle.x5_one.specs.Replies.{reply_of};
ghost use Rattle.x5_one.specs.Scopes.{found_in, left_of, list_told, search_told};

use crate::places::{absent, entry_of, last_of, run_end, subtree};
use std::alloc::Global;
use x5_match::{Filter, holds};
use x5_memory::NoMemory;
use x5_names::{Key, Name};
use x5_ops::{
    Answer, DirError, EntryInfo, EntryList, Listed, Named, Outcome, Reply, Selection, Source, Sub,
    SubList, Subset, attribute_problem, compares, selection_fault, shown,
};
use x5_syntax::{TypeRef, Value};

/// noSuchAttributeOrValue (X.511, section 12.4).
fn lacking(kind: &TypeRef) -> Result<Reply, NoMemory>
    ensures { IfOk result (λ reply. (names : List (List ℕ)) → reply_view names reply ≡ answers.Failed (answers.AttributeProblem 1 (type_view kind.now))) }
{
    Ok(Reply::Failed(DirError::Attribute {
        problem: attribute_problem::NO_SUCH_ATTRIBUTE_OR_VALUE,
        kind: kind.clone()?,
    }))
}

/// The entry with the selected attributes.
fn info_of(alloc: Global, selection: &Selection, named: &Named) -> Result<EntryInfo, NoMemory>
    ensures { IfOk result (λ info. info_view info ≡ model.info_of (λ key. false) (selection_view selection.now) named.now) }
{
    Ok(EntryInfo {
        copy: false,
        attributes: shown(alloc, selection, &named.entry)?,
        name: named.name.clone()?,
    })
}

/// What a read is answered at an entry (X.511, section 9.1).
pub(crate) fn read(
    alloc: Global,
    source: Source,
    named: &Named,
    selection: &Selection,
) -> Result<Reply, NoMemory>
    ensures { IfOk result (λ reply. (names : List (List ℕ)) → reply_view names reply ≡ reply_of (source_view names source) (model.read (λ key. false) (selection_view selection.now) named.now)) }
{
    if let Some(kind) = selection_fault(selection, &named.entry) {
        drop(source);
        return lacking(kind);
    }
    match info_of(alloc, selection, named) {
        Ok(entry) => Ok(Reply::Done(Answer::Entry { entry, source })),
        Err(fault) => {
            drop(source);
            Err(fault)
        }
    }
}

/// What a compare is answered at an entry (X.511, section 9.2).
pub(crate) fn compare(
    alloc: Global,
    source: Source,
    named: &Named,
    kind: &TypeRef,
    value: &Value,
) -> Result<Reply, NoMemory>
    ensures { IfOk result (λ reply. (names : List (List ℕ)) → reply_view names reply ≡ reply_of (source_view names source) (model.compare (λ key. false) (assertion_of (type_view kind.now) (value_view value.now)) named.now)) }
{
    match compares(alloc, &named.entry, kind, value) {
        Ok(Some(matched)) => Ok(Reply::Done(Answer::Match {
            matched,
            copy: false,
            source,
        })),
        Ok(None) => {
            drop(source);
            lacking(kind)
        }
        Err(fault) => {
            drop(source);
            Err(fault)
        }
    }
}

/// Whether the key is in the subset. No memory.
fn is_in_subset(subset: Subset, base: &Key, key: &Key) -> bool
    ensures { result ≡ model.in_subset (subset_view subset) base.now key.now }
{
    match subset {
        Subset::Base => base == key,
        Subset::One => key.len() > 0 && key.len() - 1 == base.len() && base.is_prefix(key),
        Subset::Tree => base.is_prefix(key),
    }
}

/// Where to look next, behind the entry at the place, for what stands just below a name of so many RDNs: what stands below a
/// longer name stands deeper. No memory.
fn next_place(scope: &[Named], at: usize, above: usize) -> usize
    requires order { ascending tree.named_below scope.now ≡ true }
    requires there { at < length scope.now }
    ensures behind { at < result }
    ensures within { result ≤ length scope.now }
    ensures deeper { (e : entries.Named) → In e (take (result - (at + 1)) (drop (at + 1) scope.now)) → above + 1 < length (tree.key_at e) }
{
    let named = &scope[at];
    let key = named.name.key();
    if key.len() <= above {
        return at + 1;
    }
    run_end(scope, at, key)
}

/// Puts the entry behind those found, if it's wanted.
fn push_if<'a>(
    found: &mut Vec<&'a Named>,
    named: &'a Named,
    is_wanted: bool,
) -> Result<(), NoMemory>
    ensures { OnOk result (found_in found.new.items ≡ found_in found.old.items ++ (if is_wanted then named.now ∷ [] else [])) }
{
    if is_wanted {
        found.push(named)?;
    }
    Ok(())
}

/// The entries just below the key, of those at it and below it: what stands below each of them is passed over.
fn just_below<'a>(alloc: Global, scope: &'a [Named], key: &Key) -> Result<Vec<&'a Named>, NoMemory>
    requires { ascending tree.named_below scope.now ≡ true }
    ensures { IfOk result (λ found. found_in found.items ≡ filter (λ e. keys.is_child key.now (tree.key_at e)) scope.now) }
{
    let mut found = Vec::new(alloc);
    let mut place = 0;
    while place < scope.len() {
        let named = &scope[place];
        let is_child = is_in_subset(Subset::One, key, named.name.key());
        push_if(&mut found, named, is_child)?;
        place = next_place(scope, place, key.len());
    }
    Ok(found)
}

/// The entry of the key alone, if it's there.
fn itself<'a>(alloc: Global, entries: &'a [Named], key: &Key) -> Result<Vec<&'a Named>, NoMemory>
    requires { ascending tree.named_below entries.now ≡ true }
    ensures { IfOk result (λ found. found_in found.items ≡ filter (λ e. keys.same_key key.now (tree.key_at e)) entries.now) }
{
    let mut found = Vec::new(alloc);
    let Some(named) = entry_of(entries, key) else {
        return Ok(found);
    };
    found.push(named)?;
    Ok(found)
}

/// All these.
fn all_of<'a>(alloc: Global, scope: &'a [Named]) -> Result<Vec<&'a Named>, NoMemory>
    ensures { IfOk result (λ found. found_in found.items ≡ scope.now) }
{
    let mut found = Vec::new(alloc);
    for named in scope {
        found.push(named)?;
    }
    Ok(found)
}

/// The entries in the subset; no others are looked at.
fn in_scope<'a>(
    alloc: Global,
    entries: &'a [Named],
    base: &Key,
    subset: Subset,
) -> Result<Vec<&'a Named>, NoMemory>
    requires { ascending tree.named_below entries.now ≡ true }
    ensures { IfOk result (λ found. found_in found.items ≡ filter (λ e. model.in_subset (subset_view subset) base.now (tree.key_at e)) entries.now) }
{
    match subset {
        Subset::Base => itself(alloc, entries, base),
        Subset::One => just_below(alloc, subtree(entries, base), base),
        Subset::Tree => all_of(alloc, subtree(entries, base)),
    }
}

/// Those for which the filter is true.
fn selected<'a>(
    alloc: Global,
    scope: &[&'a Named],
    wanted: &Filter,
) -> Result<Vec<&'a Named>, NoMemory>
    ensures { IfOk result (λ found. found_in found.items ≡ filter (λ e. selects_entry (filter_view wanted.now) e.entry) (found_in scope.now)) }
{
    let mut found = Vec::new(alloc);
    for named in scope {
        if holds(wanted, &named.entry).is_true() {
            found.push(*named)?;
        }
    }
    Ok(found)
}

/// How many members the size limit leaves of so many. No memory.
fn left_by(size: Option<u32>, count: usize) -> usize
    ensures left { result ≡ left_of size count }
    ensures within { result ≤ count }
{
    match size {
        Some(most) if most as usize <= count => most as usize,
        _ => count,
    }
}

/// What a list tells of the entry.
fn sub_of(alloc: Global, named: &Named) -> Result<Sub, NoMemory>
    ensures { IfOk result (λ sub. sub_view sub ≡ model.sub_of (λ key. false) named.now) }
{
    Ok(Sub {
        rdn: last_of(alloc, &named.name)?,
        copy: false,
    })
}

/// What a list tells of the entries.
fn subs_of(alloc: Global, found: &[&Named]) -> Result<SubList, NoMemory>
    ensures { IfOk result (λ subs. map sub_view subs ≡ map (model.sub_of (λ key. false)) (found_in found.now)) }
{
    let mut subs = Vec::new(alloc);
    for named in found {
        subs.push(sub_of(alloc, named)?)?;
    }
    Ok(Listed::from_vec(subs))
}

/// What a search tells of the entries.
fn infos_of(alloc: Global, selection: &Selection, found: &[&Named]) -> Result<EntryList, NoMemory>
    ensures { IfOk result (λ infos. map info_view infos ≡ map (model.info_of (λ key. false) (selection_view selection.now)) (found_in found.now)) }
{
    let mut infos = Vec::new(alloc);
    for named in found {
        infos.push(info_of(alloc, selection, named)?)?;
    }
    Ok(Listed::from_vec(infos))
}

/// Whether the name is the root, or that of an entry. No memory.
fn is_there(entries: &[Named], name: &Name) -> bool
    requires { ascending tree.named_below entries.now ≡ true }
    ensures { result ≡ tree.is_there_or_root entries.now (key_of name.now) }
{
    name.is_root() || entry_of(entries, name.key()).is_some()
}

/// What a list is answered (X.511, section 10.1).
pub(crate) fn list(
    alloc: Global,
    entries: &[Named],
    object: &Name,
    size: Option<u32>,
) -> Result<Reply, NoMemory>
    requires { ascending tree.named_below entries.now ≡ true }
    ensures { IfOk result (λ reply. (names : List (List ℕ)) (source : answers.Source) → reply_view names reply ≡ reply_of source (list_told entries.now object.now size)) }
{
    if !is_there(entries, object) {
        return Ok(Reply::Failed(absent(alloc, entries, object.key())?));
    }
    let found = in_scope(alloc, entries, object.key(), Subset::One)?;
    let left = left_by(size, found.len());
    Ok(Reply::Done(Answer::Listed {
        subs: subs_of(alloc, &found[..left])?,
        sources: Listed::new(alloc),
        outcome: Outcome {
            limited: left < found.len(),
            unexplored: Listed::new(alloc),
        },
    }))
}

/// What a search is answered (X.511, section 10.2).
pub(crate) fn search(
    alloc: Global,
    entries: &[Named],
    base: &Name,
    subset: Subset,
    filter: &Filter,
    selection: &Selection,
    size: Option<u32>,
) -> Result<Reply, NoMemory>
    requires { ascending tree.named_below entries.now ≡ true }
    ensures { IfOk result (λ reply. (names : List (List ℕ)) (source : answers.Source) → reply_view names reply ≡ reply_of source (search_told entries.now base.now (subset_view subset) (filter_view filter.now) (selection_view selection.now) size)) }
{
    if !is_there(entries, base) {
        return Ok(Reply::Failed(absent(alloc, entries, base.key())?));
    }
    let scope = in_scope(alloc, entries, base.key(), subset)?;
    let found = selected(alloc, &scope, filter)?;
    let left = left_by(size, found.len());
    Ok(Reply::Done(Answer::Found {
        entries: infos_of(alloc, selection, &found[..left])?,
        sources: Listed::new(alloc),
        outcome: Outcome {
            limited: left < found.len(),
            unexplored: Listed::new(alloc),
        },
    }))
}
