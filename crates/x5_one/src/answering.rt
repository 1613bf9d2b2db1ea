//! What is answered from the one tree, where there is no static refusal (X.511, sections 9 and 10).

ghost use Rattle.std.specs.Prelude.{◌≡◌, ℕ, false, List, IfOk, IsTrue};
ghost use Rattle.x5_model.specs.Values.{key_of};
ghost use Rattle.x5_model.specs.Words.{sorted};
ghost use Rattle.x5_model_tree.specs.Ask as model;
ghost use Rattle.x5_ops.specs.AnswerViews.{reply_view, source_view};
ghost use Rattle.x5_ops.specs.RequestViews.{body_view, request_view, name_of};
ghost use Rattle.x5_one.specs.Parts.{IsSound, tree_of, read_told};
ghost use Rattle.x5_model_tree.specs.Ask.{is_read};
ghost use Rattle.x5_one.specs.Replies.{reply_of, source_at};
ghost use Rattle.x5_one.specs.Rows.{row_below, rows_of};

use crate::asking::{compare, list, read, search};
use crate::contexts::{Held, Pin, context_of};
use crate::places::{absent, entry_of};
use std::alloc::Global;
use x5_memory::NoMemory;
use x5_ops::{Body, Named, Reply, Request, Source};

/// What a read or compare is answered at an entry.
fn answer_at(alloc: Global, source: Source, named: &Named, body: &Body) -> Result<Reply, NoMemory>
    requires { IsTrue (is_read (body_view body.now)) }
    ensures { IfOk result (λ reply. (names : List (List ℕ)) → reply_view names reply ≡ reply_of (source_view names source) (read_told (body_view body.now) named.now)) }
{
    match body {
        Body::Read { selection, .. } => read(alloc, source, named, selection),
        Body::Compare { kind, value, .. } => compare(alloc, source, named, kind, value),
        _ => unreachable!(),
    }
}

/// What a read or compare is answered.
fn answer_read(
    alloc: Global,
    entries: &[Named],
    contexts: &[Held],
    pins: &[Pin],
    body: &Body,
) -> Result<Reply, NoMemory>
    requires sound { IsSound (tree_of entries.now contexts.now) }
    requires rows { pins.now ≡ sorted row_below (rows_of contexts.now) }
    requires reads { IsTrue (is_read (body_view body.now)) }
    ensures { IfOk result (λ reply. (names : List (List ℕ)) → reply_view names reply ≡ reply_of (source_at names contexts.now (key_of (name_of (body_view body.now)))) (model.at_object (tree_of entries.now contexts.now) (name_of (body_view body.now)) (read_told (body_view body.now)))) }
{
    let key = body.name().key();
    let Some(named) = entry_of(entries, key) else {
        return Ok(Reply::Failed(absent(alloc, entries, key)?));
    };
    let Some(held) = context_of(alloc, contexts, pins, key)? else {
        unreachable!()
    };
    answer_at(alloc, held.source()?, named, body)
}

/// What a read, compare, list or search is answered.
pub(crate) fn answer(
    alloc: Global,
    entries: &[Named],
    contexts: &[Held],
    pins: &[Pin],
    request: &Request,
) -> Result<Reply, NoMemory>
    requires sound { IsSound (tree_of entries.now contexts.now) }
    requires rows { pins.now ≡ sorted row_below (rows_of contexts.now) }
    requires asks { model.is_update (body_view request.now.body) ≡ false }
    ensures { IfOk result (λ reply. (names : List (List ℕ)) → reply_view names reply ≡ reply_of (source_at names contexts.now (key_of (name_of (body_view request.now.body)))) (model.ask_body (λ key. false) (tree_of entries.now contexts.now) (request_view request.now) (body_view request.now.body))) }
{
    match &request.body {
        Body::List { object } => list(alloc, entries, object, request.controls.size),
        Body::Search {
            base,
            subset,
            filter,
            selection,
        } => search(
            alloc,
            entries,
            base,
            *subset,
            filter,
            selection,
            request.controls.size,
        ),
        body => answer_read(alloc, entries, contexts, pins, body),
    }
}
