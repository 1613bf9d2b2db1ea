//! The operations of a request, with their arguments.
ghost use Rattle.std.specs.Prelude.{◌≡◌, map, option_map, IfOk, OnOk};
ghost use Rattle.x5_model_script.specs.Lines as lines;
ghost use Rattle.x5_model_script.specs.Texts as texts;
ghost use Rattle.x5_model_script.specs.Words as model;
ghost use Rattle.x5_match.specs.FilterView.{filter_view};
ghost use Rattle.x5_ops.specs.RequestViews.{attribute_view, body_view, change_view, selection_view, subset_view};
ghost use Rattle.x5_script.specs.Views.{Takes, left_view, pair_view, word_view};
ghost use Rattle.x5_syntax.specs.TypeView.{type_view};
ghost use Rattle.x5_syntax.specs.ValueView.{value_view};

use crate::command::ScriptFault;
use crate::texts::{
    attrs_of, change_of, filter_at, name_at, or_fault, pair_of, place_of, rdn_at, subset_of,
};
use crate::tokens::{Word, Words};
use std::alloc::Global;
use x5_match::Filter;
use x5_memory::NoMemory;
use x5_names::{Name, Rdn};
use x5_ops::{
    Attribute, AttributeList, Body, Change, ChangeList, Selection, Subset, TypeList, ValueList,
};
use x5_syntax::{TypeRef, Value};

/// The next word as a name.
fn next_name(alloc: Global, words: &mut Words<'_>) -> Result<Name, ScriptFault>
    ensures { Takes (λ name. name) result words.new (lines.name (left_view words.old)) }
{
    let word = words.next()?;
    let name = name_at(alloc, word.column, word.text)?;
    Ok(name)
}

/// The next word as an RDN.
fn next_rdn(alloc: Global, words: &mut Words<'_>) -> Result<Rdn, ScriptFault>
    ensures { Takes (λ rdn. rdn) result words.new (lines.reading texts.rdn_in model.BadName (left_view words.old)) }
{
    let word = words.next()?;
    let rdn = rdn_at(alloc, word.column, word.text)?;
    Ok(rdn)
}

/// The next word as a filter.
fn next_filter(alloc: Global, words: &mut Words<'_>) -> Result<Filter, ScriptFault>
    ensures { Takes filter_view result words.new (lines.reading texts.filter_in model.BadFilter (left_view words.old)) }
{
    let word = words.next()?;
    let filter = filter_at(alloc, word.column, word.text)?;
    Ok(filter)
}

/// The next word as the place where a search looks.
fn next_subset(words: &mut Words<'_>) -> Result<Subset, ScriptFault>
    ensures { Takes subset_view result words.new (lines.reading texts.subset_in model.BadWord (left_view words.old)) }
{
    let word = words.next()?;
    let subset = or_fault(subset_of(word.text), ScriptFault::BadWord(word.column))?;
    Ok(subset)
}

/// The next word as the types that it lists.
fn next_types(alloc: Global, words: &mut Words<'_>) -> Result<Vec<TypeRef>, ScriptFault>
    ensures { Takes (λ v. map type_view v.items) result words.new (lines.reading texts.attrs_in model.BadWord (left_view words.old)) }
{
    let word = words.next()?;
    let kinds = or_fault(
        attrs_of(alloc, word.text)?,
        ScriptFault::BadWord(word.column),
    )?;
    Ok(kinds)
}

/// The next word as a type and a value.
fn next_pair(alloc: Global, words: &mut Words<'_>) -> Result<(TypeRef, Value), ScriptFault>
    ensures { Takes pair_view result words.new (lines.reading texts.pair_in model.BadWord (left_view words.old)) }
{
    let word = words.next()?;
    let pair = or_fault(
        pair_of(alloc, word.text)?,
        ScriptFault::BadWord(word.column),
    )?;
    Ok(pair)
}

/// The next word as a change.
fn next_change(alloc: Global, words: &mut Words<'_>) -> Result<Change, ScriptFault>
    ensures { Takes change_view result words.new (lines.reading texts.change_in model.BadWord (left_view words.old)) }
{
    let word = words.next()?;
    let change = or_fault(
        change_of(alloc, word.text)?,
        ScriptFault::BadWord(word.column),
    )?;
    Ok(change)
}

/// The types to be shown, if a word is left; else all.
fn selection(alloc: Global, words: &mut Words<'_>) -> Result<Selection, ScriptFault>
    ensures { Takes selection_view result words.new (lines.selection (left_view words.old)) }
{
    if !words.has_more() {
        return Ok(Selection::All);
    }
    let kinds = next_types(alloc, words)?;
    Ok(Selection::Only(TypeList::from_vec(kinds)))
}

/// What stands behind `read`.
fn read(alloc: Global, words: &mut Words<'_>) -> Result<Body, ScriptFault>
    ensures { Takes body_view result words.new (lines.read (left_view words.old)) }
{
    let object = next_name(alloc, words)?;
    let selection = selection(alloc, words)?;
    Ok(Body::Read { object, selection })
}

/// What stands behind `compare`.
fn compare(alloc: Global, words: &mut Words<'_>) -> Result<Body, ScriptFault>
    ensures { Takes body_view result words.new (lines.compare (left_view words.old)) }
{
    let object = next_name(alloc, words)?;
    let (kind, value) = next_pair(alloc, words)?;
    Ok(Body::Compare {
        object,
        kind,
        value,
    })
}

/// What stands behind `list`.
fn list(alloc: Global, words: &mut Words<'_>) -> Result<Body, ScriptFault>
    ensures { Takes body_view result words.new (lines.list (left_view words.old)) }
{
    let object = next_name(alloc, words)?;
    Ok(Body::List { object })
}

/// What stands behind `search`.
fn search(alloc: Global, words: &mut Words<'_>) -> Result<Body, ScriptFault>
    ensures { Takes body_view result words.new (lines.search (left_view words.old)) }
{
    let subset = next_subset(words)?;
    let base = next_name(alloc, words)?;
    let filter = match next_filter(alloc, words) {
        Ok(filter) => filter,
        Err(fault) => {
            drop(base);
            return Err(fault);
        }
    };
    match selection(alloc, words) {
        Ok(selection) => Ok(Body::Search {
            base,
            subset,
            filter,
            selection,
        }),
        Err(fault) => {
            drop(base);
            drop(filter);
            Err(fault)
        }
    }
}

/// Adds a value of a type: to the attribute of that type, else as an attribute of its own at the end.
fn put_value(
    alloc: Global,
    attributes: &mut Vec<Attribute>,
    kind: TypeRef,
    value: Value,
) -> Result<(), NoMemory>
    ensures { OnOk result (map attribute_view attributes.new.items ≡ lines.with_value (type_view kind) (value_view value) (map attribute_view attributes.old.items)) }
{
    match place_of(attributes, &kind) {
        Some(place) => {
            let attribute = &mut attributes[place];
            attribute.values.push(value)?;
        }
        None => {
            let mut values = ValueList::new(alloc);
            values.push(value)?;
            attributes.push(Attribute { kind, values })?;
        }
    }
    Ok(())
}

/// The attributes of all words that are left.
fn attributes(alloc: Global, words: &mut Words<'_>) -> Result<AttributeList, ScriptFault>
    ensures { Takes (λ attributes. map attribute_view attributes) result words.new (lines.attributes (left_view words.old)) }
{
    let mut attributes = Vec::new(alloc);
    'words: while words.has_more() {
        let (kind, value) = next_pair(alloc, words)?;
        put_value(alloc, &mut attributes, kind, value)?;
    }
    Ok(AttributeList::from_vec(attributes))
}

/// What stands behind `add`.
fn add(alloc: Global, words: &mut Words<'_>) -> Result<Body, ScriptFault>
    ensures { Takes body_view result words.new (lines.add (left_view words.old)) }
{
    let object = next_name(alloc, words)?;
    let attributes = attributes(alloc, words)?;
    Ok(Body::Add { object, attributes })
}

/// What stands behind `remove`.
fn remove(alloc: Global, words: &mut Words<'_>) -> Result<Body, ScriptFault>
    ensures { Takes body_view result words.new (lines.remove (left_view words.old)) }
{
    let object = next_name(alloc, words)?;
    Ok(Body::Remove { object })
}

/// The first change and those of all words that are left.
fn changes(alloc: Global, first: Change, words: &mut Words<'_>) -> Result<ChangeList, ScriptFault>
    ensures { Takes (λ changes. map change_view changes) result words.new (lines.changes (change_view first) (left_view words.old)) }
{
    let mut changes = ChangeList::new(alloc);
    changes.push(first)?;
    'words: while words.has_more() {
        let change = next_change(alloc, words)?;
        changes.push(change)?;
    }
    Ok(changes)
}

/// What stands behind `modify`.
fn modify(alloc: Global, words: &mut Words<'_>) -> Result<Body, ScriptFault>
    ensures { Takes body_view result words.new (lines.modify (left_view words.old)) }
{
    let object = next_name(alloc, words)?;
    let first = next_change(alloc, words)?;
    let changes = changes(alloc, first, words)?;
    Ok(Body::Modify { object, changes })
}

/// What stands behind `move`.
fn move_to(alloc: Global, words: &mut Words<'_>) -> Result<Body, ScriptFault>
    ensures { Takes body_view result words.new (lines.move (left_view words.old)) }
{
    let object = next_name(alloc, words)?;
    let rdn = next_rdn(alloc, words)?;
    let drop_old = words.skip("drop");
    Ok(Body::ModifyDn {
        object,
        rdn,
        drop_old,
    })
}

/// The update that the word names, with its arguments.
fn update_by(alloc: Global, word: Word<'_>, words: &mut Words<'_>) -> Result<Body, ScriptFault>
    ensures { Takes body_view result words.new (lines.update_by (word_view word.entry) (left_view words.old)) }
{
    if word.text == "add" {
        add(alloc, words)
    } else if word.text == "remove" {
        remove(alloc, words)
    } else if word.text == "modify" {
        modify(alloc, words)
    } else if word.text == "move" {
        move_to(alloc, words)
    } else {
        Err(ScriptFault::BadWord(word.column))
    }
}

/// The operation that the word names, with its arguments.
fn operation_by(alloc: Global, word: Word<'_>, words: &mut Words<'_>) -> Result<Body, ScriptFault>
    ensures { Takes body_view result words.new (lines.operation_by (word_view word.entry) (left_view words.old)) }
{
    if word.text == "read" {
        read(alloc, words)
    } else if word.text == "compare" {
        compare(alloc, words)
    } else if word.text == "list" {
        list(alloc, words)
    } else if word.text == "search" {
        search(alloc, words)
    } else {
        update_by(alloc, word, words)
    }
}

/// The operation, with its arguments.
pub(crate) fn operation(alloc: Global, words: &mut Words<'_>) -> Result<Body, ScriptFault>
    ensures { Takes body_view result words.new (lines.operation (left_view words.old)) }
{
    let word = words.next()?;
    operation_by(alloc, word, words)
}
