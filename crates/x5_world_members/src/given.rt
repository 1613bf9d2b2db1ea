//! The values of an entry as a world file gives them: texts `T=value`.

ghost use Rattle.std.specs.Prelude.{◌≡◌, []};
ghost use Rattle.serde_json.specs.View.{view, items_view};
ghost use Rattle.x5_model_text.specs.NameText.{value_of_text};
ghost use Rattle.x5_model_world.specs.EntryTexts as model;
ghost use Rattle.x5_syntax.specs.TypeView.{type_view};
ghost use Rattle.x5_world_members.specs.Paths.{path_of};
ghost use Rattle.x5_world_members.specs.Views.{ReadsPart};

use crate::fault::LoadFault;
use crate::place::Place;
use serde_json::Value as Json;
use std::alloc::Global;
use std::marker::Model;
use x5_syntax::{SyntaxFault, TypeRef, Value};

/// A type with a value.
#[derive(Drop)]
pub(crate) struct Given {
    pub(crate) kind: TypeRef,
    pub(crate) value: Value,
}

impl Model for Given {
    ghost use Rattle.x5_model_world.specs.EntryTexts as model;
    ghost use Rattle.x5_syntax.specs.TypeView.{type_view};
    ghost use Rattle.x5_syntax.specs.ValueView.{value_view};

    ghost Value = { model.Given };

    ghost view = { λ g. (type_view g.kind, value_view g.value) };
}

/// The value of the type that the text spells.
fn value_in(alloc: Global, place: &Place<'_>, kind: TypeRef, text: &str) -> Result<Given, LoadFault>
    ensures { ReadsPart (λ g. g) result (model.if_value (path_of place.now) (type_view kind) (value_of_text (type_view kind) text.now)) }
{
    match Value::from_text(alloc, &kind, text) {
        Ok(value) => Ok(Given { kind, value }),
        Err(SyntaxFault::WrongSyntax) => Err(place.bad_shape(alloc)),
        Err(SyntaxFault::TooLong(most)) => Err(place.over_limit(alloc, most)),
        Err(SyntaxFault::NoMemory) => Err(LoadFault::NoMemory),
    }
}

/// The type before the first `=` of the text, with the value that stands behind it.
fn given_by(alloc: Global, place: &Place<'_>, text: &str) -> Result<Given, LoadFault>
    ensures { ReadsPart (λ g. g) result (model.given_by (path_of place.now) text.now) }
{
    let Some((kind, value)) = text.split_once('=') else {
        return Err(place.bad_shape(alloc));
    };
    match TypeRef::parse(alloc, kind)? {
        Some(kind) => value_in(alloc, place, kind, value),
        None => Err(place.bad_shape(alloc)),
    }
}

/// The type with a value that a member of the list gives.
fn given_in(alloc: Global, place: &Place<'_>, value: &Json) -> Result<Given, LoadFault>
    ensures { ReadsPart (λ g. g) result (model.given_in (path_of place.now) (view value.now)) }
{
    match value.as_str() {
        Some(text) => given_by(alloc, place, text),
        None => Err(place.bad_shape(alloc)),
    }
}

/// All that the list gives.
pub(crate) fn given_behind(
    alloc: Global,
    place: &Place<'_>,
    items: &[Json],
) -> Result<Vec<Given>, LoadFault>
    ensures { ReadsPart (λ v. v.items) result (model.given_behind (path_of place.now) 0 [] (items_view items.now)) }
{
    let mut given = Vec::new(alloc);
    for (i, item) in items.iter().enumerate() {
        let one = given_in(alloc, &Place::Item(&*place, i), item)?;
        given.push(one)?;
    }
    Ok(given)
}
