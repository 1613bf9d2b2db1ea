//! What is asked of an alias's entry, and what the answer says.

ghost use Rattle.std.specs.Prelude.{◌≡◌, ℕ, List, [], ◌∷◌, map, IfOk};
ghost use Rattle.std.specs.Option.{option_map, option_copied};
ghost use Rattle.x5_model.specs.Normal.{stored};
ghost use Rattle.x5_model.specs.Requests.{Only};
ghost use Rattle.x5_model.specs.Values.{Known};
ghost use Rattle.x5_model_follow.specs.Alias as model;
ghost use Rattle.x5_model_tree.specs.Ask.{rest_of};
ghost use Rattle.x5_ops.specs.AnswerViews.{shown_view, answer_view, reply_view};
ghost use Rattle.x5_ops.specs.RequestViews.{request_view, selection_view};
ghost use Rattle.x5_syntax.specs.ValueView.{value_view};

use std::alloc::Global;
use x5_memory::NoMemory;
use x5_names::Name;
use x5_ops::{Answer, Attribute, Body, Controls, DirError, Listed, Reply, Request, Selection};
use x5_syntax::{NameValue, TypeId, TypeRef, Value};

/// The type of the attribute that says what an alias stands for (X.501: aliasedEntryName).
const ALIASED_ENTRY_NAME: TypeId = TypeId(1);

/// The selection of aliasedEntryName alone.
fn alias_name_alone(alloc: Global) -> Result<Selection, NoMemory>
    ensures { IfOk result (λ selection. selection_view selection ≡ Only (Known model.aliased_entry_name ∷ [])) }
{
    let mut kinds = Listed::new(alloc);
    kinds.push(TypeRef::Known(ALIASED_ENTRY_NAME))?;
    Ok(Selection::Only(kinds))
}

/// The request for what an alias stands for: a read of its aliasedEntryName. It's asked of the entry's master, and chained by
/// whoever is willing.
pub fn alias_read(alloc: Global, alias: &Name) -> Result<Request, NoMemory>
    ensures { IfOk result (λ request. request_view request ≡ model.alias_read alias.now) }
{
    let selection = alias_name_alone(alloc)?;
    Ok(Request {
        controls: Controls {
            nocopy: true,
            nochain: false,
            size: None,
        },
        body: Body::Read {
            object: alias.clone()?,
            selection,
        },
    })
}

/// The first value, if it's a name. No memory.
fn name_in(values: &[Value]) -> Option<&NameValue>
    ensures { option_map stored (option_copied result) ≡ model.name_in (map value_view values.now) }
{
    match values {
        [Value::Name(name), ..] => Some(name),
        _ => None,
    }
}

/// The first attribute's first value, if it's a name. No memory.
fn name_shown(attributes: &[Attribute]) -> Option<&NameValue>
    ensures { option_map stored (option_copied result) ≡ model.alias_shown (map shown_view attributes.now) }
{
    let [first, ..] = attributes else {
        return None;
    };
    name_in(first.values.as_slice())
}

/// The name that an alias stands for, by the answer to the read of it; None where that is no answer to a read, or shows no name.
/// No memory.
pub fn alias_in(answer: &Answer) -> Option<&NameValue>
    ensures answer { (names : List (List ℕ)) → option_map stored (option_copied result) ≡ model.alias_in (answer_view names answer.now) }
    ensures told { (names : List (List ℕ)) → option_map stored (option_copied result) ≡ model.alias_told (rest_of (answer_view names answer.now)) }
{
    match answer {
        Answer::Entry { entry, .. } => name_shown(entry.attributes.as_slice()),
        _ => None,
    }
}

/// The name of the entry below which nothing is found, which may be an alias: that of a noSuchObject, where it isn't the root. No
/// memory.
pub fn not_below(reply: &Reply) -> Option<&Name>
    ensures { (names : List (List ℕ)) → option_copied result ≡ model.not_below (reply_view names reply.now) }
{
    match reply {
        Reply::Failed(DirError::Name { matched }) => {
            if matched.is_root() {
                None
            } else {
                Some(matched)
            }
        }
        _ => None,
    }
}
