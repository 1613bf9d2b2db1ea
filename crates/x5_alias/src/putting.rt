//! The request with the name that an alias stands for in the alias's place.

ghost use Rattle.std.specs.Prelude.{◌≡◌, ◌++◌, ℕ, List, length, drop, IfOk, None};
ghost use Rattle.std.specs.Option.{option_map};
ghost use Rattle.x5_model.specs.Words.{in_option};
ghost use Rattle.x5_model_follow.specs.Alias as model;
ghost use Rattle.x5_ops.specs.AnswerViews.{answer_view};
ghost use Rattle.x5_ops.specs.RequestViews.{body_view, request_view};

use crate::reading::alias_in;
use std::alloc::Global;
use x5_memory::NoMemory;
use x5_names::{Name, Rdn};
use x5_ops::{Answer, Body, Request};
use x5_syntax::MOST_RDNS;

/// The object's RDNs behind as many as the alias has. No memory.
#[tactic(auto, using(std::proofs::lemmas::List::drop_min))]
fn rdns_below<'a>(alias: &Name, object: &'a Name) -> &'a [Rdn]
    ensures { result.now ≡ drop (length alias.now) object.now }
{
    let rdns = object.rdns();
    let count = alias.len().min(rdns.len());
    &rdns[count..]
}

/// The name of the RDNs below this one.
fn name_below(alloc: Global, name: &Name, below: &[Rdn]) -> Result<Name, NoMemory>
    ensures { IfOk result (λ longer. longer ≡ name.now ++ below.now) }
{
    let mut rdns = Vec::from_clones(alloc, name.rdns())?;
    rdns.extend_from_slice(below)?;
    Name::new(alloc, rdns)
}

/// The operation with another name in place of the one that it was given. No memory.
fn with_object(body: Body, object: Name) -> Body
    ensures { body_view result ≡ model.with_object object (body_view body) }
{
    match body {
        Body::Read { selection, .. } => Body::Read { object, selection },
        Body::Compare { kind, value, .. } => Body::Compare {
            object,
            kind,
            value,
        },
        Body::List { .. } => Body::List { object },
        Body::Search {
            subset,
            filter,
            selection,
            ..
        } => Body::Search {
            base: object,
            subset,
            filter,
            selection,
        },
        Body::Add { attributes, .. } => Body::Add { object, attributes },
        Body::Remove { .. } => Body::Remove { object },
        Body::Modify { changes, .. } => Body::Modify { object, changes },
        Body::ModifyDn { rdn, drop_old, .. } => Body::ModifyDn {
            object,
            rdn,
            drop_old,
        },
    }
}

/// A copy of the request, for another object.
fn asked_for(alloc: Global, object: Name, request: &Request) -> Result<Request, NoMemory>
    ensures { IfOk result (λ asked. request_view asked ≡ record (request_view request.now) { body = model.with_object object (body_view request.now.body) }) }
{
    match request.copy(alloc) {
        Ok(copy) => Ok(Request {
            controls: copy.controls,
            body: with_object(copy.body, object),
        }),
        Err(_) => {
            drop(object);
            Err(NoMemory)
        }
    }
}

/// The request with the name that the alias stands for in the place of the object's first RDNs, as many as the alias has; None
/// exactly where the new name has more than 16 RDNs. Everything else in the request stays.
pub fn put_for(
    alloc: Global,
    alias: &Name,
    value: &Name,
    request: &Request,
) -> Result<Option<Request>, NoMemory>
    ensures { IfOk result (λ put. option_map request_view put ≡ model.when_short alias.now value.now (request_view request.now)) }
{
    let below = rdns_below(alias, request.body.name());
    if value.len().saturating_add(below.len()) > MOST_RDNS {
        return Ok(None);
    }
    let object = name_below(alloc, value, below)?;
    let asked = asked_for(alloc, object, request)?;
    Ok(Some(asked))
}

/// The request with the alias dereferenced (X.501), by the answer to the read of it; None exactly where that shows no name, or the
/// new name has more than 16 RDNs.
pub fn dereferenced(
    alloc: Global,
    alias: &Name,
    answer: &Answer,
    request: &Request,
) -> Result<Option<Request>, NoMemory>
    ensures { IfOk result (λ put. (names : List (List ℕ)) → option_map request_view put ≡ in_option None (λ v. model.when_short alias.now v (request_view request.now)) (model.alias_in (answer_view names answer.now))) }
{
    match alias_in(answer) {
        Some(value) => {
            let name = Name::from_value(alloc, value)?;
            put_for(alloc, alias, &name, request)
        }
        None => Ok(None),
    }
}
