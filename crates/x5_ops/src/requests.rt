//! What a user asks (X.511).

ghost use Rattle.std.specs.Prelude.{◌≡◌, IfOk};
ghost use Rattle.x5_ops.specs.JournalViews.{code_view};
ghost use Rattle.x5_ops.specs.RequestViews.{body_view, request_view, name_of};
ghost use Rattle.x5_ops.specs.declared.requests.Body.TheVariants as bodies;
ghost use Rattle.x5_model_run.specs.Journal.{operation_of};
ghost use Rattle.x5_model_tree.specs.Ask.{is_update};

use crate::journal::Operation;
use crate::lists::Listed;
use std::alloc::{AllocError, Global};
use x5_match::{Filter, copied};
use x5_names::{Name, Rdn};
use x5_syntax::{TypeRef, Value};

/// Service controls (X.511, section 7.5): dontUseCopy, chainingProhibited and the size limit of a list or search.
#[derive(Clone, Copy, Drop)]
pub struct Controls {
    pub nocopy: bool,
    pub nochain: bool,
    pub size: Option<u32>,
}

/// Where a search looks (X.511, section 10.2.2): at the base, just below it, or at it and all below.
#[derive(Clone, Copy, PartialEq, Eq)]
pub enum Subset {
    Base,
    One,
    Tree,
}

/// Attribute types in the order given.
pub type TypeList = Listed<TypeRef>;

/// Which attributes an answer shows (X.511, section 7.6).
#[derive(Drop)]
pub enum Selection {
    All,
    Only(TypeList),
}

/// Values in the order given.
pub type ValueList = Listed<Value>;

/// An attribute that somebody offers, or that an answer shows.
#[derive(Drop)]
pub struct Attribute {
    pub kind: TypeRef,
    pub values: ValueList,
}

/// Attributes in the order given.
pub type AttributeList = Listed<Attribute>;

/// One change of a modifyEntry (X.511, section 11.3.2).
#[derive(Drop)]
pub enum Change {
    AddAttribute(Attribute),
    RemoveAttribute(TypeRef),
    AddValues(Attribute),
    RemoveValues(Attribute),
}

/// Changes in the order given.
pub type ChangeList = Listed<Change>;

/// An operation with its arguments (X.511, sections 9 to 11).
#[derive(Drop)]
pub enum Body {
    Read {
        object: Name,
        selection: Selection,
    },
    Compare {
        object: Name,
        kind: TypeRef,
        value: Value,
    },
    List {
        object: Name,
    },
    Search {
        base: Name,
        subset: Subset,
        filter: Filter,
        selection: Selection,
    },
    Add {
        object: Name,
        attributes: AttributeList,
    },
    Remove {
        object: Name,
    },
    Modify {
        object: Name,
        changes: ChangeList,
    },
    ModifyDn {
        object: Name,
        rdn: Rdn,
        drop_old: bool,
    },
}

/// A user's request.
#[derive(Drop)]
pub struct Request {
    pub controls: Controls,
    pub body: Body,
}

impl Body {
    /// The operation that it asks for. No memory.
    pub fn operation(&self) -> Operation
        ensures { code_view result ≡ operation_of (body_view self.now) }
    {
        match self {
            Body::Read { .. } => Operation::Read,
            Body::Compare { .. } => Operation::Compare,
            Body::List { .. } => Operation::List,
            Body::Search { .. } => Operation::Search,
            Body::Add { .. } => Operation::AddEntry,
            Body::Remove { .. } => Operation::RemoveEntry,
            Body::Modify { .. } => Operation::ModifyEntry,
            Body::ModifyDn { .. } => Operation::ModifyDn,
        }
    }

    /// Whether it changes the tree. No memory.
    pub fn is_update(&self) -> bool
        ensures { result ≡ is_update (body_view self.now) }
    {
        match self {
            Body::Read { .. } | Body::Compare { .. } | Body::List { .. } | Body::Search { .. } =>
                false,
            Body::Add { .. } | Body::Remove { .. } | Body::Modify { .. } | Body::ModifyDn { .. } =>
                true,
        }
    }

    /// The name that the operation is given. No memory.
    pub fn name(&self) -> &Name
        ensures { result.now ≡ name_of (body_view self.now) }
    {
        match self {
            Body::Read { object, .. } => object,
            Body::Compare { object, .. } => object,
            Body::List { object } => object,
            Body::Search { base, .. } => base,
            Body::Add { object, .. } => object,
            Body::Remove { object } => object,
            Body::Modify { object, .. } => object,
            Body::ModifyDn { object, .. } => object,
        }
    }
}

impl Clone for Selection {
    ghost is_clone = { λ a b. b ≡ a };

    fn clone(&self) -> Result<Selection, AllocError> {
        match self {
            Selection::All => Ok(Selection::All),
            Selection::Only(kinds) => Ok(Selection::Only(kinds.clone()?)),
        }
    }
}

impl Clone for Attribute {
    ghost is_clone = { λ a b. b ≡ a };

    fn clone(&self) -> Result<Attribute, AllocError> {
        Ok(Attribute {
            kind: self.kind.clone()?,
            values: self.values.clone()?,
        })
    }
}

impl Clone for Change {
    ghost is_clone = { λ a b. b ≡ a };

    fn clone(&self) -> Result<Change, AllocError> {
        match self {
            Change::AddAttribute(attribute) => Ok(Change::AddAttribute(attribute.clone()?)),
            Change::RemoveAttribute(kind) => Ok(Change::RemoveAttribute(kind.clone()?)),
            Change::AddValues(attribute) => Ok(Change::AddValues(attribute.clone()?)),
            Change::RemoveValues(attribute) => Ok(Change::RemoveValues(attribute.clone()?)),
        }
    }
}

/// A copy of a read of these arguments.
fn read_of(object: &Name, selection: &Selection) -> Result<Body, AllocError>
    ensures { IfOk result (λ b. body_view b ≡ body_view (bodies.Read object.now selection.now)) }
{
    Ok(Body::Read {
        object: object.clone()?,
        selection: selection.clone()?,
    })
}

/// A copy of a compare of these arguments.
fn compare_of(object: &Name, kind: &TypeRef, value: &Value) -> Result<Body, AllocError>
    ensures { IfOk result (λ b. body_view b ≡ body_view (bodies.Compare object.now kind.now value.now)) }
{
    Ok(Body::Compare {
        object: object.clone()?,
        kind: kind.clone()?,
        value: value.clone()?,
    })
}

/// A copy of a search of these arguments.
fn search_of(
    alloc: Global,
    base: &Name,
    subset: Subset,
    filter: &Filter,
    selection: &Selection,
) -> Result<Body, AllocError>
    ensures { IfOk result (λ b. body_view b ≡ body_view (bodies.Search base.now subset filter.now selection.now)) }
{
    Ok(Body::Search {
        base: base.clone()?,
        subset,
        selection: selection.clone()?,
        filter: copied(alloc, filter)?,
    })
}

/// A copy of a add of these arguments.
fn add_of(object: &Name, attributes: &AttributeList) -> Result<Body, AllocError>
    ensures { IfOk result (λ b. body_view b ≡ body_view (bodies.Add object.now attributes.now)) }
{
    Ok(Body::Add {
        object: object.clone()?,
        attributes: attributes.clone()?,
    })
}

/// A copy of a modify of these arguments.
fn modify_of(object: &Name, changes: &ChangeList) -> Result<Body, AllocError>
    ensures { IfOk result (λ b. body_view b ≡ body_view (bodies.Modify object.now changes.now)) }
{
    Ok(Body::Modify {
        object: object.clone()?,
        changes: changes.clone()?,
    })
}

/// A copy of a modifyDn of these arguments.
fn rename_of(object: &Name, rdn: &Rdn, drop_old: bool) -> Result<Body, AllocError>
    ensures { IfOk result (λ b. body_view b ≡ body_view (bodies.ModifyDn object.now rdn.now drop_old)) }
{
    Ok(Body::ModifyDn {
        object: object.clone()?,
        rdn: rdn.clone()?,
        drop_old,
    })
}

impl Body {
    /// A copy.
    pub fn copy(&self, alloc: Global) -> Result<Body, AllocError>
        ensures { IfOk result (λ b. body_view b ≡ body_view self.now) }
    {
        match self {
            Body::Read { object, selection } => read_of(object, selection),
            Body::Compare {
                object,
                kind,
                value,
            } => compare_of(object, kind, value),
            Body::List { object } => Ok(Body::List {
                object: object.clone()?,
            }),
            Body::Search {
                base,
                subset,
                filter,
                selection,
            } => search_of(alloc, base, *subset, filter, selection),
            Body::Add { object, attributes } => add_of(object, attributes),
            Body::Remove { object } => Ok(Body::Remove {
                object: object.clone()?,
            }),
            Body::Modify { object, changes } => modify_of(object, changes),
            Body::ModifyDn {
                object,
                rdn,
                drop_old,
            } => rename_of(object, rdn, *drop_old),
        }
    }
}

impl Request {
    /// A copy.
    pub fn copy(&self, alloc: Global) -> Result<Request, AllocError>
        ensures { IfOk result (λ r. request_view r ≡ request_view self.now) }
    {
        Ok(Request {
            controls: self.controls,
            body: self.body.copy(alloc)?,
        })
    }
}
