//! Filters (X.511, section 7.8).

ghost use Rattle.std.specs.Prelude.{◌≡◌, ◌++◌, ◌∷◌, [], IfOk, OnOk, OnErr, IsTrue};
ghost use Rattle.std.specs.List.{list_any};
ghost use Rattle.x5_model.specs.Assertions as assertions;
ghost use Rattle.x5_model.specs.Filters as filters;
ghost use Rattle.x5_model.specs.Truth as model;
ghost use Rattle.x5_model.specs.Types.{kind_of, has_substrings};
ghost use Rattle.x5_syntax.specs.TypeView.{type_view};
ghost use Rattle.x5_syntax.specs.ValueView.{value_view};
ghost use Rattle.x5_match.specs.PlaceView.{place_view};
ghost use Rattle.x5_match.specs.TruthView.{truth_view};
ghost use Rattle.x5_match.specs.FilterView.{item_view, filter_view};

use crate::entry::{Entry, StoredValue};
use crate::matching::{NormalList, Parts, has_parts};
use crate::truth::Truth;
use std::alloc::{AllocError, Global};
use std::marker::Model;
use x5_syntax::{NoMemory, Normal, SyntaxFault, TypeId, TypeRef, Value, normal, normal_part};

/// A type and a value (X.511, section 7.8.2). There is no normal form exactly where the type is unknown or the value isn't of its kind.
#[derive(Drop)]
pub struct Assertion {
    pub kind: TypeRef,
    pub value: Value,
    pub normal: Option<Normal>,
}

impl Model for Assertion {
    ghost use Rattle.x5_model.specs.Filters as filters;
    ghost use Rattle.x5_syntax.specs.TypeView.{type_view};
    ghost use Rattle.x5_syntax.specs.ValueView.{value_view};

    ghost Value = { filters.Assertion };

    ghost view = { λ a. record { kind = type_view a.kind; value = value_view a.value; normal = a.normal } };
}

/// The normal form of a value for a type: None exactly where the type is unknown or the value isn't of its kind or passes a limit.
pub fn normal_for(alloc: Global, kind: &TypeRef, value: &Value) -> Result<Option<Normal>, NoMemory>
    ensures { IfOk result (λ n. n ≡ assertions.normal_for (type_view kind.now) (value_view value.now)) }
{
    let TypeRef::Known(known) = kind else {
        return Ok(None);
    };
    match normal(alloc, *known, value) {
        Ok(normal) => Ok(Some(normal)),
        Err(SyntaxFault::NoMemory) => Err(NoMemory),
        Err(_) => Ok(None),
    }
}

impl Assertion {
    /// The assertion of a value of a type.
    pub fn new(alloc: Global, kind: TypeRef, value: Value) -> Result<Assertion, NoMemory>
        ensures { IfOk result (λ a. a ≡ assertions.assertion_of (type_view kind) (value_view value)) }
    {
        let normal = normal_for(alloc, &kind, &value)?;
        Ok(Assertion {
            kind,
            value,
            normal,
        })
    }
}

/// Where a part of a substrings item stands in a value.
#[derive(Clone, Copy, PartialEq, Eq)]
pub enum PiecePlace {
    Initial,
    Any,
    Last,
}

/// A part of a substrings item.
#[derive(Drop)]
pub struct Piece {
    pub place: PiecePlace,
    pub value: Value,
}

impl Model for Piece {
    ghost use Rattle.x5_model.specs.Filters as filters;
    ghost use Rattle.x5_syntax.specs.ValueView.{value_view};
    ghost use Rattle.x5_match.specs.PlaceView.{place_view};

    ghost Value = { filters.Piece };

    ghost view = { λ p. record { place = place_view p.place; value = value_view p.value } };
}

/// The parts of a substrings item, in their order.
#[derive(Drop)]
pub struct PieceList {
    pieces: Vec<Piece>,
}

impl Model for PieceList {
    ghost use Rattle.std.specs.Prelude.{List};
    ghost use Rattle.x5_model.specs.Filters as filters;

    ghost Value = { List filters.Piece };

    ghost view = { λ l. l.pieces.items };
}

impl Clone for PieceList {
    ghost is_clone = { λ a b. b ≡ a };

    fn clone(&self) -> Result<PieceList, AllocError> {
        Ok(PieceList {
            pieces: self.pieces.clone()?,
        })
    }
}

impl PieceList {
    /// The empty list. No memory.
    pub fn new(alloc: Global) -> PieceList
        ensures { result ≡ [] }
    {
        PieceList {
            pieces: Vec::new(alloc),
        }
    }

    /// Its members. No memory.
    pub fn as_slice(&self) -> &[Piece]
        ensures { result.now ≡ self.now }
    {
        self.pieces.as_slice()
    }

    /// Adds a member at the end.
    pub fn push(&mut self, piece: Piece) -> Result<(), NoMemory>
        ensures ok { OnOk result (self.new ≡ self.old ++ piece ∷ []) }
        ensures err { OnErr result (self.new ≡ self.old) }
    {
        self.pieces.push(piece)?;
        Ok(())
    }
}

/// A type and parts of a value (X.511, section 7.8.2). There are no normal forms exactly where the type is unknown, its kind
/// has no substrings, or a part isn't of the kind.
#[derive(Drop)]
pub struct SubstringItem {
    pub kind: TypeRef,
    pub pieces: PieceList,
    pub normal: Option<Parts>,
}

impl Model for SubstringItem {
    ghost use Rattle.x5_model.specs.Filters as filters;
    ghost use Rattle.x5_syntax.specs.TypeView.{type_view};

    ghost Value = { filters.SubstringItem };

    ghost view = { λ s. record { kind = type_view s.kind; pieces = s.pieces; normal = s.normal } };
}

/// The normal form of a part: None exactly where it isn't of the kind or passes the limit.
fn piece_normal(alloc: Global, kind: TypeId, piece: &Piece) -> Result<Option<Normal>, NoMemory>
    requires { IsTrue (has_substrings (kind_of kind)) }
    ensures { IfOk result (λ n. n ≡ assertions.piece_normal (kind_of kind) piece.now) }
{
    let first = piece.place == PiecePlace::Initial;
    let last = piece.place == PiecePlace::Last;
    match normal_part(alloc, kind, &piece.value, first, last) {
        Ok(normal) => Ok(Some(normal)),
        Err(SyntaxFault::NoMemory) => Err(NoMemory),
        Err(_) => Ok(None),
    }
}

/// Adds a part behind the others.
fn add_part(parts: &mut Parts, place: PiecePlace, normal: Normal) -> Result<(), NoMemory>
    ensures { OnOk result (parts.new ≡ assertions.with_part (place_view place) normal parts.old) }
{
    match place {
        PiecePlace::Initial => parts.initial = Some(normal),
        PiecePlace::Any => parts.any.push(normal)?,
        PiecePlace::Last => parts.last = Some(normal),
    }
    Ok(())
}

/// The normal forms of the parts, where each is of the kind.
fn parts_from(alloc: Global, kind: TypeId, pieces: &[Piece]) -> Result<Option<Parts>, NoMemory>
    requires { IsTrue (has_substrings (kind_of kind)) }
    ensures { IfOk result (λ p. p ≡ assertions.parts_of (kind_of kind) pieces.now) }
{
    let mut parts = Parts {
        initial: None,
        any: NormalList::new(alloc),
        last: None,
    };
    for piece in pieces {
        match piece_normal(alloc, kind, piece)? {
            Some(normal) => add_part(&mut parts, piece.place, normal)?,
            None => {
                drop(parts);
                return Ok(None);
            }
        }
    }
    Ok(Some(parts))
}

impl SubstringItem {
    /// The item of parts of a value of a type.
    pub fn new(alloc: Global, kind: TypeRef, pieces: PieceList) -> Result<SubstringItem, NoMemory>
        ensures { IfOk result (λ s. s ≡ assertions.substring_item_of (type_view kind) pieces) }
    {
        let normal = match &kind {
            TypeRef::Known(known) if known.kind().has_substrings() => {
                parts_from(alloc, *known, pieces.as_slice())?
            }
            _ => None,
        };
        Ok(SubstringItem {
            kind,
            pieces,
            normal,
        })
    }
}

/// What is asserted of one type.
#[derive(Drop)]
pub enum Item {
    Equality(Assertion),
    Substrings(SubstringItem),
    GreaterOrEqual(Assertion),
    LessOrEqual(Assertion),
    Present(TypeRef),
    Approximate(Assertion),
}

/// Members of an `and` or an `or`, in their order.
pub type FilterList = Vec<Filter>;

/// What an entry must meet to be selected.
#[derive(Drop)]
pub enum Filter {
    Item(Item),
    And(FilterList),
    Or(FilterList),
    Not(Box<Filter>),
}

/// Whether a value of the type is equal to the asserted one.
fn equality(assertion: &Assertion, entry: &Entry) -> Truth
    ensures { truth_view result ≡ model.truth_by model.is_equal assertion.now.kind assertion.now.normal entry.now }
{
    match (&assertion.kind, &assertion.normal) {
        (TypeRef::Known(kind), Some(normal)) => Truth::from(entry.has_value(*kind, normal)),
        _ => Truth::Undefined,
    }
}

/// Whether one of the values isn't below the normal form.
fn has_at_least(normal: &Normal, values: &[StoredValue]) -> bool
    ensures { result ≡ list_any (λ v. model.is_at_least normal.now v.normal) values.now }
{
    values.iter().any(|value| value.normal.as_slice().cmp(normal.as_slice()).is_ge())
}

/// Whether one of the values isn't above the normal form.
fn has_at_most(normal: &Normal, values: &[StoredValue]) -> bool
    ensures { result ≡ list_any (λ v. model.is_at_most normal.now v.normal) values.now }
{
    values.iter().any(|value| value.normal.as_slice().cmp(normal.as_slice()).is_le())
}

/// Whether a value of the type isn't below the asserted one.
fn greater_or_equal(assertion: &Assertion, entry: &Entry) -> Truth
    ensures { truth_view result ≡ model.item_truth (filters.GreaterOrEqual assertion.now) entry.now }
{
    match (&assertion.kind, &assertion.normal) {
        (TypeRef::Known(kind), Some(normal)) if kind.kind().has_order() => {
            Truth::from(has_at_least(normal, entry.values(*kind)))
        }
        _ => Truth::Undefined,
    }
}

/// Whether a value of the type isn't above the asserted one.
fn less_or_equal(assertion: &Assertion, entry: &Entry) -> Truth
    ensures { truth_view result ≡ model.item_truth (filters.LessOrEqual assertion.now) entry.now }
{
    match (&assertion.kind, &assertion.normal) {
        (TypeRef::Known(kind), Some(normal)) if kind.kind().has_order() => {
            Truth::from(has_at_most(normal, entry.values(*kind)))
        }
        _ => Truth::Undefined,
    }
}

/// Whether one of the values has the parts.
fn has_match(parts: &Parts, values: &[StoredValue]) -> bool
    ensures { result ≡ list_any (λ v. model.matches_parts parts.now v.normal) values.now }
{
    values
        .iter()
        .any(|value| has_parts(parts, value.normal.as_slice()))
}

/// Whether a value of the type has the parts.
fn substring(item: &SubstringItem, entry: &Entry) -> Truth
    ensures { truth_view result ≡ model.item_truth (filters.Substrings item.now) entry.now }
{
    match (&item.kind, &item.normal) {
        (TypeRef::Known(kind), Some(parts)) if kind.kind().has_substrings() => {
            Truth::from(has_match(parts, entry.values(*kind)))
        }
        _ => Truth::Undefined,
    }
}

/// Whether the entry has the type.
fn present(kind: &TypeRef, entry: &Entry) -> Truth
    ensures { truth_view result ≡ model.present_truth (type_view kind.now) entry.now }
{
    match kind {
        TypeRef::Known(known) => Truth::from(entry.is_present(*known)),
        TypeRef::Unknown(_) => Truth::Undefined,
    }
}

impl Item {
    /// Whether the item is true of the entry. No memory.
    pub fn holds(&self, entry: &Entry) -> Truth
        ensures { truth_view result ≡ model.item_truth (item_view self.now) entry.now }
    {
        match self {
            Item::Equality(assertion) => equality(assertion, entry),
            Item::Substrings(item) => substring(item, entry),
            Item::GreaterOrEqual(assertion) => greater_or_equal(assertion, entry),
            Item::LessOrEqual(assertion) => less_or_equal(assertion, entry),
            Item::Present(kind) => present(kind, entry),
            Item::Approximate(assertion) => equality(assertion, entry),
        }
    }
}

/// Whether the filter is true of the entry (X.511, section 7.8.1). No memory.
pub fn holds(filter: &Filter, entry: &Entry) -> Truth
    ensures { truth_view result ≡ model.filter_truth (filter_view filter.now) entry.now }
{
    match filter {
        Filter::Item(item) => item.holds(entry),
        Filter::And(members) => {
            let mut truth = Truth::True;
            for member in members {
                truth = truth.and(holds(member, entry));
            }
            truth
        }
        Filter::Or(members) => {
            let mut truth = Truth::False;
            for member in members {
                truth = truth.or(holds(member, entry));
            }
            truth
        }
        Filter::Not(member) => holds(member, entry).negated(),
    }
}
