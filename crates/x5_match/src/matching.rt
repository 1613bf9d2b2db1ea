//! Matching of normal forms by the kind of their type (X.520: matching rules).

ghost use Rattle.std.specs.Prelude.{◌≡◌, ◌++◌, ◌∷◌, [], IfOk, OnOk, OnErr, Some, None, if◌then◌else◌, length};
ghost use Rattle.std.specs.Option.{option_copied};
ghost use Rattle.std.specs.Ordering.{nat_cmp};
ghost use Rattle.std.specs.Cmp.Lexicographic.{slice_cmp};
ghost use Rattle.x5_model.specs.Truth as model;
ghost use Rattle.x5_model.specs.Types.{kind_of, has_order, has_substrings};
ghost use Rattle.x5_model.specs.Words.{same_octets};
ghost use Rattle.x5_match.specs.Occurrence.{behind_occurrence};
ghost use Rattle.x5_match.specs.TruthView.{truth_view};

use crate::truth::Truth;
use std::alloc::{AllocError, Global};
use std::cmp::Ordering;
use std::marker::Model;
use x5_syntax::{NoMemory, Normal, TypeId};

/// Normal forms of the parts in the middle of a substrings item, in their order.
#[derive(Drop)]
pub struct NormalList {
    normals: Vec<Normal>,
}

impl Model for NormalList {
    ghost use Rattle.std.specs.Prelude.{ℕ, List};

    ghost Value = { List (List ℕ) };

    ghost view = { λ l. l.normals.items };
}

impl NormalList {
    /// The empty list. No memory.
    pub fn new(alloc: Global) -> NormalList
        ensures { result ≡ [] }
    {
        NormalList {
            normals: Vec::new(alloc),
        }
    }

    /// Its members. No memory.
    pub fn as_slice(&self) -> &[Normal]
        ensures { result.now ≡ self.now }
    {
        self.normals.as_slice()
    }

    /// Adds a member at the end.
    pub fn push(&mut self, normal: Normal) -> Result<(), NoMemory>
        ensures ok { OnOk result (self.new ≡ self.old ++ normal ∷ []) }
        ensures err { OnErr result (self.new ≡ self.old) }
    {
        self.normals.push(normal)?;
        Ok(())
    }
}

impl Clone for NormalList {
    ghost is_clone = { λ a b. b ≡ a };

    fn clone(&self) -> Result<NormalList, AllocError> {
        Ok(NormalList {
            normals: self.normals.clone()?,
        })
    }
}

/// The normal forms of the parts of a substrings item (X.511, section 7.8.2).
#[derive(Drop)]
pub struct Parts {
    pub initial: Option<Normal>,
    pub any: NormalList,
    pub last: Option<Normal>,
}

impl Model for Parts {
    ghost use Rattle.x5_model.specs.Filters as filters;

    ghost Value = { filters.Parts };

    ghost view = { λ p. record { initial = p.initial; any = p.any; last = p.last } };
}

impl Clone for Parts {
    ghost is_clone = { λ a b. b ≡ a };

    fn clone(&self) -> Result<Parts, AllocError> {
        Ok(Parts {
            initial: self.initial.clone()?,
            any: self.any.clone()?,
            last: self.last.clone()?,
        })
    }
}

/// Whether two normal forms of values of one type are equal; each kind has equality. No memory.
pub fn equal(_kind: TypeId, a: &Normal, b: &Normal) -> Truth
    ensures { truth_view result ≡ model.truth_of (same_octets a.now b.now) }
{
    Truth::from(a.as_slice() == b.as_slice())
}

/// The order of two normal forms of values of one type: None exactly where the kind has no ordering rule. No memory.
pub fn order(kind: TypeId, a: &Normal, b: &Normal) -> Option<Ordering>
    ensures { result ≡ (if has_order (kind_of kind) then Some (slice_cmp nat_cmp a.now b.now) else None) }
{
    if kind.kind().has_order() {
        Some(a.as_slice().cmp(b.as_slice()))
    } else {
        None
    }
}

/// What stands behind the first place where the part stands.
fn behind<'a>(text: &'a [u8], part: &[u8]) -> Option<&'a [u8]>
    ensures { option_copied result ≡ behind_occurrence part.now text.entry.now }
{
    let mut rest = text;
    loop {
        if let Some(behind) = rest.strip_prefix(part) {
            return Some(behind);
        }
        let [_, others @ ..] = rest else { return None };
        rest = others;
    }
}

/// Whether the last part ends the text.
fn ends_so(last: &Option<Normal>, text: &[u8]) -> bool
    ensures { result ≡ model.ends_so last.now text.now }
{
    match last {
        Some(part) => text.ends_with(part.as_slice()),
        None => true,
    }
}

/// Whether the parts stand in the text in this order without overlap, and the last part ends it.
fn are_in_order(parts: &[Normal], last: &Option<Normal>, text: &[u8]) -> bool
    ensures { result ≡ model.in_order parts.now last.now text.now }
{
    let mut rest = text;
    for part in parts {
        match behind(rest, part.as_slice()) {
            Some(behind) => rest = behind,
            None => return false,
        }
    }
    ends_so(last, rest)
}

/// Whether the value has the parts: the initial one begins it.
pub(crate) fn has_parts(parts: &Parts, value: &[u8]) -> bool
    ensures { result ≡ model.matches_parts parts.now value.now }
{
    let any = parts.any.as_slice();
    match &parts.initial {
        None => are_in_order(any, &parts.last, value),
        Some(part) => match value.strip_prefix(part.as_slice()) {
            Some(rest) => are_in_order(any, &parts.last, rest),
            None => false,
        },
    }
}

/// Whether a value has the parts of a substrings item: Undefined exactly where the kind has no substrings. No memory.
pub fn substrings(kind: TypeId, value: &Normal, parts: &Parts) -> Truth
    ensures { truth_view result ≡ (if has_substrings (kind_of kind) then model.truth_of (model.matches_parts parts.now value.now) else model.Undefined) }
{
    if kind.kind().has_substrings() {
        Truth::from(has_parts(parts, value.as_slice()))
    } else {
        Truth::Undefined
    }
}
