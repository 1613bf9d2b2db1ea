//! Values of attributes as text (docs/FORMATS.md, names and values as text).

ghost use Rattle.std.specs.Prelude.{◌≡◌, ◌+◌, ◌<◌, ◌≤◌, nat_lt, length, map, sum, IfOk, Some, None, if◌then◌else◌};
ghost use Rattle.x5_model.specs.Normal as model;
ghost use Rattle.x5_model.specs.Types as model_types;
ghost use Rattle.x5_model_text.specs.NameText.{value_as, value_of_text, value_of_resolved, name_or_text, text_of_value};
ghost use Rattle.x5_model_text.specs.ValueText.{bounded, octets_of_text};
ghost use Rattle.x5_syntax.specs.TypeView.{type_view};
ghost use Rattle.x5_syntax.specs.Views.{kind_view};
ghost use Rattle.x5_syntax.specs.ValueView.{value_view, Gives, syntax_fault};
ghost use Rattle.x5_syntax.specs.declared.values.SyntaxFault.TheVariants.{NoMemory as NoMemoryFault};

use crate::containers::{Octets, Text};
use crate::escapes::{EscapeFault, escape, resolve};
use crate::kinds::{Kind, TypeRef};
use crate::names::{
    MOST_VALUE_OCTETS, NameFault, NameValue, name_over, sorted_rdns, utf8, written_name,
};
use crate::oid::Oid;
use hex::FromHexError;
use std::alloc::{AllocError, AllocFailed, Global};
use thiserror::Error;
use x5_memory::NoMemory;

/// A value as it is written, by its form and not by its type.
#[derive(Drop)]
pub enum Value {
    Text(Text),
    Octets(Octets),
    Oid(Oid),
    Name(NameValue),
}

/// Why a text is no value, or a value has no normal form.
#[derive(Clone, Copy, Debug, PartialEq, Eq, Error)]
pub enum SyntaxFault {
    #[error("no value of the type")]
    WrongSyntax,
    /// The value passes this limit: of octets, of RDNs or of pairs.
    #[error("a value past the limit of {0}")]
    TooLong(u32),
    #[error("out of memory")]
    NoMemory,
}

impl From<AllocError> for SyntaxFault {
    ghost from_gives = { λ _ fault. fault ≡ NoMemoryFault };

    fn from(_: AllocError) -> Self {
        SyntaxFault::NoMemory
    }
}

impl<T: Drop> From<AllocFailed<T>> for SyntaxFault {
    ghost from_gives = { λ _ fault. fault ≡ NoMemoryFault };

    fn from(_: AllocFailed<T>) -> Self {
        SyntaxFault::NoMemory
    }
}

impl From<NoMemory> for SyntaxFault {
    ghost from_gives = { λ _ fault. fault ≡ NoMemoryFault };

    fn from(_: NoMemory) -> Self {
        SyntaxFault::NoMemory
    }
}

impl From<EscapeFault> for SyntaxFault {
    ghost from_gives = { λ escape fault. fault ≡ syntax_fault escape };

    fn from(fault: EscapeFault) -> Self {
        match fault {
            EscapeFault::Bad(_) => SyntaxFault::WrongSyntax,
            EscapeFault::NoMemory => SyntaxFault::NoMemory,
        }
    }
}

/// How many octets a subidentifier takes.
fn subidentifier_len(number: u64) -> usize
    ensures { result ≡ model.subidentifier_len number }
{
    if number < 1 << 7 {
        1
    } else if number < 1 << 14 {
        2
    } else if number < 1 << 21 {
        3
    } else if number < 1 << 28 {
        4
    } else {
        5
    }
}

/// Whether the arcs take more octets than a value may have, behind those that take some.
fn are_long(taken: usize, arcs: &[u32]) -> bool
    requires { taken ≤ 1024 }
    ensures { result ≡ nat_lt 1024 (taken + sum (map model.subidentifier_len arcs.now)) }
{
    let mut total = taken;
    for arc in arcs {
        total += subidentifier_len(u64::from(*arc));
        if total > MOST_VALUE_OCTETS {
            return true;
        }
    }
    false
}

/// Whether an object identifier takes more octets than a value may have.
fn is_long(arcs: &[u32]) -> bool
    ensures { result ≡ nat_lt 1024 (model.oid_content_len arcs.now) }
{
    match arcs {
        [first, second, others @ ..] => {
            let both = 40 * u64::from(*first) + u64::from(*second);
            are_long(subidentifier_len(both), others)
        }
        _ => false,
    }
}

/// The octets that hexadecimal digits spell, if the text is some.
fn octets_from(alloc: Global, text: &str) -> Result<Option<Octets>, NoMemory>
    ensures { IfOk result (λ octets. octets ≡ octets_of_text text.now) }
{
    if text.is_empty() {
        return Ok(None);
    }
    match hex::decode(alloc, text) {
        Ok(octets) => Ok(Some(Octets::new(octets))),
        Err(FromHexError::OutOfMemory) => Err(NoMemory),
        Err(_) => Ok(None),
    }
}

/// The value, if it keeps to its limits.
fn within(value: Value) -> Result<Value, SyntaxFault>
    ensures { Gives value_view result (bounded (value_view value)) }
{
    match value.limit_passed() {
        Some(most) => Err(SyntaxFault::TooLong(most)),
        None => Ok(value),
    }
}

/// The name that a text spells, or else the text.
fn name_from(alloc: Global, text: Text) -> Result<Value, SyntaxFault>
    ensures { Gives value_view result (value_as model_types.NameKind text) }
{
    match written_name(alloc, false, text.as_str()) {
        Ok(rdns) => match name_over(&rdns) {
            Some(most) => Err(SyntaxFault::TooLong(most)),
            None => Ok(Value::Name(sorted_rdns(alloc, rdns)?)),
        },
        Err(NameFault::NoMemory) => Err(SyntaxFault::NoMemory),
        Err(_) => within(Value::Text(text)),
    }
}

/// The object identifier that a text spells, or else the text.
fn oid_from(alloc: Global, text: Text) -> Result<Value, SyntaxFault>
    ensures { Gives value_view result (value_as model_types.OidKind text) }
{
    match Oid::parse(alloc, text.as_str())? {
        Some(oid) => within(Value::Oid(oid)),
        None => within(Value::Text(text)),
    }
}

/// What a resolved text stands for.
fn read_as(alloc: Global, kind: Kind, text: Text) -> Result<Value, SyntaxFault>
    ensures { Gives value_view result (value_as (kind_view kind) text) }
{
    match kind {
        Kind::Oid => oid_from(alloc, text),
        Kind::Octets => match octets_from(alloc, text.as_str())? {
            Some(octets) => within(Value::Octets(octets)),
            None => within(Value::Text(text)),
        },
        Kind::Name => name_from(alloc, text),
        Kind::Text | Kind::Printable | Kind::Country | Kind::Numeric | Kind::Telephone => {
            within(Value::Text(text))
        }
    }
}

impl Value {
    /// The first limit that the value passes. No memory.
    pub fn limit_passed(&self) -> Option<u32>
        ensures { result ≡ model.value_over (value_view self.now) }
    {
        match self {
            Value::Text(text) => passed(text.len() > MOST_VALUE_OCTETS),
            Value::Octets(octets) => passed(octets.as_slice().len() > MOST_VALUE_OCTETS),
            Value::Oid(oid) => passed(is_long(oid.arcs())),
            Value::Name(name) => name.limit_passed(),
        }
    }

    /// The value of the type that a text spells. A text that isn't of the type's kind is kept as a text; `WrongSyntax` says that
    /// it has an escape, a control character or octets that no text has, or is empty, and `TooLong` that the value passes a limit.
    pub fn from_text(alloc: Global, kind: &TypeRef, text: &str) -> Result<Value, SyntaxFault>
        ensures { Gives value_view result (value_of_text (type_view kind.now) text.now) }
    {
        let octets = resolve(alloc, 0, text)?;
        match utf8(octets) {
            Some(text) => {
                if text.len() == 0 {
                    Err(SyntaxFault::WrongSyntax)
                } else {
                    read_as(alloc, kind.kind(), text)
                }
            }
            None => Err(SyntaxFault::WrongSyntax),
        }
    }

    /// The text of the value.
    pub fn to_text(&self, alloc: Global) -> Result<Text, NoMemory>
        ensures { IfOk result (λ text. text ≡ text_of_value (value_view self.now)) }
    {
        match self {
            Value::Text(text) => escape(alloc, text.as_str()),
            Value::Octets(octets) => Ok(Text::from_string(hex::encode(alloc, octets.as_slice())?)),
            Value::Oid(oid) => oid.text(alloc),
            Value::Name(name) => {
                let text = name.text(alloc)?;
                escape(alloc, text.as_str())
            }
        }
    }
}

/// The limit of octets, where it is passed.
fn passed(over: bool) -> Option<u32>
    ensures { result ≡ (if over then Some 1024 else None) }
{
    if over {
        Some(MOST_VALUE_OCTETS as u32)
    } else {
        None
    }
}

impl Clone for Value {
    ghost is_clone = { λ a b. b ≡ a };

    fn clone(&self) -> Result<Value, AllocError> {
        match self {
            Value::Text(text) => Ok(Value::Text(text.clone()?)),
            Value::Octets(octets) => Ok(Value::Octets(octets.clone()?)),
            Value::Oid(oid) => Ok(Value::Oid(oid.clone()?)),
            Value::Name(name) => Ok(Value::Name(name.clone()?)),
        }
    }
}
