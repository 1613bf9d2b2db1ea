//! The references of an agent, of both kinds in one list.

ghost use Rattle.std.specs.Prelude.{◌≡◌, true, false, [], ◌∷◌, ◌++◌, map, IfOk, OnOk};
ghost use Rattle.x5_ops.specs.KnowledgeViews.{cross_view, specific_view};
ghost use Rattle.serde_json.specs.View.{view, items_view};
ghost use Rattle.x5_model.specs.Values.{key_of};
ghost use Rattle.x5_model_world.specs.AgentText as model;
ghost use Rattle.x5_model_world.specs.ContextText.{has_key};
ghost use Rattle.x5_load.specs.Parts as parts;
ghost use Rattle.x5_world_members.specs.Paths.{path_of};
ghost use Rattle.x5_world_members.specs.Views.{ReadsPart};

use crate::limits::few;
use serde_json::Value;
use std::alloc::Global;
use std::marker::Model;
use x5_know::AgentNames;
use x5_memory::NoMemory;
use x5_names::Name;
use x5_ops::{Access, Cross, Specific};
use x5_world_members::{
    KeySet, LoadFault, Place, agent_of, agents_behind, entry_name_at, list_if_any, members_at,
    only, text_at,
};

/// Shadow agents of a reference at most.
const MOST_SHADOWS: u32 = 8;

/// References of an agent: those of each kind, and of each in the order of the file whether it's a cross reference.
#[derive(Drop)]
pub(crate) struct References {
    pub(crate) specific: Vec<Specific>,
    pub(crate) cross: Vec<Cross>,
    pub(crate) crosses: Vec<bool>,
}

impl Model for References {
    ghost use Rattle.std.specs.Prelude.{map};
    ghost use Rattle.x5_model_world.specs.AgentText as model;
    ghost use Rattle.x5_ops.specs.KnowledgeViews.{specific_view, cross_view};

    ghost Value = { model.References };

    ghost view = { λ r. record { subordinate = map specific_view r.specific.items; cross = map cross_view r.cross.items; crosses = r.crosses.items } };
}

/// References of an agent so far: those of each kind, no two to one name, and of each in the order of the file whether it's a cross
/// reference. A name is found among those of a kind without a walk through the others.
#[derive(Drop)]
struct KeyedReferences {
    specific: Vec<Specific>,
    cross: Vec<Cross>,
    crosses: Vec<bool>,
    specific_keys: KeySet,
    cross_keys: KeySet,
}

impl Model for KeyedReferences {
    ghost use Rattle.std.specs.Prelude.{◌≡◌, map};
    ghost use Rattle.x5_model_world.specs.AgentText as model;
    ghost use Rattle.x5_ops.specs.KnowledgeViews.{specific_view, cross_view};

    ghost Value = { model.References };

    ghost view = { λ r. record { subordinate = map specific_view r.specific.items; cross = map cross_view r.cross.items; crosses = r.crosses.items } };

    ghost invariant = { λ r. (r.specific_keys ≡ model.pin_keys (map specific_view r.specific.items)) × (r.cross_keys ≡ model.pin_keys (map cross_view r.cross.items)) };
}

/// Whether the word says that a reference is a cross reference, or a subordinate one; None for any other.
fn is_cross(word: &str) -> Option<bool>
    ensures { result ≡ model.is_cross word.now }
{
    if word == "cross" {
        return Some(true);
    }
    if word == "subordinate" {
        return Some(false);
    }
    None
}

/// Puts a cross reference behind these, and its key behind theirs.
#[tactic(auto, using(crate::proofs::Pins::cross_more, crate::proofs::Pins::cross_keys))]
fn put_cross(
    cross: &mut Vec<Cross>,
    keys: &mut KeySet,
    pin: &Name,
    access: Access,
) -> Result<(), NoMemory>
    requires keyed { keys.old ≡ model.pin_keys (map cross_view cross.old.items) }
    requires new { has_key keys.old (key_of pin.now) ≡ false }
    ensures more { OnOk result (map cross_view cross.new.items ≡ map cross_view cross.old.items ++ record { pin = pin.now; access = access } ∷ []) }
    ensures keyed { OnOk result (keys.new ≡ model.pin_keys (map cross_view cross.new.items)) }
{
    let pin = pin.clone()?;
    let key = pin.key().clone()?;
    keys.add(key)?;
    cross.push(Cross { pin, access })?;
    Ok(())
}

/// Puts a subordinate reference behind these, and its key behind theirs.
#[tactic(auto, using(crate::proofs::Pins::specific_more, crate::proofs::Pins::specific_keys))]
fn put_subordinate(
    alloc: Global,
    specific: &mut Vec<Specific>,
    keys: &mut KeySet,
    pin: &Name,
    access: Access,
) -> Result<(), NoMemory>
    requires keyed { keys.old ≡ model.pin_keys (map specific_view specific.old.items) }
    requires new { has_key keys.old (key_of pin.now) ≡ false }
    ensures more { OnOk result (map specific_view specific.new.items ≡ map specific_view specific.old.items ++ record { pin = pin.now; access = access } ∷ []) }
    ensures keyed { OnOk result (keys.new ≡ model.pin_keys (map specific_view specific.new.items)) }
{
    let pin = pin.clone()?;
    let key = pin.key().clone()?;
    keys.add(key)?;
    let context = Name::root(alloc);
    specific.push(Specific {
        context,
        pin,
        access,
    })?;
    Ok(())
}

impl KeyedReferences {
    /// The references themselves. No memory.
    fn into_references(self) -> References
        ensures { result ≡ self }
    {
        References {
            specific: self.specific,
            cross: self.cross,
            crosses: self.crosses,
        }
    }

    /// No references yet. No memory.
    fn new(alloc: Global) -> KeyedReferences
        ensures { result ≡ model.no_references }
    {
        KeyedReferences {
            specific: Vec::new(alloc),
            cross: Vec::new(alloc),
            crosses: Vec::new(alloc),
            specific_keys: KeySet::new(alloc),
            cross_keys: KeySet::new(alloc),
        }
    }

    /// Whether one of the kind is to the name. No memory.
    #[tactic(auto, using(crate::proofs::Pins::of_cross, crate::proofs::Pins::of_subordinate))]
    fn has(&self, cross: bool, name: &Name) -> bool
        ensures { result ≡ has_key (model.pin_keys (model.of_kind self.now cross)) (key_of name.now) }
    {
        if cross {
            self.cross_keys.has(name.key())
        } else {
            self.specific_keys.has(name.key())
        }
    }

    /// The references with one more cross reference, to whose name there is none.
    fn with_cross(self, pin: &Name, access: Access) -> Result<KeyedReferences, NoMemory>
        requires { has_key (model.pin_keys self.cross) (key_of pin.now) ≡ false }
        ensures { IfOk result (λ r. r ≡ model.with_reference self true (record { pin = pin.now; access = access })) }
    {
        let KeyedReferences {
            specific,
            mut cross,
            mut crosses,
            specific_keys,
            mut cross_keys,
        } = self;
        put_cross(&mut cross, &mut cross_keys, pin, access)?;
        crosses.push(true)?;
        Ok(KeyedReferences {
            specific,
            cross,
            crosses,
            specific_keys,
            cross_keys,
        })
    }

    /// The references with one more subordinate reference, to whose name there is none.
    fn with_subordinate(
        self,
        alloc: Global,
        pin: &Name,
        access: Access,
    ) -> Result<KeyedReferences, NoMemory>
        requires { has_key (model.pin_keys self.subordinate) (key_of pin.now) ≡ false }
        ensures { IfOk result (λ r. r ≡ model.with_reference self false (record { pin = pin.now; access = access })) }
    {
        let KeyedReferences {
            mut specific,
            cross,
            mut crosses,
            mut specific_keys,
            cross_keys,
        } = self;
        put_subordinate(alloc, &mut specific, &mut specific_keys, pin, access)?;
        crosses.push(false)?;
        Ok(KeyedReferences {
            specific,
            cross,
            crosses,
            specific_keys,
            cross_keys,
        })
    }

    /// The references with one more of the kind, to whose name none of the kind is.
    #[tactic(auto, using(crate::proofs::Pins::of_cross, crate::proofs::Pins::of_subordinate, crate::proofs::Pins::with_cross, crate::proofs::Pins::with_subordinate))]
    fn with(
        self,
        alloc: Global,
        cross: bool,
        pin: &Name,
        access: Access,
    ) -> Result<KeyedReferences, NoMemory>
        requires { has_key (model.pin_keys (model.of_kind self cross)) (key_of pin.now) ≡ false }
        ensures { IfOk result (λ r. r ≡ model.with_reference self cross (record { pin = pin.now; access = access })) }
    {
        if cross {
            self.with_cross(pin, access)
        } else {
            self.with_subordinate(alloc, pin, access)
        }
    }
}

/// The agents at which the reference is that an object describes.
fn access_at(
    alloc: Global,
    names: &AgentNames,
    place: &Place<'_>,
    value: &Value,
) -> Result<Access, LoadFault>
    ensures { ReadsPart (λ a. a) result (parts.access_at names.now (path_of place.now) (view value.now)) }
{
    let master = text_at(alloc, place, "master", value)?;
    let texts = list_if_any(alloc, place, "shadows", value)?;
    few(alloc, &Place::Member(place, "shadows"), MOST_SHADOWS, texts)?;
    let shadows = agents_behind(alloc, names, &Place::Member(place, "shadows"), texts)?;
    let master = agent_of(names, master);
    Ok(Access { master, shadows })
}

/// The reference that an object behind these describes: of which kind it is, to which name, and at which agents. No other of its kind
/// is to that name.
#[tactic(auto, using(crate::proofs::Referring::by_access))]
fn reference_in(
    alloc: Global,
    names: &AgentNames,
    place: &Place<'_>,
    before: &KeyedReferences,
    value: &Value,
) -> Result<(bool, Name, Access), LoadFault>
    ensures read { ReadsPart (λ r. model.with_reference before.now r.0 (record { pin = r.1; access = r.2 })) result (model.reference_behind names.now (path_of place.now) before.now (view value.now)) }
    ensures new { IfOk result (λ r. has_key (model.pin_keys (model.of_kind before.now r.0)) (key_of r.1) ≡ false) }
{
    let members = members_at(alloc, place, value)?;
    let word = text_at(alloc, place, "kind", value)?;
    let Some(cross) = is_cross(word) else {
        return Err(Place::Member(place, "kind").bad_shape(alloc));
    };
    let pin = entry_name_at(alloc, place, "name", value)?;
    if before.has(cross, &pin) {
        drop(pin);
        return Err(Place::Member(place, "name").bad_shape(alloc));
    }
    let access = access_at(alloc, names, place, value)?;
    only(
        alloc,
        place,
        &["kind", "name", "master", "shadows"],
        members,
    )?;
    Ok((cross, pin, access))
}

/// The references with one more, which an object describes.
fn reference_behind(
    alloc: Global,
    names: &AgentNames,
    place: &Place<'_>,
    before: KeyedReferences,
    value: &Value,
) -> Result<KeyedReferences, LoadFault>
    ensures { ReadsPart (λ r. r) result (model.reference_behind names.now (path_of place.now) before (view value.now)) }
{
    match reference_in(alloc, names, place, &before, value) {
        Ok((cross, pin, access)) => {
            let more = before.with(alloc, cross, &pin, access);
            drop(pin);
            let references = more?;
            Ok(references)
        }
        Err(fault) => {
            drop(before);
            Err(fault)
        }
    }
}

/// The references that a list describes, with the keys of their names.
fn keyed_behind(
    alloc: Global,
    names: &AgentNames,
    place: &Place<'_>,
    items: &[Value],
) -> Result<KeyedReferences, LoadFault>
    ensures { ReadsPart (λ r. r) result (model.references_behind names.now (path_of place.now) 0 model.no_references (items_view items.now)) }
{
    let mut references = KeyedReferences::new(alloc);
    for (i, item) in items.iter().enumerate() {
        references = reference_behind(alloc, names, &Place::Item(&*place, i), references, item)?;
    }
    Ok(references)
}

/// The references that a list describes.
pub(crate) fn references_behind(
    alloc: Global,
    names: &AgentNames,
    place: &Place<'_>,
    items: &[Value],
) -> Result<References, LoadFault>
    ensures { ReadsPart (λ r. r) result (model.references_behind names.now (path_of place.now) 0 model.no_references (items_view items.now)) }
{
    let keyed = keyed_behind(alloc, names, place, items)?;
    Ok(keyed.into_references())
}
