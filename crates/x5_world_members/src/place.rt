//! Places in a file, and faults there.

ghost use Rattle.std.specs.Char.{encode_utf8};
ghost use Rattle.std.specs.Prelude.{◌≡◌, ◌++◌, IfOk, OnOk, Err, string_bytes};
ghost use Rattle.x5_model_tree.specs.World.{World};
ghost use Rattle.x5_world_members.specs.Paths.{path_of};
ghost use Rattle.x5_model_text.specs.ValueText as value_text;
ghost use Rattle.x5_model_world.specs.Reading as model;
ghost use Rattle.x5_world_members.specs.Views.{Fails};

use crate::fault::LoadFault;
use std::alloc::{AllocError, Global};
use x5_syntax::{NoMemory, Text, escape};

/// A place in a file: the whole, a member of an object, or a member of a list.
#[derive(Clone, Copy)]
pub enum Place<'a> {
    Whole,
    Member(&'a Place<'a>, &'static str),
    Item(&'a Place<'a>, usize),
}

/// The path of a member of the object at the path.
fn member_path(alloc: Global, object: &str, name: &str) -> Result<String, AllocError>
    ensures { IfOk result (λ s. string_bytes s ≡ model.at object.now name.now) }
{
    format!(in alloc; "{object}/{name}")
}

/// Whether no path shows the character as it is: a control character, or a backslash.
fn is_hidden(c: char) -> bool
    ensures { result ≡ model.is_hidden c }
{
    let number = c as u32;
    number < 32 || number == 127 || number == 92
}

/// The text of a character that no path shows as it is.
fn hidden_text(alloc: Global, c: char) -> Result<Text, NoMemory>
    ensures { IfOk result (λ text. text ≡ value_text.escaped (encode_utf8 c)) }
{
    let mut octets = [0; 4];
    escape(alloc, c.encode_utf8(&mut octets))
}

/// Adds a character as a path shows it.
fn push_shown(alloc: Global, text: &mut String, c: char) -> Result<(), NoMemory>
    ensures { OnOk result (string_bytes text.new ≡ string_bytes text.old ++ model.shown_char c) }
{
    if !is_hidden(c) {
        return Ok(text.push(c)?);
    }
    let hidden = hidden_text(alloc, c)?;
    Ok(text.push_str(hidden.as_str())?)
}

/// Adds a character of a member's name as it stands in a path.
fn push_escaped(alloc: Global, text: &mut String, c: char) -> Result<(), NoMemory>
    ensures { OnOk result (string_bytes text.new ≡ string_bytes text.old ++ model.escaped_char c) }
{
    match c {
        '~' => Ok(text.push_str("~0")?),
        '/' => Ok(text.push_str("~1")?),
        _ => push_shown(alloc, text, c),
    }
}

/// A member's name as it stands in a path.
fn escaped(alloc: Global, name: &str) -> Result<String, NoMemory>
    ensures { IfOk result (λ s. string_bytes s ≡ model.escaped name.now) }
{
    let mut text = String::new(alloc);
    for c in name.chars() {
        push_escaped(alloc, &mut text, c)?;
    }
    Ok(text)
}

/// The path of the member at a place of the list at the path.
fn item_path(alloc: Global, list: &str, place: usize) -> Result<String, AllocError>
    ensures { IfOk result (λ s. string_bytes s ≡ model.nth list.now place) }
{
    format!(in alloc; "{list}/{place}")
}

impl<'a> Place<'a> {
    /// Its path.
    pub(crate) fn path(&self, alloc: Global) -> Result<String, AllocError>
        ensures { IfOk result (λ s. string_bytes s ≡ path_of self.now) }
    {
        match self {
            Place::Whole => Ok(String::new(alloc)),
            Place::Member(object, name) => {
                let before = object.path(alloc)?;
                member_path(alloc, before.as_str(), name)
            }
            Place::Item(list, place) => {
                let before = list.path(alloc)?;
                item_path(alloc, before.as_str(), *place)
            }
        }
    }

    /// What stands there isn't what must stand there.
    pub fn bad_shape(&self, alloc: Global) -> LoadFault
        ensures { Fails {X = World} result (Err (model.BadShape (path_of self.now))) }
    {
        match self.path(alloc) {
            Ok(path) => LoadFault::BadShape(Text::from_string(path)),
            Err(_) => LoadFault::NoMemory,
        }
    }

    /// The text there is no name.
    pub fn bad_name(&self, alloc: Global) -> LoadFault
        ensures { Fails {X = World} result (Err (model.BadName (path_of self.now))) }
    {
        match self.path(alloc) {
            Ok(path) => LoadFault::BadName(Text::from_string(path)),
            Err(_) => LoadFault::NoMemory,
        }
    }

    /// The agent whose name stands there has the name of one before it.
    pub fn repeated_agent(&self, alloc: Global) -> LoadFault
        ensures { Fails {X = World} result (Err (model.RepeatedAgent (path_of self.now))) }
    {
        match self.path(alloc) {
            Ok(path) => LoadFault::RepeatedAgent(Text::from_string(path)),
            Err(_) => LoadFault::NoMemory,
        }
    }

    /// The name there is no agent's.
    pub fn unknown_agent(&self, alloc: Global) -> LoadFault
        ensures { Fails {X = World} result (Err (model.UnknownAgent (path_of self.now))) }
    {
        match self.path(alloc) {
            Ok(path) => LoadFault::UnknownAgent(Text::from_string(path)),
            Err(_) => LoadFault::NoMemory,
        }
    }

    /// More stands there than the limit.
    pub fn over_limit(&self, alloc: Global, most: u32) -> LoadFault
        ensures { Fails {X = World} result (Err (model.OverLimit (path_of self.now) most)) }
    {
        match self.path(alloc) {
            Ok(path) => LoadFault::OverLimit(Text::from_string(path), most),
            Err(_) => LoadFault::NoMemory,
        }
    }

    /// The object there has a member of a name that it may not have.
    pub(crate) fn unlisted(&self, alloc: Global, name: &str) -> LoadFault
        ensures { Fails {X = World} result (Err (model.BadShape (model.at (path_of self.now) (model.escaped name.now)))) }
    {
        match self.unlisted_path(alloc, name) {
            Ok(path) => LoadFault::BadShape(Text::from_string(path)),
            Err(_) => LoadFault::NoMemory,
        }
    }

    /// The path of a member of any name.
    fn unlisted_path(&self, alloc: Global, name: &str) -> Result<String, NoMemory>
        ensures { IfOk result (λ s. string_bytes s ≡ model.at (path_of self.now) (model.escaped name.now)) }
    {
        let object = self.path(alloc)?;
        let name = escaped(alloc, name)?;
        Ok(member_path(alloc, object.as_str(), name.as_str())?)
    }
}
