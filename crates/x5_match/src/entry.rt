//! Entries: attributes with their values (X.501, section 8).

ghost use Rattle.std.specs.Prelude.{◌≡◌, ◌++◌, ◌∷◌, [], IfOk, OnOk, OnErr, IsTrue};
ghost use Rattle.std.specs.Option.{option_copied};
ghost use Rattle.x5_model.specs.Attributes as model;

use std::alloc::{AllocError, Global};
use std::marker::Model;
use std::rc::Rc;
use x5_syntax::{NoMemory, Normal, TypeId, Value};

/// A value with its normal form for its type.
#[derive(Drop)]
pub struct StoredValue {
    pub value: Value,
    pub normal: Normal,
}

impl Model for StoredValue {
    ghost use Rattle.x5_model.specs.Values as values;
    ghost use Rattle.x5_syntax.specs.ValueView.{value_view};

    ghost Value = { values.StoredValue };

    ghost view = { λ v. record { value = value_view v.value; normal = v.normal } };
}

/// Values of one type, in the order of their normal forms.
#[derive(Drop)]
pub struct StoredValueList {
    values: Vec<StoredValue>,
}

impl Model for StoredValueList {
    ghost use Rattle.std.specs.Prelude.{List};
    ghost use Rattle.x5_model.specs.Values as model;

    ghost Value = { List model.StoredValue };

    ghost view = { λ l. l.values.items };
}

impl StoredValueList {
    /// The empty list. No memory.
    pub fn new(alloc: Global) -> StoredValueList
        ensures { result ≡ [] }
    {
        StoredValueList {
            values: Vec::new(alloc),
        }
    }

    /// The list of the vector's members. No memory.
    pub fn from_vec(values: Vec<StoredValue>) -> StoredValueList
        ensures { result ≡ values.items }
    {
        StoredValueList { values }
    }

    /// Its members. No memory.
    pub fn as_slice(&self) -> &[StoredValue]
        ensures { result.now ≡ self.now }
    {
        self.values.as_slice()
    }

    /// Adds a member at the end.
    pub fn push(&mut self, value: StoredValue) -> Result<(), NoMemory>
        ensures ok { OnOk result (self.new ≡ self.old ++ value ∷ []) }
        ensures err { OnErr result (self.new ≡ self.old) }
    {
        self.values.push(value)?;
        Ok(())
    }
}

/// An attribute of an entry: its type, and its values in the order of their normal forms.
#[derive(Drop)]
pub struct Stored {
    pub kind: TypeId,
    pub values: StoredValueList,
}

impl Model for Stored {
    ghost use Rattle.x5_model.specs.Entries as entries;

    ghost Value = { entries.Stored };

    ghost view = { λ a. record { kind = a.kind; values = a.values } };
}

/// The attributes of one list alone, or those that it shares with its copies.
#[derive(Drop)]
enum Held {
    Own(Vec<Stored>),
    Shared(Rc<Vec<Stored>>),
}

/// Attributes of an entry, in the order of their types' numbers.
#[derive(Drop)]
pub struct StoredList {
    attributes: Held,
}

impl Model for StoredList {
    ghost use Rattle.std.specs.Prelude.{List};
    ghost use Rattle.x5_model.specs.Entries as entries;
    ghost use Rattle.x5_match.specs.HeldView.{held_view};

    ghost Value = { List entries.Stored };

    ghost view = { λ l. held_view l.attributes };
}

impl StoredList {
    /// The list of the vector's members. No memory.
    pub fn from_vec(attributes: Vec<Stored>) -> StoredList
        ensures { result ≡ attributes.items }
    {
        StoredList {
            attributes: Held::Own(attributes),
        }
    }

    /// Its members as a vector: copies of them where other lists share them.
    pub fn into_vec(self) -> Result<Vec<Stored>, NoMemory>
        ensures { IfOk result (λ v. v.items ≡ self) }
    {
        let StoredList { attributes } = self;
        match attributes {
            Held::Own(attributes) => Ok(attributes),
            Held::Shared(attributes) => Ok(Rc::unwrap_or_clone(attributes)?),
        }
    }

    /// The same list, whose copies share its members.
    pub fn shared(self, alloc: Global) -> Result<StoredList, NoMemory>
        ensures { IfOk result (λ l. l ≡ self) }
    {
        let StoredList { attributes } = self;
        let attributes = match attributes {
            Held::Own(attributes) => Rc::new(alloc, attributes)?,
            Held::Shared(attributes) => attributes,
        };
        Ok(StoredList {
            attributes: Held::Shared(attributes),
        })
    }

    /// The empty list. No memory.
    pub fn new(alloc: Global) -> StoredList
        ensures { result ≡ [] }
    {
        StoredList::from_vec(Vec::new(alloc))
    }

    /// Its members. No memory.
    pub fn as_slice(&self) -> &[Stored]
        ensures { result.now ≡ self.now }
    {
        match &self.attributes {
            Held::Own(attributes) => attributes.as_slice(),
            Held::Shared(attributes) => attributes.as_ref().as_slice(),
        }
    }
}

/// An entry. Its attributes stand in the order of their types' numbers, each type once and with one value at least;
/// the values of a type are distinct by equality and stand in the order of their normal forms.
#[derive(Drop)]
pub struct Entry {
    pub attributes: StoredList,
}

impl Model for Entry {
    ghost use Rattle.std.specs.Prelude.{IsTrue};
    ghost use Rattle.x5_model.specs.Entries as entries;
    ghost use Rattle.x5_model.specs.Attributes.{is_ordered};

    ghost Value = { entries.Entry };

    ghost view = { λ e. record { attributes = e.attributes } };

    ghost invariant = { λ e. IsTrue (is_ordered (record { attributes = e.attributes })) };
}

impl Entry {
    /// An entry without attributes. No memory.
    pub fn new(alloc: Global) -> Entry
        ensures { result.attributes ≡ [] }
    {
        Entry {
            attributes: StoredList::new(alloc),
        }
    }

    /// The entry of the attributes, which stand in their order. No memory.
    pub fn from_list(attributes: StoredList) -> Entry
        requires { IsTrue (model.is_ordered (record { attributes = attributes })) }
        ensures { result.attributes ≡ attributes }
    {
        Entry { attributes }
    }

    /// The same entry, whose copies share its attributes. For entries that live long and are copied often, as those of a context
    /// are at each total refresh: a copy of them takes no memory.
    pub fn shared(self, alloc: Global) -> Result<Entry, NoMemory>
        ensures { IfOk result (λ e. e ≡ self) }
    {
        let Entry { attributes } = self;
        Ok(Entry {
            attributes: attributes.shared(alloc)?,
        })
    }

    /// Its attributes. No memory.
    pub fn attributes(&self) -> &[Stored]
        ensures same { result.now ≡ self.now.attributes }
        ensures ordered { IsTrue (model.is_ordered self.now) }
    {
        self.attributes.as_slice()
    }

    /// The attribute of the type, if the entry has it. No memory.
    pub fn attribute(&self, kind: TypeId) -> Option<&Stored>
        ensures { option_copied result ≡ model.attribute_at self.now kind }
    {
        let attributes = self.attributes.as_slice();
        attributes
            .iter()
            .find(|attribute| attribute.kind.number() == kind.number())
    }

    /// The values of the type; none where the entry lacks it. No memory.
    pub fn values(&self, kind: TypeId) -> &[StoredValue]
        ensures { result.now ≡ model.values_at self.now kind }
    {
        match self.attribute(kind) {
            Some(attribute) => attribute.values.as_slice(),
            None => &[],
        }
    }

    /// Whether the entry has the type. No memory.
    pub fn is_present(&self, kind: TypeId) -> bool
        ensures { result ≡ model.is_present self.now kind }
    {
        self.attribute(kind).is_some()
    }

    /// Whether the entry has a value that is equal to one of this normal form. No memory.
    pub fn has_value(&self, kind: TypeId, normal: &Normal) -> bool
        ensures { result ≡ model.has_value self.now kind normal.now }
    {
        has_normal(normal, self.values(kind))
    }
}

/// Whether one of the values has the normal form.
fn has_normal(normal: &Normal, values: &[StoredValue]) -> bool
    ensures { result ≡ model.has_normal normal.now values.now }
{
    values
        .iter()
        .any(|value| value.normal.as_slice() == normal.as_slice())
}

impl Clone for StoredValue {
    ghost is_clone = { λ a b. b ≡ a };

    fn clone(&self) -> Result<StoredValue, AllocError> {
        Ok(StoredValue {
            value: self.value.clone()?,
            normal: self.normal.clone()?,
        })
    }
}

impl Clone for StoredValueList {
    ghost is_clone = { λ a b. b ≡ a };

    fn clone(&self) -> Result<StoredValueList, AllocError> {
        Ok(StoredValueList {
            values: self.values.clone()?,
        })
    }
}

impl Clone for Stored {
    ghost is_clone = { λ a b. b ≡ a };

    fn clone(&self) -> Result<Stored, AllocError> {
        Ok(Stored {
            kind: self.kind,
            values: self.values.clone()?,
        })
    }
}

impl Clone for StoredList {
    ghost is_clone = { λ a b. b ≡ a };

    fn clone(&self) -> Result<StoredList, AllocError> {
        let attributes = match &self.attributes {
            Held::Own(attributes) => Held::Own(attributes.clone()?),
            Held::Shared(attributes) => Held::Shared(attributes.clone()?),
        };
        Ok(StoredList { attributes })
    }
}

impl Clone for Entry {
    ghost is_clone = { λ a b. b ≡ a };

    fn clone(&self) -> Result<Entry, AllocError> {
        Ok(Entry {
            attributes: self.attributes.clone()?,
        })
    }
}
