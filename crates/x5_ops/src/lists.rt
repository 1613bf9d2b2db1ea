//! Lists, which contracts see as the lists of their members.

ghost use Rattle.std.specs.Prelude.{◌≡◌, [], ◌∷◌, ◌++◌, length, OnOk, OnErr};
ghost use Rattle.std.specs.List.{AllZip};

use std::alloc::{AllocError, Global};
use std::marker::Model;
use x5_memory::NoMemory;

/// Members in their order.
#[derive(Drop)]
pub struct Listed<T> {
    members: Vec<T>,
}

impl<T> Model for Listed<T> {
    ghost use Rattle.std.specs.Prelude.{List};

    ghost Value = { List T };

    ghost view = { λ l. l.members.items };
}

impl<T> Listed<T> {
    /// The list without members. No memory.
    pub fn new(alloc: Global) -> Listed<T>
        ensures { result ≡ [] }
    {
        Listed {
            members: Vec::new(alloc),
        }
    }

    /// The list of the vector's members. No memory.
    pub fn from_vec(members: Vec<T>) -> Listed<T>
        ensures { result ≡ members.items }
    {
        Listed { members }
    }

    /// The members as a vector. No memory.
    pub fn into_vec(self) -> Vec<T>
        ensures { result.items ≡ self }
    {
        let Listed { members } = self;
        members
    }

    /// The members as a slice. No memory.
    pub fn as_slice(&self) -> &[T]
        ensures { result.now ≡ self.now }
    {
        self.members.as_slice()
    }

    /// How many members there are. No memory.
    pub fn len(&self) -> usize
        ensures { result ≡ length self.now }
    {
        self.members.len()
    }
}

impl<T: Drop> Listed<T> {
    /// Adds a member at the end. After want of memory the list is as it was.
    pub fn push(&mut self, member: T) -> Result<(), NoMemory>
        ensures ok { OnOk result (self.new ≡ self.old ++ member ∷ []) }
        ensures err { OnErr result (self.new ≡ self.old) }
    {
        self.members.push(member)?;
        Ok(())
    }
}

impl<T: Clone> Clone for Listed<T> {
    ghost is_clone = { λ a b. AllZip T.is_clone a b };

    fn clone(&self) -> Result<Listed<T>, AllocError> {
        Ok(Listed {
            members: self.members.clone()?,
        })
    }
}
