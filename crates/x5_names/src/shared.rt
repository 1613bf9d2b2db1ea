//! The RDNs of a name, which its copies and their keys share.

ghost use Rattle.std.specs.Prelude.{◌≡◌, ◌≤◌, [], length, take, IfOk};

use crate::spelled::Rdn;
use std::alloc::{AllocError, Global};
use std::marker::Model;
use std::rc::Rc;
use x5_syntax::NoMemory;

/// The RDNs of a name from the root; where there are none, no memory is taken.
#[derive(Drop)]
pub(crate) struct Rdns {
    list: Option<Rc<Vec<Rdn>>>,
}

impl Model for Rdns {
    ghost use Rattle.std.specs.Prelude.{[], option_map, unwrap_or};
    ghost use Rattle.x5_model.specs.Values as values;

    ghost Value = { values.Name };

    ghost view = { λ r. unwrap_or (option_map (λ list. list.value.items) r.list) [] };
}

impl Rdns {
    /// No RDNs. No memory.
    pub(crate) fn none() -> Rdns
        ensures { result ≡ [] }
    {
        Rdns { list: None }
    }

    /// These RDNs.
    pub(crate) fn new(alloc: Global, rdns: Vec<Rdn>) -> Result<Rdns, NoMemory>
        ensures { IfOk result (λ shared. shared ≡ rdns.items) }
    {
        let list = Rc::new(alloc, rdns)?;
        Ok(Rdns { list: Some(list) })
    }

    /// The first RDNs.
    pub(crate) fn first(&self, alloc: Global, count: usize) -> Result<Rdns, NoMemory>
        requires { count ≤ length self.now }
        ensures { IfOk result (λ shared. shared ≡ take count self.now) }
    {
        let rdns = Vec::from_clones(alloc, &self.as_slice()[..count])?;
        Rdns::new(alloc, rdns)
    }

    /// The RDNs. No memory.
    pub(crate) fn as_slice(&self) -> &[Rdn]
        ensures { result.now ≡ self.now }
    {
        match &self.list {
            Some(list) => list.as_slice(),
            None => &[],
        }
    }
}

impl Clone for Rdns {
    ghost is_clone = { λ a b. b ≡ a };

    fn clone(&self) -> Result<Rdns, AllocError> {
        Ok(Rdns {
            list: self.list.clone()?,
        })
    }
}
