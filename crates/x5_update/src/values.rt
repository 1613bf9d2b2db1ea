//! The parts of updates: refusals, names and what entries get.

ghost use Rattle.std.specs.Prelude.{◌≡◌, ◌++◌, ◌∷◌, [], None, Err, IfOk};
ghost use Rattle.x5_model.specs.Answers.{UpdateProblem};
ghost use Rattle.x5_model.specs.Changes as changes;
ghost use Rattle.x5_model.specs.Values.{last_rdn, name_above};
ghost use Rattle.x5_ops.specs.ChangeView.{IsModified};
ghost use Rattle.x5_update.specs.Judging.{IsStopped};

use std::alloc::Global;
use x5_match::Entry;
use x5_memory::NoMemory;
use x5_names::{Name, Rdn};
use x5_ops::{ChangeFault, DirError, attribute_problem, doubled, with_rdn, without_rdn};
use x5_syntax::TypeRef;

/// A problem of an update, by its number. No memory.
pub(crate) fn refused(problem: u8) -> ChangeFault
    ensures { IsStopped result (Err (UpdateProblem problem)) }
{
    ChangeFault::Refused(DirError::Update { problem })
}

/// The last RDN of the name; of the root it's empty.
pub(crate) fn last_of(alloc: Global, name: &Name) -> Result<Rdn, NoMemory>
    ensures { IfOk result (λ rdn. rdn ≡ last_rdn name.now) }
{
    match name.last() {
        Some(rdn) => Ok(rdn.clone()?),
        None => Ok(Rdn::new(alloc, Vec::new(alloc))?),
    }
}

/// A copy of the attributes.
pub(crate) fn copied(entry: &Entry) -> Result<Entry, NoMemory>
    ensures { IfOk result (λ e. e ≡ entry.now) }
{
    Ok(entry.clone()?)
}

/// A copy of the name.
pub(crate) fn copied_name(name: &Name) -> Result<Name, NoMemory>
    ensures { IfOk result (λ n. n ≡ name.now) }
{
    Ok(name.clone()?)
}

/// A copy of the RDN.
pub(crate) fn copied_rdn(rdn: &Rdn) -> Result<Rdn, NoMemory>
    ensures { IfOk result (λ r. r ≡ rdn.now) }
{
    Ok(rdn.clone()?)
}

/// What a modifyDN makes of the entry's attributes (X.511, section 11.4), or the refusal of the single-valued type that it doubles.
pub(crate) fn renamed(
    alloc: Global,
    entry: &Entry,
    old: &Rdn,
    rdn: &Rdn,
    drop_old: bool,
) -> Result<Entry, ChangeFault>
    ensures { IsModified result (changes.single_valued (changes.renamed old.now rdn.now drop_old entry.now)) }
{
    let entry = copied(entry)?;
    let entry = if drop_old {
        without_rdn(alloc, entry, old, rdn)?
    } else {
        entry
    };
    let entry = with_rdn(alloc, entry, rdn)?;
    match doubled(&entry) {
        None => Ok(entry.shared(alloc)?),
        Some(kind) => {
            drop(entry);
            Err(ChangeFault::Refused(DirError::Attribute {
                problem: attribute_problem::CONSTRAINT_VIOLATION,
                kind: TypeRef::Known(kind),
            }))
        }
    }
}

/// The name with another last RDN.
pub(crate) fn new_name(alloc: Global, object: &Name, rdn: &Rdn) -> Result<Name, NoMemory>
    ensures { IfOk result (λ name. name ≡ name_above object.now ++ rdn.now ∷ []) }
{
    object.parent(alloc)?.below(alloc, rdn)
}
