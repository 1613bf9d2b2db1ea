//! The join of two lists by key: of two members with one key the earlier list's is kept.

ghost use Rattle.std.specs.Prelude.{◌≡◌, not, IfOk, OnOk, filter};
ghost use Rattle.std.specs.List.{list_any};
ghost use Rattle.std.specs.List.Sorted.{ties};
ghost use Rattle.x5_model.specs.Words.{sorted};
ghost use Rattle.x5_model_serve.specs.Answering as model;
ghost use Rattle.x5_merge.specs.Order.{below_by, Rising};

use crate::member::Member;
use x5_memory::NoMemory;

/// Puts members in the order of their keys; those with one key stay in their order. After want of memory they are as they were.
fn put_in_order<T: Member + Drop>(members: &mut Vec<T>) -> Result<(), NoMemory>
    ensures { OnOk result (members.new.items ≡ sorted (below_by T.key) members.old.items) }
{
    members.sort_by(|a, b| a.compare(b))?;
    Ok(())
}

/// Whether one of the members has the key of another.
fn has_key<T: Member>(members: &[T], other: &T) -> bool
    requires { Rising (below_by T.key) members.now }
    ensures { result ≡ list_any (λ m. ties (below_by T.key) m other.now) members.now }
{
    members
        .binary_search_by(|member| member.compare(other))
        .is_ok()
}

/// Drops what has the key of an earlier member.
fn drop_known<T: Member + Drop>(members: &mut Vec<T>, earlier: &[T])
    requires { Rising (below_by T.key) earlier.now }
    ensures { members.new.items ≡ filter (λ y. not (list_any (λ x. ties (below_by T.key) x y) earlier.now)) members.old.items }
{
    members.retain(|member| !has_key(earlier, member));
}

/// The members of both lists in the order of their keys; of two with one key the earlier list's is kept.
pub(crate) fn joined<T: Member + Drop>(earlier: Vec<T>, later: Vec<T>) -> Result<Vec<T>, NoMemory>
    ensures { IfOk result (λ all. all.items ≡ model.joined (below_by T.key) earlier.items later.items) }
{
    let mut all = earlier;
    let mut others = later;
    put_in_order(&mut all)?;
    drop_known(&mut others, &all);
    all.append(&mut others)?;
    put_in_order(&mut all)?;
    Ok(all)
}
