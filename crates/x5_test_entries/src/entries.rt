//! Ten entries below one, added in three orders, then removed, renamed and added again: they stand in the order of keys each time.

use std::alloc::Global;
use std::test::Fail;
use x5_dse::{DseFault, DseTree, NodeId};
use x5_match::Entry;
use x5_names::{Name, Rdn};

fn name(alloc: Global, text: &str) -> Result<Name, Fail> {
    Ok(Name::parse(alloc, text)?)
}

/// Adds an entry of the name, if that isn't refused.
fn add(tree: &mut DseTree, alloc: Global, text: &str) -> Result<bool, Fail> {
    tree.reserve(1)?;
    let name = name(alloc, text)?;
    Ok(tree.insert(name, Entry::new(alloc)).is_ok())
}

/// Whether a change was taken; the entry that stood there before is dropped.
fn is_taken(before: Result<Entry, DseFault>) -> bool {
    let taken = before.is_ok();
    drop(before);
    taken
}

/// Removes the entry of the name, if that isn't refused.
fn remove(tree: &mut DseTree, alloc: Global, text: &str) -> Result<bool, Fail> {
    let named = name(alloc, text)?;
    let Some(node) = tree.find(&named) else {
        drop(named);
        return Ok(false);
    };
    drop(named);
    if node == tree.top() {
        return Ok(false);
    }
    Ok(is_taken(tree.remove(node)))
}

/// Gives the entry of the name another RDN, if that isn't refused.
fn rename(tree: &mut DseTree, alloc: Global, text: &str, rdn: &str) -> Result<bool, Fail> {
    let named = name(alloc, text)?;
    let Some(node) = tree.find(&named) else {
        drop(named);
        return Ok(false);
    };
    drop(named);
    if node == tree.top() {
        return Ok(false);
    }
    let rdn = Rdn::parse(alloc, rdn)?;
    Ok(is_taken(tree.rename(node, rdn, Entry::new(alloc))))
}

/// The node of the name, if it's there.
fn found(tree: &DseTree, alloc: Global, text: &str) -> Result<Option<NodeId>, Fail> {
    let named = name(alloc, text)?;
    let node = tree.find(&named);
    drop(named);
    Ok(node)
}

/// The node with the letter as its common name, if it's there.
fn found_below(
    tree: &DseTree,
    alloc: Global,
    above: &str,
    letter: char,
) -> Result<Option<NodeId>, Fail> {
    let text = format!(in alloc; "{above}/CN={letter}")?;
    found(tree, alloc, text.as_str())
}

/// Whether just these letters are the common names below the name, in this order.
fn stand(tree: &DseTree, alloc: Global, above: &str, letters: &str) -> Result<bool, Fail> {
    let named = name(alloc, above)?;
    let Some(node) = tree.find(&named) else {
        drop(named);
        return Ok(false);
    };
    drop(named);
    let mut children = tree.children(node);
    for letter in letters.chars() {
        let expected = found_below(tree, alloc, above, letter)?;
        if expected.is_none() || children.next() != expected {
            return Ok(false);
        }
    }
    Ok(children.next().is_none())
}

/// Adds an entry for each letter, in this order.
fn grow(tree: &mut DseTree, alloc: Global, letters: &str) -> Result<(), Fail> {
    for letter in letters.chars() {
        let text = format!(in alloc; "/C=NL/CN={letter}")?;
        let _ = add(tree, alloc, text.as_str())?;
    }
    Ok(())
}

/// A tree with ten entries, added in this order.
fn ten(alloc: Global, letters: &str) -> Result<DseTree, Fail> {
    let mut tree = DseTree::new(alloc, name(alloc, "/C=NL")?, Entry::new(alloc))?;
    match grow(&mut tree, alloc, letters) {
        Ok(()) => Ok(tree),
        Err(fault) => {
            drop(tree);
            Err(fault)
        }
    }
}

/// Takes a step: adds, removes or renames.
fn take(tree: &mut DseTree, alloc: Global, step: &str, text: &str) -> Result<bool, Fail> {
    match step {
        "add" => add(tree, alloc, text),
        "remove" => remove(tree, alloc, text),
        rdn => rename(tree, alloc, text, rdn),
    }
}

/// Whether each step is taken or refused as it should, and leaves these letters.
fn all_as_they_should(tree: &mut DseTree, alloc: Global) -> Result<bool, Fail> {
    for (step, text, done, letters) in [
        ("remove", "/C=NL/CN=b", true, "acdefghij"),
        ("remove", "/C=nl/CN=D", true, "acefghij"),
        ("remove", "/C=NL/CN=f", true, "aceghij"),
        ("remove", "/C=NL/CN=h", true, "acegij"),
        ("remove", "/C=NL/CN=j", true, "acegi"),
        ("add", "/C=NL/CN=c/CN=x", true, "acegi"),
        ("CN=z", "/C=NL/CN=c", true, "aegiz"),
        ("remove", "/C=NL/CN=z", false, "aegiz"),
        ("CN=Z", "/C=NL/CN=a", false, "aegiz"),
        ("add", "/C=NL/CN=c/CN=x", false, "aegiz"),
        ("add", "/C=NL/CN=h", true, "aeghiz"),
        ("add", "/C=NL/CN=c", true, "aceghiz"),
        ("CN=x", "/C=NL/CN=Z/CN=X", true, "aceghiz"),
    ] {
        if take(tree, alloc, step, text)? != done || !stand(tree, alloc, "/C=NL", letters)? {
            return Ok(false);
        }
    }
    Ok(true)
}

/// Whether a walk from the name comes to just these entries, in this order.
fn walks(tree: &DseTree, alloc: Global, from: &str, texts: &[&str]) -> Result<bool, Fail> {
    let named = name(alloc, from)?;
    let Some(node) = tree.find(&named) else {
        drop(named);
        return Ok(false);
    };
    drop(named);
    let mut walk = tree.walk(node);
    for text in texts {
        let expected = found(tree, alloc, text)?;
        if expected.is_none() || walk.next() != expected {
            return Ok(false);
        }
    }
    Ok(walk.next().is_none())
}

/// Whether the tree takes three entries more, and walks come to them all.
fn all_are_walked_to(tree: &mut DseTree, alloc: Global) -> Result<bool, Fail> {
    for text in ["/C=NL/CN=b/CN=y", "/C=NL/CN=b/CN=x", "/C=NL/CN=b/CN=x/CN=z"] {
        if !add(tree, alloc, text)? {
            return Ok(false);
        }
    }
    let below: &[&str] = &[
        "/C=NL/CN=b",
        "/C=NL/CN=b/CN=x",
        "/C=NL/CN=b/CN=x/CN=z",
        "/C=NL/CN=b/CN=y",
    ];
    let last: &[&str] = &["/C=NL/CN=c"];
    Ok(walks(tree, alloc, "/C=NL/CN=B", below)? && walks(tree, alloc, "/C=NL/CN=c", last)?)
}

#[test]
fn a_walk_comes_to_all_below(rt: HostRuntime) -> Result<(), Fail> {
    let mut tree = ten(rt.alloc(), "cba")?;
    let walked = all_are_walked_to(&mut tree, rt.alloc());
    drop(tree);
    assert!(rt; walked?);
    Ok(())
}

/// Whether ten entries, added in this order, stand in the order of keys, and still do after each step.
fn all_stand(tree: &mut DseTree, alloc: Global) -> Result<bool, Fail> {
    Ok(
        stand(tree, alloc, "/C=NL", "abcdefghij")?
            && all_as_they_should(tree, alloc)?
            && stand(tree, alloc, "/C=NL/CN=Z", "x")?,
    )
}

#[test]
fn children_stand_in_order(rt: HostRuntime) -> Result<(), Fail> {
    for letters in ["abcdefghij", "jihgfedcba", "cjafbigdhe"] {
        let mut tree = ten(rt.alloc(), letters)?;
        let standing = all_stand(&mut tree, rt.alloc());
        drop(tree);
        assert!(rt; standing?, "{letters}");
    }
    Ok(())
}
