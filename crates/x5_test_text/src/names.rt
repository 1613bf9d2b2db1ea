//! Names compared by their keys, and each call once with ample memory.
use std::alloc::Global;
use std::cmp::Ordering;
use std::test::Fail;
use x5_names::{KnownName, Name, Rdn};
use x5_syntax::{Text, TypeRef};

fn name(alloc: Global, text: &str) -> Result<Name, Fail> {
    Ok(Name::parse(alloc, text)?)
}

fn compared_with(alloc: Global, one: &Name, other: &str) -> Result<(Ordering, bool), Fail> {
    let other = name(alloc, other)?;
    let compared = (one.cmp_key(&other), one.is_same(&other));
    drop(other);
    Ok(compared)
}

/// How the keys of two names lie, and whether they're the same.
fn compared(alloc: Global, one: &str, other: &str) -> Result<(Ordering, bool), Fail> {
    let one = name(alloc, one)?;
    let compared = compared_with(alloc, &one, other);
    drop(one);
    compared
}

#[test]
fn names_are_compared_but_for_spelling(rt: HostRuntime) -> Result<(), Fail> {
    let alloc = rt.alloc();
    for (one, other, wanted) in [
        ("/C=NL", "/c=nl", (Ordering::Equal, true)),
        (
            "/CN=Stra\u{df}e",
            "/2.5.4.3=\\20STRASSE",
            (Ordering::Equal, true),
        ),
        ("/OU=b+CN=a  b", "/CN=A b+ou=B", (Ordering::Equal, true)),
        ("/C=NL", "/C=NL/O=a", (Ordering::Less, false)),
        ("/CN=b", "/SN=a", (Ordering::Less, false)),
        ("/CN=ab", "/CN=a", (Ordering::Greater, false)),
    ] {
        assert_eq!(rt; compared(alloc, one, other)?, wanted, "{one} {other}");
    }
    Ok(())
}

/// The text of a name that nobody looks at again.
fn printed(alloc: Global, name: Name) -> Result<Text, Fail> {
    let text = name.text(alloc);
    drop(name);
    Ok(text?)
}

fn above(alloc: Global, text: &str) -> Result<Name, Fail> {
    let name = name(alloc, text)?;
    let above = name.parent(alloc);
    drop(name);
    Ok(above?)
}

fn top(alloc: Global, text: &str) -> Result<Name, Fail> {
    let name = name(alloc, text)?;
    if name.len() == 0 {
        return Ok(name);
    }
    let top = name.first(alloc, 1);
    drop(name);
    Ok(top?)
}

fn rdn(alloc: Global, text: &str) -> Result<Rdn, Fail> {
    Ok(Rdn::parse(alloc, text)?)
}

fn grow(alloc: Global, name: &mut Name, last: &str) -> Result<(), Fail> {
    name.push(alloc, rdn(alloc, last)?)?;
    Ok(())
}

fn grown(alloc: Global, text: &str, last: &str) -> Result<Name, Fail> {
    let mut name = name(alloc, text)?;
    match grow(alloc, &mut name, last) {
        Ok(()) => Ok(name),
        Err(fault) => {
            drop(name);
            Err(fault)
        }
    }
}

#[test]
fn names_are_taken_apart_and_put_together(rt: HostRuntime) -> Result<(), Fail> {
    let alloc = rt.alloc();
    let found = printed(alloc, above(alloc, "/C=NL/O=Example/CN=a\\2fb")?)?;
    assert_eq!(rt; found.as_str(), "/C=NL/O=Example");
    let found = printed(alloc, top(alloc, "/C=NL/O=Example")?)?;
    assert_eq!(rt; found.as_str(), "/C=NL");
    let found = printed(alloc, grown(alloc, "/C=NL/O=Example", "cn=A\\2fB")?)?;
    assert_eq!(rt; found.as_str(), "/C=NL/O=Example/CN=A\\2fB");
    Ok(())
}

fn printed_behind<'a>(
    alloc: Global,
    known: &mut KnownName<'a>,
    text: &'a str,
) -> Result<Text, Fail> {
    printed(alloc, known.parse(alloc, text)?)
}

#[test]
fn names_in_a_row_are_read(rt: HostRuntime) -> Result<(), Fail> {
    let alloc = rt.alloc();
    let mut known = KnownName::root(alloc);
    for (text, wanted) in [
        ("/", "/"),
        ("/c=NL", "/C=NL"),
        ("/c=NL/o=a", "/C=NL/O=a"),
        ("/c=NL/ou=b+cn=c", "/C=NL/CN=c+OU=b"),
        ("/c=NL/o=a/cn=d\\2fe", "/C=NL/O=a/CN=d\\2fe"),
        ("/c=NL/o=a/cn=f", "/C=NL/O=a/CN=f"),
    ] {
        let found = printed_behind(alloc, &mut known, text)?;
        assert_eq!(rt; found.as_str(), wanted);
    }
    Ok(())
}

fn type_printed(alloc: Global, text: &str) -> Result<Text, Fail> {
    let found = TypeRef::parse(alloc, text)?.ok_or("a type")?;
    let text = found.text(alloc);
    drop(found);
    Ok(text?)
}

fn rdn_printed(alloc: Global, text: &str) -> Result<Text, Fail> {
    let rdn = rdn(alloc, text)?;
    let text = rdn.text(alloc);
    drop(rdn);
    Ok(text?)
}

#[test]
fn types_and_rdns_are_printed(rt: HostRuntime) -> Result<(), Fail> {
    let alloc = rt.alloc();
    for (text, wanted) in [
        ("TELEPHONEnumber", "telephoneNumber"),
        ("2.5.4.3", "CN"),
        ("1.3.6.1", "1.3.6.1"),
    ] {
        let found = type_printed(alloc, text)?;
        assert_eq!(rt; found.as_str(), wanted);
    }
    let found = rdn_printed(alloc, "ou=R & D+2.5.4.3=a\\2fb")?;
    assert_eq!(rt; found.as_str(), "CN=a\\2fb+OU=R\\20&\\20D");
    Ok(())
}
