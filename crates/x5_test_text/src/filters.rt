//! What filters as text say of an entry, and the limits of their values.
use std::alloc::Global;
use std::test::Fail;
use x5_match::{
    Entry, Filter, FilterFault, Stored, StoredList, StoredValue, StoredValueList, Truth, holds,
};
use x5_syntax::{Normal, TypeId, TypeRef, Value, normal};

/// The value that a text spells for the type.
fn value_of(alloc: Global, kind: TypeId, text: &str) -> Result<Value, Fail> {
    let kind = TypeRef::Known(kind);
    let value = Value::from_text(alloc, &kind, text);
    drop(kind);
    Ok(value?)
}

fn normal_of(alloc: Global, kind: TypeId, value: &Value) -> Result<Normal, Fail> {
    Ok(normal(alloc, kind, value)?)
}

/// A value of the type, as it is stored.
fn stored(alloc: Global, kind: TypeId, text: &str) -> Result<StoredValue, Fail> {
    let value = value_of(alloc, kind, text)?;
    match normal_of(alloc, kind, &value) {
        Ok(normal) => Ok(StoredValue { value, normal }),
        Err(fault) => {
            drop(value);
            Err(fault)
        }
    }
}

/// An entry with one value.
fn entry_of(alloc: Global, kind: TypeId, value: StoredValue) -> Result<Entry, Fail> {
    let values = StoredValueList::from_vec(vec![in alloc; value]?);
    let attributes = vec![in alloc; Stored { kind, values }]?;
    Ok(Entry::from_list(StoredList::from_vec(attributes)))
}

/// The same, of its type's number and the value's text.
fn entry_with(alloc: Global, number: u8, text: &str) -> Result<Entry, Fail> {
    let kind = TypeId::new(number).ok_or("no type")?;
    entry_of(alloc, kind, stored(alloc, kind, text)?)
}

/// What the filter that a text spells says of the entry.
fn truth_of(alloc: Global, filter: &str, entry: &Entry) -> Result<Truth, Fail> {
    let filter = Filter::parse(alloc, filter)?;
    let truth = holds(&filter, entry);
    drop(filter);
    Ok(truth)
}

#[test]
fn filters_as_text_hold_of_a_unit(rt: HostRuntime) -> Result<(), Fail> {
    let alloc = rt.alloc();
    let entry = entry_with(alloc, 11, "Sh(o)* p")?;
    for (filter, expected) in [
        ("(!(1.2.3=x))", Truth::Undefined),
        ("(OU=s*)", Truth::True),
        ("(&)", Truth::True),
        ("(|)", Truth::False),
        ("(OU=*)", Truth::True),
        ("(CN=*)", Truth::False),
        ("(1.2.3=*)", Truth::Undefined),
        ("(ou=SH\\28O\\29\\2a\\20P)", Truth::True),
        ("(2.5.4.11=sh\\28o\\29\\2a\\20\\20p)", Truth::True),
        ("(OU~=sh\\28o\\29\\2a\\20p)", Truth::True),
        ("(OU>=sho)", Truth::False),
        ("(OU<=sho)", Truth::True),
        ("(objectClass>=2.5.6.6)", Truth::Undefined),
        ("(userPassword=61*)", Truth::Undefined),
        ("(OU=*h**p)", Truth::True),
        ("(OU=*p*h*)", Truth::False),
        ("(OU=*\\2A*p)", Truth::True),
        ("(OU=*\\2a\\2a*)", Truth::False),
        ("(OU=\\73*)", Truth::True),
        ("(&(OU=s*)(!(CN=a)))", Truth::True),
        ("(|(CN=a)(1.2.3=x))", Truth::Undefined),
        ("(|(CN=a)(1.2.3=x)(OU=sh*))", Truth::True),
    ] {
        assert_eq!(rt; truth_of(alloc, filter, &entry)?, expected, "{filter}");
    }
    Ok(())
}

/// The fault of a filter with a value of so many octets behind the sign.
fn fault_of(alloc: Global, octets: usize, sign: &str) -> Result<Option<FilterFault>, Fail> {
    let mut text = String::from_str(alloc, "(CN")?;
    text.push_str(sign)?;
    for _ in 0..octets {
        text.push('x')?;
    }
    text.push(')')?;
    Ok(Filter::parse(alloc, &text).err())
}

#[test]
fn values_of_filters_have_1024_octets_at_most(rt: HostRuntime) -> Result<(), Fail> {
    let alloc = rt.alloc();
    for (octets, sign, place) in [
        (1024, "=", None),
        (1025, "=", Some(4)),
        (1024, ">=", None),
        (1025, ">=", Some(5)),
        (1024, "=*", None),
        (1025, "=*", Some(5)),
    ] {
        let fault = place.map(FilterFault::Bad);
        assert_eq!(rt; fault_of(alloc, octets, sign)?, fault, "{octets} {sign}");
    }
    Ok(())
}
