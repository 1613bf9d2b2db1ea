//! Normal forms, whose expected values come from the standards' rules and from python3's `str.casefold()`; and each call once with ample
//! memory.
use std::alloc::Global;
use std::test::Fail;
use x5_syntax::{
    NameValue, Normal, SyntaxFault, Text, TypeId, TypeRef, Value, normal, normal_part,
};

fn type_of(number: u8) -> Result<TypeId, Fail> {
    Ok(TypeId::new(number).ok_or("a type of the table")?)
}

fn value(alloc: Global, text: &str) -> Result<Value, Fail> {
    Ok(Value::Text(Text::new(alloc, text)?))
}

/// The normal form of a text for a type.
fn normal_text(alloc: Global, number: u8, text: &str) -> Result<Normal, Fail> {
    let kind = type_of(number)?;
    let value = value(alloc, text)?;
    let normal = normal(alloc, kind, &value);
    drop(value);
    Ok(normal?)
}

#[test]
fn normal_forms_by_kind(rt: HostRuntime) -> Result<(), Fail> {
    let alloc = rt.alloc();
    for (number, text, wanted) in [
        (3, "Stra\u{df}e", "strasse"),
        (
            3,
            "\u{39c}\u{386}\u{3aa}\u{39f}\u{3a3} \u{3c2}",
            "\u{3bc}\u{3ac}\u{3ca}\u{3bf}\u{3c3} \u{3c3}",
        ),
        (3, "\u{130}stanbul \u{131}", "i\u{307}stanbul \u{131}"),
        (3, "\u{1e9e} \u{fb01}", "ss fi"),
        (3, "  Two   Words ", "two words"),
        (20, "+31 20-555 12 34", "+31205551234"),
        (24, " 204 12 3", "204123"),
        (6, "Nl", "nl"),
    ] {
        let found = normal_text(alloc, number, text)?;
        assert_eq!(rt; found.as_slice(), wanted.as_bytes(), "{text}");
    }
    Ok(())
}

/// The normal form of a part of a common name, which may be the first one.
fn normal_of_part(alloc: Global, text: &str, initial: bool) -> Result<Normal, Fail> {
    let kind = type_of(3)?;
    let value = value(alloc, text)?;
    let normal = normal_part(alloc, kind, &value, initial, false);
    drop(value);
    Ok(normal?)
}

#[test]
fn a_part_keeps_spaces_where_it_is_cut(rt: HostRuntime) -> Result<(), Fail> {
    let alloc = rt.alloc();
    for (initial, wanted) in [(false, " two words "), (true, "two words ")] {
        let found = normal_of_part(alloc, "  Two   Words ", initial)?;
        assert_eq!(rt; found.as_slice(), wanted.as_bytes());
    }
    Ok(())
}

/// The fault of so many letters as a value of the type.
fn fault_of_letters(alloc: Global, number: u8, count: usize) -> Result<Option<SyntaxFault>, Fail> {
    let kind = type_of(number)?;
    let mut text = String::new(alloc);
    for _ in 0..count {
        text.push('a')?;
    }
    let value = Value::Text(Text::from_string(text));
    let fault = normal(alloc, kind, &value).err();
    drop(value);
    Ok(fault)
}

#[test]
fn values_keep_to_the_limit_of_octets(rt: HostRuntime) -> Result<(), Fail> {
    let alloc = rt.alloc();
    for (number, count, wanted) in [
        (13, 1024, None),
        (13, 1025, Some(SyntaxFault::TooLong(1024))),
        (0, 1025, Some(SyntaxFault::WrongSyntax)),
    ] {
        assert_eq!(rt; fault_of_letters(alloc, number, count)?, wanted, "{count}");
    }
    Ok(())
}

/// The value that a text spells for a type.
fn value_of(alloc: Global, number: u8, text: &str) -> Result<Value, Fail> {
    let kind = TypeRef::Known(type_of(number)?);
    let value = Value::from_text(alloc, &kind, text);
    drop(kind);
    Ok(value?)
}

/// The text of the value that a text spells for a type.
fn value_printed(alloc: Global, number: u8, text: &str) -> Result<Text, Fail> {
    let value = value_of(alloc, number, text)?;
    let text = value.to_text(alloc);
    drop(value);
    Ok(text?)
}

/// The text of the name that a text spells.
fn name_printed(alloc: Global, text: &str) -> Result<Text, Fail> {
    let name = NameValue::parse(alloc, text)?;
    let text = name.text(alloc);
    drop(name);
    Ok(text?)
}

#[test]
fn what_is_read_is_printed(rt: HostRuntime) -> Result<(), Fail> {
    let alloc = rt.alloc();
    for (number, text, wanted) in [
        (3, "a\\2Fb", "a\\2fb"),
        (0, "2.5.6.6", "2.5.6.6"),
        (35, "DEad", "dead"),
        (31, "\\2fC\\3dNL", "\\2fC\\3dNL"),
    ] {
        let found = value_printed(alloc, number, text)?;
        assert_eq!(rt; found.as_str(), wanted, "{text}");
    }
    let name = name_printed(alloc, "/c=nl/CN=\\c3\\9f\u{df}")?;
    assert_eq!(rt; name.as_str(), "/C=nl/CN=\u{df}\u{df}");
    Ok(())
}
