//! Prints elements, a line each.
ghost use Rattle.std.specs.Prelude.{◌≡◌, ℕ, ◌+◌, ◌≤◌, List, [], ◌++◌, length, IfOk, OnOk, string_bytes};
ghost use Rattle.x5_model_octets.specs.Elements.{Element, Elements, Spells, SpellsAll};
ghost use Rattle.x5_ber.specs.Reading.{Stands};
ghost use Rattle.x5_ber.specs.Found.{IsElementAt};
ghost use Rattle.x5_show.specs.Show.{AreValues, ShowsValues, Lines, LinesAll, line, head_text, hex_text, indent, class_letter};

use std::alloc::Global;
use x5_ber::{NoMemory, Tlv, read_tlv};

/// The lines of the values that the octets are.
pub(crate) fn elements(alloc: Global, bytes: &[u8]) -> Result<String, NoMemory>
    requires { AreValues bytes.now }
    ensures { IfOk result (λ text. ShowsValues bytes.now (string_bytes text)) }
{
    let mut out = String::new(alloc);
    put_members(alloc, &mut out, bytes, 0, bytes.len(), 0)?;
    Ok(out)
}

/// Appends the lines of the elements from a place to the end, which lie in so many others.
#[cycle(show)]
fn put_members(
    alloc: Global,
    out: &mut String,
    bytes: &[u8],
    start: usize,
    end: usize,
    level: usize,
) -> Result<(), NoMemory>
    requires there { end ≤ length bytes.now }
    requires deep { level ≤ start }
    ensures { (es : Elements) (octets : List ℕ) → SpellsAll 1 es octets → Stands bytes.now start octets → end ≡ start + length octets
        → OnOk result ((text : List ℕ) × LinesAll level start es octets text × (string_bytes out.new ≡ string_bytes out.old ++ text)) }
{
    let mut at = start;
    while at < end {
        match read_tlv(bytes, at) {
            Ok((tlv, next)) if next <= end => {
                put_element(alloc, out, bytes, at, next, tlv, level)?;
                at = next;
            }
            _ => return Ok(()),
        }
    }
    Ok(())
}

/// Appends the line of an element and those of its members.
#[cycle(show)]
fn put_element(
    alloc: Global,
    out: &mut String,
    bytes: &[u8],
    at: usize,
    next: usize,
    tlv: Tlv,
    level: usize,
) -> Result<(), NoMemory>
    requires found { IsElementAt bytes.now at tlv next }
    requires deep { level ≤ at }
    ensures { (e : Element) (octets : List ℕ) → Spells 1 e octets → Stands bytes.now at octets
        → OnOk result ((text : List ℕ) × Lines level at e octets text × (string_bytes out.new ≡ string_bytes out.old ++ text)) }
{
    if tlv.constructed {
        put_line(alloc, out, level, at, tlv, "cons", &[])?;
        put_members(alloc, out, bytes, tlv.start, tlv.end, level + 1)
    } else {
        put_line(
            alloc,
            out,
            level,
            at,
            tlv,
            "prim",
            &bytes[tlv.start..tlv.end],
        )
    }
}

/// Appends a line: the level, twice, in spaces; the place; the class and tag number; the form; and
/// octets in hexadecimal, if there are any.
fn put_line(
    alloc: Global,
    out: &mut String,
    level: usize,
    at: usize,
    tlv: Tlv,
    form: &str,
    octets: &[u8],
) -> Result<(), NoMemory>
    ensures { OnOk result (string_bytes out.new ≡ string_bytes out.old ++ line level at tlv.class tlv.tag form.now octets.now) }
{
    put_indent(out, level)?;
    let head = head(alloc, at, tlv.class, tlv.tag, form)?;
    out.push_str(&head)?;
    put_hex(alloc, out, octets)?;
    out.push_str("\n")?;
    Ok(())
}

fn put_indent(out: &mut String, level: usize) -> Result<(), NoMemory>
    ensures { OnOk result (string_bytes out.new ≡ string_bytes out.old ++ indent level) }
{
    for depth in 0..level {
        out.push_str("  ")?;
    }
    Ok(())
}

fn head(alloc: Global, at: usize, class: u8, tag: u32, form: &str) -> Result<String, NoMemory>
    ensures { IfOk result (λ text. string_bytes text ≡ head_text at class tag form.now) }
{
    let class = letter(class);
    Ok(format!(in alloc; "{at} {class}{tag} {form}")?)
}

fn put_hex(alloc: Global, out: &mut String, octets: &[u8]) -> Result<(), NoMemory>
    ensures { OnOk result (string_bytes out.new ≡ string_bytes out.old ++ hex_text octets.now) }
{
    if octets.is_empty() {
        return Ok(());
    }
    out.push_str(" ")?;
    let text = hex::encode(alloc, octets)?;
    out.push_str(&text)?;
    Ok(())
}

fn letter(class: u8) -> &'static str
    ensures { result.now ≡ class_letter class }
{
    match class {
        0 => "U",
        1 => "A",
        2 => "C",
        _ => "P",
    }
}
