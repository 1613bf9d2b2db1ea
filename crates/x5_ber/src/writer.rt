//! Writes an element in its canonical spelling.
ghost use Rattle.std.specs.Prelude.{◌≡◌, ◌+◌, ◌*◌, ◌^◌, ◌<◌, ◌≤◌, Bool, false, [], ◌∷◌, ◌++◌, length, OnOk, OnErr};
ghost use Rattle.x5_model_octets.specs.Elements.{enclosed, identifier, identifier_octets, shortest_length, group_from, without_zeros};
ghost use Rattle.x5_ber.specs.Written.{IsPrefixOf};
ghost use Rattle.std.specs.Int.{to_be_bytes, w64};

use x5_memory::NoMemory;

/// Appends the canonical spelling of the element: the fewest octets for the tag number and for a
/// definite length (X.690, 8.1.2 and 10.1), and the content as it is given. `class` is 0 universal,
/// 1 application, 2 context-specific or 3 private, and the tag number is below 2^31.
///
/// # Errors
/// Only where memory runs out; `out` is then as it was.
pub fn put_tlv(
    out: &mut Vec<u8>,
    class: u8,
    constructed: bool,
    tag: u32,
    content: &[u8],
) -> Result<(), NoMemory>
    requires class { class < 4 }
    requires tag { tag < 2 ^ 31 }
    // The octets 00 00 are no element.
    requires element { class ≡ 0 → constructed ≡ false → tag ≡ 0 → content.now ≡ [] → ⊥ }
    ensures ok { OnOk result (out.new.items ≡ out.old.items ++ enclosed (identifier constructed class tag) content.now) }
    ensures err { OnErr result (out.new.items ≡ out.old.items) }
{
    let before = out.len();
    let written = put_enclosed(out, class, constructed, tag, content);
    if written.is_err() {
        out.truncate(before);
    }
    written
}

fn put_enclosed(
    out: &mut Vec<u8>,
    class: u8,
    constructed: bool,
    tag: u32,
    content: &[u8],
) -> Result<(), NoMemory>
    requires class { class < 4 }
    requires tag { tag < 2 ^ 31 }
    ensures ok { OnOk result (out.new.items ≡ out.old.items ++ enclosed (identifier constructed class tag) content.now) }
    ensures kept { IsPrefixOf out.old.items out.new.items }
{
    put_identifier(out, class, constructed, tag)?;
    put_length(out, content.len() as u64)?;
    out.extend_from_slice(content)?;
    Ok(())
}

fn put_identifier(out: &mut Vec<u8>, class: u8, constructed: bool, tag: u32) -> Result<(), NoMemory>
    requires class { class < 4 }
    requires tag { tag < 2 ^ 31 }
    ensures ok { OnOk result (out.new.items ≡ out.old.items ++ identifier_octets (identifier constructed class tag)) }
    ensures kept { IsPrefixOf out.old.items out.new.items }
{
    let form = if constructed { 32 } else { 0 };
    let leading = 64 * class + form;
    if tag < 31 {
        out.push(leading + tag as u8)?;
        return Ok(());
    }
    out.push(leading + 31)?;
    put_group(out, tag, 1 << 28)?;
    put_group(out, tag, 1 << 21)?;
    put_group(out, tag, 1 << 14)?;
    put_group(out, tag, 1 << 7)?;
    out.push((tag % 128) as u8)?;
    Ok(())
}

/// Appends a group of seven bits with bit 8 set, if the tag number reaches it.
fn put_group(out: &mut Vec<u8>, tag: u32, power: u32) -> Result<(), NoMemory>
    requires { 0 < power }
    ensures ok { OnOk result (out.new.items ≡ out.old.items ++ group_from tag power) }
    ensures kept { IsPrefixOf out.old.items out.new.items }
{
    if tag >= power {
        out.push((128 + tag / power % 128) as u8)?;
    }
    Ok(())
}

fn put_length(out: &mut Vec<u8>, length: u64) -> Result<(), NoMemory>
    ensures ok { OnOk result (out.new.items ≡ out.old.items ++ shortest_length length) }
    ensures kept { IsPrefixOf out.old.items out.new.items }
{
    if length < 128 {
        out.push(length as u8)?;
        return Ok(());
    }
    let octets = length.to_be_bytes();
    let digits = significant(&octets);
    out.push(128 + digits.len() as u8)?;
    out.extend_from_slice(digits)?;
    Ok(())
}

/// The octets from the first that isn't zero.
fn significant(octets: &[u8]) -> &[u8]
    ensures value { result.now ≡ without_zeros octets.now }
    ensures few { length result.now ≤ length octets.now }
{
    let mut digits = octets;
    while let [0, rest @ ..] = digits {
        digits = rest;
    }
    digits
}
