//! Contents of strings whose octets aren't those of the value: UniversalString (X.680, section 41), and the bits of
//! options (X.511, 7.5; X.690, 8.6).
ghost use Rattle.std.specs.Prelude.{◌≡◌, ◌++◌, OnOk, IfOk, chars};
ghost use Rattle.std.specs.Int.{to_be_bytes, w32};
ghost use Rattle.std.specs.List.{flat_map};
ghost use Rattle.x5_model_typed.specs.Written.{bit_content};
ghost use Rattle.x5_writer.specs.Contents.{option_bits};

use crate::backwards::Backwards;
use std::alloc::Global;
use x5_memory::NoMemory;

/// Four octets a character, the highest first.
pub(crate) fn put_characters(alloc: Global, out: &mut Backwards, text: &str) -> Result<(), NoMemory>
    ensures { OnOk result (out.new ≡ flat_map (to_be_bytes w32) (chars text.now) ++ out.old) }
{
    let characters = characters_of(alloc, text)?;
    put_cells(out, &characters)
}

fn characters_of(alloc: Global, text: &str) -> Result<Vec<char>, NoMemory>
    ensures { IfOk result (λ v. v.items ≡ chars text.now) }
{
    Ok(text.chars().collect(alloc)?)
}

fn put_cells(out: &mut Backwards, characters: &[char]) -> Result<(), NoMemory>
    ensures { OnOk result (out.new ≡ flat_map (to_be_bytes w32) characters.now ++ out.old) }
{
    let mut i = characters.len();
    while i > 0 {
        i -= 1;
        out.put_all(&u32::from(characters[i]).to_be_bytes())?;
    }
    Ok(())
}

/// The bits dontUseCopy and chainingProhibited, without those behind the last one that is set.
pub(crate) fn put_options(out: &mut Backwards, nocopy: bool, nochain: bool) -> Result<(), NoMemory>
    ensures { OnOk result (out.new ≡ bit_content (option_bits nocopy nochain) ++ out.old) }
{
    match (nocopy, nochain) {
        (false, false) => out.put(0),
        (false, true) => out.put_all(&[6, 0x40]),
        (true, false) => out.put_all(&[4, 0x10]),
        (true, true) => out.put_all(&[4, 0x50]),
    }
}
