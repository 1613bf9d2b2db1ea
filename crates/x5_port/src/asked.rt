// The names of the files that were asked for, the last one first.
ghost use Rattle.std.specs.Prelude.{◌≡◌, ◌∷◌, OnOk, OnErr};
ghost use Rattle.std.specs.List.{slice_get};
ghost use Rattle.std.specs.Option.{option_copied};
ghost use Rattle.x5_port.specs.Names.{names_in};

use std::alloc::Global;
use x5_memory::NoMemory;

// Puts a name in front of those before.
pub(crate) fn put_name(names: &mut Vec<String>, alloc: Global, name: &str) -> Result<(), NoMemory>
    ensures put { OnOk result (names_in names.new.items ≡ name.now ∷ names_in names.old.items) }
    ensures unchanged { OnErr result (names_in names.new.items ≡ names_in names.old.items) }
{
    let kept = String::from_str(alloc, name)?;
    names.insert(0, kept)?;
    Ok(())
}

// The name in front. No memory.
pub(crate) fn first_name(names: &[String]) -> Option<&str>
    ensures { option_copied result ≡ slice_get (names_in names.now) 0 }
{
    names.first().map(|name| name.as_str())
}
