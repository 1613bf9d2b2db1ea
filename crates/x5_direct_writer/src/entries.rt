//! Entries with their names: what is shown of them (X.511, section 7.7), and those of refreshes (X.525, section 10).
ghost use Rattle.std.specs.Prelude.{◌≡◌, ◌∷◌, [], ◌++◌, OnOk, if◌then◌else◌, map};
ghost use Rattle.x5_direct_writer.specs.PutsOf.{PutsOf, PutsEach};
ghost use Rattle.x5_model_messages.specs.Replies as replies;
ghost use Rattle.x5_model_messages.specs.Shadows as shadows;
ghost use Rattle.x5_model_messages.specs.Terms.{node_of};
ghost use Rattle.x5_model_typed.specs.Named as named;
ghost use Rattle.x5_ops.specs.AnswerViews.{info_view};

use crate::header::enclose;
use crate::names::put_name;
use crate::values::{put_attribute_set, put_stored_set};
use std::alloc::Global;
use x5_memory::NoMemory;
use x5_ops::{EntryInfo, Named};
use x5_writer::{Backwards, WriteFault};

/// That the information comes from a shadow: `fromEntry` is true where it isn't there.
pub(crate) fn put_origin(out: &mut Backwards, copy: bool) -> Result<(), NoMemory>
    ensures { OnOk result (out.new ≡ (if copy then 1 ∷ 1 ∷ 0 ∷ [] else []) ++ out.old) }
{
    if copy {
        out.put_all(&[1, 1, 0])?;
    }
    Ok(())
}

/// What is shown of an entry: its name, whether it comes from a shadow, and attributes.
pub fn put_info(alloc: Global, out: &mut Backwards, info: &EntryInfo) -> Result<(), WriteFault>
    ensures { PutsOf named.EntryInfo (replies.info_node (info_view info.now)) out.old out.new result }
{
    let behind = out.len();
    put_attribute_set(alloc, out, info.attributes.as_slice())?;
    put_origin(out, info.copy)?;
    put_name(alloc, out, &info.name)?;
    enclose(out, 0, 16, behind)?;
    Ok(())
}

fn put_infos(alloc: Global, out: &mut Backwards, infos: &[EntryInfo]) -> Result<(), WriteFault>
    ensures { PutsEach named.EntryInfo (map (λ e. replies.info_node (info_view e)) infos.now) out.old out.new result }
{
    let mut i = infos.len();
    while i > 0 {
        i -= 1;
        put_info(alloc, out, &infos[i])?;
    }
    Ok(())
}

/// What is shown of entries: a SEQUENCE OF it.
pub fn put_info_list(
    alloc: Global,
    out: &mut Backwards,
    infos: &[EntryInfo],
) -> Result<(), WriteFault>
    ensures { PutsOf named.EntryInfos (node_of (map (λ e. replies.info_node (info_view e)) infos.now)) out.old out.new result }
{
    let behind = out.len();
    put_infos(alloc, out, infos)?;
    enclose(out, 0, 16, behind)?;
    Ok(())
}

/// An entry with its name, all of it from the entry itself.
pub fn put_entry(alloc: Global, out: &mut Backwards, entry: &Named) -> Result<(), WriteFault>
    ensures { PutsOf named.Entry (shadows.entry_node entry.now) out.old out.new result }
{
    let behind = out.len();
    put_stored_set(alloc, out, entry.entry.attributes())?;
    put_name(alloc, out, &entry.name)?;
    enclose(out, 0, 16, behind)?;
    Ok(())
}

fn put_entries(alloc: Global, out: &mut Backwards, entries: &[Named]) -> Result<(), WriteFault>
    ensures { PutsEach named.Entry (map shadows.entry_node entries.now) out.old out.new result }
{
    let mut i = entries.len();
    while i > 0 {
        i -= 1;
        put_entry(alloc, out, &entries[i])?;
    }
    Ok(())
}

/// Entries: a SEQUENCE OF them.
pub fn put_entry_list(
    alloc: Global,
    out: &mut Backwards,
    entries: &[Named],
) -> Result<(), WriteFault>
    ensures { PutsOf named.Entries (node_of (map shadows.entry_node entries.now)) out.old out.new result }
{
    let behind = out.len();
    put_entries(alloc, out, entries)?;
    enclose(out, 0, 16, behind)?;
    Ok(())
}
