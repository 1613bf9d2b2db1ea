//! The members of a world file (docs/FORMATS.md, world file): JSON (RFC 8259) that is looked up by names and read by types, up to an
//! agent's naming contexts. Each reader answers with what the definition reads there, or with its first breach and the path.
#![tactic(auto)]

mod contexts;
mod counts;
mod entries;
mod entry;
mod fault;
mod given;
mod json;
mod key_set;
mod mentions;
mod names;
mod nssrs;
mod place;
mod spelling;

pub use contexts::{Contexts, contexts_behind};
pub use counts::{Counts, with_these};
pub use fault::LoadFault;
pub use json::{list_if_any, members_at, number_at, number_of, only, some_at, text_at};
pub use key_set::KeySet;
pub use mentions::{agent_in, agent_of, agents_behind};
pub use names::entry_name_at;
pub use place::Place;
