//! A script: what its lines ask for, or the first that is refused and its first fault (docs/FORMATS.md, script).
#![tactic(auto)]

mod command;
mod line;
mod operations;
mod script;
mod texts;
mod tokens;
mod words;

pub use command::{Command, ScriptFault};
pub use line::parse_line;
pub use script::{ScriptRefusal, read_script};
