//! The line of a file that isn't taken (docs/FORMATS.md, output).
ghost use Rattle.std.specs.Prelude.{◌≡◌, ◌∷◌, [], codes, IfOk, string_bytes};
ghost use Rattle.std.specs.Fmt.{decimal};
ghost use Rattle.std.specs.List.{concat};
ghost use Rattle.xdir.specs.Faults.{IsRefusalLine, IsScriptLine, IsWorldLine};
ghost use Rattle.xdir.specs.Steps.{WritesLine, WritesSuchLine};
ghost use Rattle.xdir.specs.Text as shown;

use crate::top::Status;
use std::alloc::{AllocError, Global};
use x5_load::LoadFault;
use x5_memory::NoMemory;
use x5_port::{Failed, Sink, put_all};
use x5_script::{ScriptFault, ScriptRefusal};

/// What is printed of a world file that is no JSON.
pub const NOT_JSON: &str = "refused world notJson\n";

fn path_line(alloc: Global, word: &str, path: &str) -> Result<String, AllocError>
    ensures { IfOk result (λ line. string_bytes line ≡ shown.at_path_text word.now path.now) }
{
    format!(in alloc; "refused world {word} {path}\n")
}

fn limit_line(alloc: Global, path: &str, limit: u32) -> Result<String, AllocError>
    ensures { IfOk result (λ line. string_bytes line ≡ concat (codes "refused world overLimit " ∷ path.now ∷ codes " " ∷ decimal limit ∷ codes "\n" ∷ [])) }
{
    format!(in alloc; "refused world overLimit {path} {limit}\n")
}

/// The line of a fault of a world file; want of memory has none.
fn world_line(alloc: Global, fault: &LoadFault) -> Result<String, NoMemory>
    ensures { IfOk result (λ line. IsWorldLine fault.now (string_bytes line)) }
{
    match fault {
        LoadFault::NotJson => Ok(String::from_str(alloc, NOT_JSON)?),
        LoadFault::BadShape(path) => Ok(path_line(alloc, "badShape", path.as_str())?),
        LoadFault::BadName(path) => Ok(path_line(alloc, "badName", path.as_str())?),
        LoadFault::OverLimit(path, limit) => Ok(limit_line(alloc, path.as_str(), *limit)?),
        LoadFault::RepeatedAgent(path) => Ok(path_line(alloc, "repeatedAgent", path.as_str())?),
        LoadFault::UnknownAgent(path) => Ok(path_line(alloc, "unknownAgent", path.as_str())?),
        LoadFault::NoMemory => Err(NoMemory),
    }
}

fn column_line(
    alloc: Global,
    number: usize,
    word: &str,
    column: usize,
) -> Result<String, AllocError>
    ensures { IfOk result (λ line. string_bytes line ≡ shown.at_column_text number word.now column) }
{
    format!(in alloc; "refused line {number} {word} {column}\n")
}

fn long_line(alloc: Global, number: usize) -> Result<String, AllocError>
    ensures { IfOk result (λ line. string_bytes line ≡ concat (codes "refused line " ∷ decimal number ∷ codes " long\n" ∷ [])) }
{
    format!(in alloc; "refused line {number} long\n")
}

/// The line of a script's line that is refused, by its number; want of memory has none.
fn script_line(alloc: Global, number: usize, fault: ScriptFault) -> Result<String, NoMemory>
    ensures { IfOk result (λ line. IsScriptLine number fault (string_bytes line)) }
{
    match fault {
        ScriptFault::BadWord(column) => Ok(column_line(alloc, number, "word", column)?),
        ScriptFault::BadName(column) => Ok(column_line(alloc, number, "name", column)?),
        ScriptFault::BadFilter(column) => Ok(column_line(alloc, number, "filter", column)?),
        ScriptFault::BadHex(column) => Ok(column_line(alloc, number, "hex", column)?),
        ScriptFault::LineTooLong => Ok(long_line(alloc, number)?),
        ScriptFault::NoMemory => Err(NoMemory),
    }
}

/// Prints the line of a file that isn't taken.
fn put_refusal<K: Sink>(line: &str, out: &mut K) -> Status
    ensures { WritesLine result line.now (K.octets out.old) (K.octets out.new) (K.fault_count out.old) (K.fault_count out.new) }
{
    match put_all(out, line.as_bytes()) {
        Ok(()) => Status::Refused,
        Err(Failed) => Status::WriteFault,
    }
}

/// Prints what is wrong in a world file.
pub fn refuse_world<K: Sink>(alloc: Global, fault: &LoadFault, out: &mut K) -> Status
    ensures { WritesSuchLine result (IsWorldLine fault.now) (K.octets out.old) (K.octets out.new) (K.fault_count out.old) (K.fault_count out.new) }
{
    match world_line(alloc, fault) {
        Ok(line) => put_refusal(&line, out),
        Err(NoMemory) => Status::NoMemory,
    }
}

/// Prints what is wrong in a script's line with this number.
fn refuse_line<K: Sink>(alloc: Global, number: usize, fault: ScriptFault, out: &mut K) -> Status
    ensures { WritesSuchLine result (IsScriptLine number fault) (K.octets out.old) (K.octets out.new) (K.fault_count out.old) (K.fault_count out.new) }
{
    match script_line(alloc, number, fault) {
        Ok(line) => put_refusal(&line, out),
        Err(NoMemory) => Status::NoMemory,
    }
}

/// Prints the line of a script that is refused; want of memory has none.
pub fn refuse_script<K: Sink>(alloc: Global, refusal: ScriptRefusal, out: &mut K) -> Status
    ensures { WritesSuchLine result (IsRefusalLine refusal) (K.octets out.old) (K.octets out.new) (K.fault_count out.old) (K.fault_count out.new) }
{
    match refusal {
        ScriptRefusal::Line { number, fault } => refuse_line(alloc, number, fault, out),
        ScriptRefusal::NoMemory => Status::NoMemory,
    }
}
