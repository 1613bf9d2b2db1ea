//! The command line as it is told to `clap`.
ghost use Rattle.std.specs.Prelude.{◌≡◌, false, codes, IfOk};
ghost use Rattle.clap.specs.Words.{app_of, new_rule, rule_of};
ghost use Rattle.clap.specs.declared.builder.command.Command.TheViews.{out-Command as fields_of};
ghost use Rattle.x5_words.specs.Command as told;

use clap::{Arg, ArgAction, Command};
use std::alloc::{AllocError, Global};

/// An argument by its place, which must be there.
fn needed<'a>(alloc: Global, id: &'a str) -> Arg<'a>
    ensures rule { rule_of result ≡ told.needed id.entry.now }
    ensures local { result.global ≡ false }
{
    Arg::new(alloc, id).required(true)
}

/// An argument by its place, which may be there.
fn optional<'a>(alloc: Global, id: &'a str) -> Arg<'a>
    ensures rule { rule_of result ≡ new_rule id.entry.now }
    ensures local { result.global ≡ false }
{
    Arg::new(alloc, id)
}

/// The flag that asks for a summary.
fn summary_flag<'a>(alloc: Global) -> Arg<'a>
    ensures rule { rule_of result ≡ told.summary_flag }
    ensures local { result.global ≡ false }
{
    Arg::new(alloc, "summary")
        .long("summary")
        .action(ArgAction::SetTrue)
}

/// A subcommand with one argument.
fn of_one<'a>(alloc: Global, name: &'a str, id: &'a str) -> Result<Command<'a>, AllocError>
    ensures app { IfOk result (λ c. app_of c ≡ told.of_one name.entry.now id.entry.now) }
    ensures local { IfOk result (λ c. (fields_of c).has_globals ≡ false) }
{
    let argument = needed(alloc, id);
    Command::new(alloc, name).arg(argument)
}

/// A subcommand with two arguments.
fn of_two<'a>(
    alloc: Global,
    name: &'a str,
    first: &'a str,
    second: &'a str,
) -> Result<Command<'a>, AllocError>
    ensures app { IfOk result (λ c. app_of c ≡ told.of_two name.entry.now first.entry.now second.entry.now) }
    ensures local { IfOk result (λ c. (fields_of c).has_globals ≡ false) }
{
    let command = of_one(alloc, name, first)?;
    let argument = needed(alloc, second);
    command.arg(argument)
}

/// `run`.
fn run<'a>(alloc: Global) -> Result<Command<'a>, AllocError>
    ensures app { IfOk result (λ c. app_of c ≡ told.run_app) }
    ensures local { IfOk result (λ c. (fields_of c).has_globals ≡ false) }
{
    let command = of_two(alloc, "run", "world", "script")?;
    let flag = summary_flag(alloc);
    command.arg(flag)
}

/// `gen`.
fn generate<'a>(alloc: Global) -> Result<Command<'a>, AllocError>
    ensures app { IfOk result (λ c. app_of c ≡ told.gen_app) }
    ensures local { IfOk result (λ c. (fields_of c).has_globals ≡ false) }
{
    let command = of_one(alloc, "gen", "number")?;
    let argument = optional(alloc, "what");
    command.arg(argument)
}

/// The program without its subcommands: no help, no version, and a subcommand in each line.
fn bare<'a>(alloc: Global) -> Command<'a>
    ensures { app_of result ≡ told.bare_app }
{
    Command::new(alloc, "xdir")
        .no_binary_name(true)
        .disable_help_flag(true)
        .disable_help_subcommand(true)
        .disable_version_flag(true)
        .subcommand_required(true)
}

/// The program with these subcommands.
fn with<'a>(above: Command<'a>, sub: Command<'a>) -> Result<Command<'a>, AllocError>
    requires { (fields_of sub).has_globals ≡ false }
    ensures { IfOk result (λ c. app_of c ≡ told.with_app (app_of above.entry) (app_of sub.entry)) }
{
    above.subcommand(sub)
}

/// The program with `run` as one more subcommand.
fn with_run<'a>(alloc: Global, above: Command<'a>) -> Result<Command<'a>, AllocError>
    ensures { IfOk result (λ c. app_of c ≡ told.with_app (app_of above.entry) told.run_app) }
{
    match run(alloc) {
        Ok(sub) => with(above, sub),
        Err(fault) => {
            drop(above);
            Err(fault)
        }
    }
}

/// The program with one more subcommand, which has one argument.
fn with_one<'a>(
    alloc: Global,
    above: Command<'a>,
    name: &'a str,
    id: &'a str,
) -> Result<Command<'a>, AllocError>
    ensures { IfOk result (λ c. app_of c ≡ told.with_app (app_of above.entry) (told.of_one name.entry.now id.entry.now)) }
{
    match of_one(alloc, name, id) {
        Ok(sub) => with(above, sub),
        Err(fault) => {
            drop(above);
            Err(fault)
        }
    }
}

/// The program with one more subcommand, which has two arguments.
fn with_two<'a>(
    alloc: Global,
    above: Command<'a>,
    name: &'a str,
    first: &'a str,
    second: &'a str,
) -> Result<Command<'a>, AllocError>
    ensures { IfOk result (λ c. app_of c ≡ told.with_app (app_of above.entry) (told.of_two name.entry.now first.entry.now second.entry.now)) }
{
    match of_two(alloc, name, first, second) {
        Ok(sub) => with(above, sub),
        Err(fault) => {
            drop(above);
            Err(fault)
        }
    }
}

/// The program with `gen` as one more subcommand.
fn with_gen<'a>(alloc: Global, above: Command<'a>) -> Result<Command<'a>, AllocError>
    ensures { IfOk result (λ c. app_of c ≡ told.with_app (app_of above.entry) told.gen_app) }
{
    match generate(alloc) {
        Ok(sub) => with(above, sub),
        Err(fault) => {
            drop(above);
            Err(fault)
        }
    }
}

/// The command line, without help and version.
pub(crate) fn command<'a>(alloc: Global) -> Result<Command<'a>, AllocError>
    ensures { IfOk result (λ c. app_of c ≡ told.xdir_app) }
{
    let command = with_run(alloc, bare(alloc))?;
    let command = with_one(alloc, command, "check", "world")?;
    let command = with_two(alloc, command, "tree", "world", "script")?;
    let command = with_gen(alloc, command)?;
    with_one(alloc, command, "show", "file")
}
