//! The words of the command line, and the forms that they may have.
ghost use Rattle.std.specs.Prelude.{◌≡◌, IfOk, map, string_bytes};
ghost use Rattle.std.specs.List.{list_all};
ghost use Rattle.std.specs.Option.{option_map};
ghost use Rattle.clap.specs.Words.{first_of, found_of, kind_of, rows_of, subcommand_rows_of};
ghost use Rattle.x5_words.specs.Command as told;
ghost use Rattle.x5_words.specs.Forms as forms;
ghost use Rattle.x5_words.specs.Views.{form_of, names_of};

use crate::command::command;
use clap::error::ErrorKind;
use clap::{ArgMatches, Error};
use std::alloc::Global;
use x5_memory::NoMemory;

/// The forms of the command line, one a line, and what their words in capitals are.
pub const FORMS: &str = "usage:
  xdir run [--summary] WORLD SCRIPT
  xdir check WORLD
  xdir tree WORLD SCRIPT
  xdir gen N
  xdir gen N world
  xdir gen N script
  xdir show FILE
WORLD, SCRIPT and FILE are names of files, N is a number below 2^32. README.md has an example of each.";

/// The names of a world file and of a script.
#[derive(Clone, Copy, Drop)]
pub struct Files<'a> {
    pub world: &'a str,
    pub script: &'a str,
}

/// What the words ask for.
#[derive(Clone, Copy, Drop)]
pub enum Words<'a> {
    /// A run of a script over a world, which prints its blocks, or a summary of them.
    Run(Files<'a>, bool),
    /// Whether a world's knowledge is consistent.
    Check(&'a str),
    /// A script on the one tree.
    Tree(Files<'a>),
    /// A run of the world and the script that are made of a number.
    GenRun(u32),
    /// The world that is made of a number.
    GenWorld(u32),
    /// The script that is made of a number.
    GenScript(u32),
    /// The elements in a file.
    Show(&'a str),
}

// A word that begins with `-` is none, but for the one flag.
fn is_fit(word: &String) -> bool
    ensures { result ≡ told.is_fit (string_bytes word.now) }
{
    !word.as_bytes().starts_with(b"-") || word.as_str() == "--summary"
}

fn are_fit(words: &[String]) -> bool
    ensures { result ≡ list_all (λ word. told.is_fit (string_bytes word)) words.now }
{
    words.iter().all(|word| is_fit(word))
}

fn are_digits(octets: &[u8]) -> bool
    ensures { result ≡ forms.are_digits octets.now }
{
    octets.iter().all(|octet| octet.is_ascii_digit())
}

// One to ten digits, of a number below 2^32.
fn number(text: &str) -> Option<u32>
    ensures { result ≡ forms.number_in text.now }
{
    if !are_digits(text.as_bytes()) || text.is_empty() || text.len() > 10 {
        return None;
    }
    text.parse().ok()
}

// The text of an argument.
fn text<'a>(matches: &ArgMatches<'a>, id: &str) -> Option<&'a str>
    ensures { option_map (λ s. s.now) result ≡ first_of id.now (rows_of (found_of matches.now)) }
{
    matches.get_str(id)
}

// The names of a world file and of a script.
fn two_files<'a>(matches: &ArgMatches<'a>) -> Option<Files<'a>>
    ensures { option_map names_of result ≡ told.files_read (rows_of (found_of matches.now)) }
{
    match (text(matches, "world"), text(matches, "script")) {
        (Some(world), Some(script)) => Some(Files { world, script }),
        _ => None,
    }
}

// Whether the flag was given.
fn is_marked(matches: &ArgMatches<'_>) -> bool
    ensures { result ≡ told.is_marked (rows_of (found_of matches.now)) }
{
    match text(matches, "summary") {
        Some(text) => text == "true",
        None => false,
    }
}

// What stands behind `run`.
fn run<'a>(matches: &ArgMatches<'a>) -> Option<Words<'a>>
    ensures { option_map form_of result ≡ told.run_read (rows_of (found_of matches.now)) }
{
    match two_files(matches) {
        Some(files) => Some(Words::Run(files, is_marked(matches))),
        None => None,
    }
}

// What stands behind `tree`.
fn tree<'a>(matches: &ArgMatches<'a>) -> Option<Words<'a>>
    ensures { option_map form_of result ≡ told.tree_read (rows_of (found_of matches.now)) }
{
    match two_files(matches) {
        Some(files) => Some(Words::Tree(files)),
        None => None,
    }
}

// What is made of a number, and what of it is printed: its run, where nothing is said.
fn made<'a>(n: u32, what: Option<&'a str>) -> Option<Words<'a>>
    ensures { option_map form_of result ≡ told.made_of (option_map (λ s. s.now) what.entry) n }
{
    match what {
        None => Some(Words::GenRun(n)),
        Some(what) => {
            if what == "world" {
                Some(Words::GenWorld(n))
            } else if what == "script" {
                Some(Words::GenScript(n))
            } else {
                None
            }
        }
    }
}

// What stands behind `gen`.
fn generated<'a>(matches: &ArgMatches<'a>) -> Option<Words<'a>>
    ensures { option_map form_of result ≡ told.gen_read (rows_of (found_of matches.now)) }
{
    let n = number(text(matches, "number")?)?;
    made(n, text(matches, "what"))
}

// The one file that stands behind `check`.
fn check<'a>(matches: &ArgMatches<'a>) -> Option<Words<'a>>
    ensures { option_map form_of result ≡ told.check_read (rows_of (found_of matches.now)) }
{
    match text(matches, "world") {
        Some(file) => Some(Words::Check(file)),
        None => None,
    }
}

// The one file that stands behind `show`.
fn show<'a>(matches: &ArgMatches<'a>) -> Option<Words<'a>>
    ensures { option_map form_of result ≡ told.show_read (rows_of (found_of matches.now)) }
{
    match text(matches, "file") {
        Some(file) => Some(Words::Show(file)),
        None => None,
    }
}

// What a subcommand with its arguments asks for.
fn named<'a>(name: &str, matches: &ArgMatches<'a>) -> Option<Words<'a>>
    ensures { option_map form_of result ≡ told.form_read name.now (rows_of (found_of matches.now)) }
{
    if name == "run" {
        run(matches)
    } else if name == "check" {
        check(matches)
    } else if name == "tree" {
        tree(matches)
    } else if name == "gen" {
        generated(matches)
    } else if name == "show" {
        show(matches)
    } else {
        None
    }
}

// What the matches ask for.
fn found<'a>(matches: &ArgMatches<'a>) -> Option<Words<'a>>
    ensures { option_map form_of result ≡ told.form_found (subcommand_rows_of matches.now) }
{
    match matches.subcommand() {
        Some((name, below)) => named(name, below),
        None => None,
    }
}

// Whether memory ran out.
fn ran_out(error: &Error) -> bool
    ensures { result ≡ told.is_want_of_memory (kind_of error.now) }
{
    matches!(error.kind(), ErrorKind::OutOfMemory)
}

/// What the words behind the program's name ask for; None exactly where they are none of the forms.
pub fn read_words(alloc: Global, words: &[String]) -> Result<Option<Words<'_>>, NoMemory>
    ensures { IfOk result (λ read. option_map form_of read ≡ forms.form_in (map string_bytes words.entry.now)) }
{
    if !are_fit(words) {
        return Ok(None);
    }
    let command = command(alloc)?;
    match command.try_get_matches_from(words) {
        Ok(matches) => Ok(found(&matches)),
        Err(error) => {
            if ran_out(&error) {
                Err(NoMemory)
            } else {
                Ok(None)
            }
        }
    }
}
