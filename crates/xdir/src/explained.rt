// What the line of a refusal means, in words: where the file is wrong, and what is wrong there.
ghost use Rattle.std.specs.Prelude.{◌≡◌};
ghost use Rattle.xdir.specs.Explained.{behind_word, explained_view, explanation, first_word as word_in_front, line_reason as line_told, of_line as line_explained, of_octet as octet_explained, of_world as world_explained, octet_reason as octet_told, world_reason as world_told};

use std::fmt::{self, Display, Formatter};

/// The line of a refusal, as it's printed on standard output, in words for standard error: where the file is wrong, what is wrong
/// there, and the section of docs/FORMATS.md to read on.
#[derive(Clone, Copy)]
pub struct Explained<'a> {
    place: Place<'a>,
    reason: &'static str,
    section: &'static str,
}

/// Where a file is wrong: as a whole, at a path, in a line, in a column of a line, or at an octet.
#[derive(Clone, Copy)]
pub enum Place<'a> {
    File,
    Path(&'a str),
    Line(&'a str),
    Column(&'a str, &'a str),
    Octet(&'a str),
}

impl<'a> Explained<'a> {
    /// The words for this line.
    pub fn new(line: &'a str) -> Explained<'a>
        ensures { explained_view result ≡ explanation line.now }
    {
        let (_, words) = first_word(line);
        let (kind, words) = first_word(words);
        if kind == "world" {
            return of_world(words);
        }
        if kind == "line" {
            return of_line(words);
        }
        of_octet(words)
    }
}

impl<'a> Display for Explained<'a> {
    ghost use Rattle.std.specs.Prelude.{Some};
    ghost use Rattle.xdir.specs.Explained.{explained_view, explanation_text};

    ghost output = { λ x. Some (explanation_text (explained_view x)) };

    fn fmt<W: fmt::Write>(&self, f: &mut Formatter<W>) -> fmt::Result {
        let place = self.place;
        let reason = self.reason;
        let section = self.section;
        write!(f, "{place}{reason} (docs/FORMATS.md, '{section}')")
    }
}

impl<'a> Display for Place<'a> {
    ghost use Rattle.std.specs.Prelude.{Some};
    ghost use Rattle.xdir.specs.Explained.{place_view};

    ghost output = { λ p. Some (place_view p) };

    fn fmt<W: fmt::Write>(&self, f: &mut Formatter<W>) -> fmt::Result {
        match self {
            Place::File => Ok(()),
            Place::Path(path) => write!(f, "at {path}: "),
            Place::Line(number) => write!(f, "line {number}: "),
            Place::Column(number, column) => write!(f, "line {number}, column {column}: "),
            Place::Octet(place) => write!(f, "octet {place}: "),
        }
    }
}

// What stands before the first space, and what stands behind it.
fn first_word(text: &str) -> (&str, &str)
    ensures first { result.0.now ≡ word_in_front text.now }
    ensures behind { result.1.now ≡ behind_word text.now }
{
    text.split_once(' ').unwrap_or((text, ""))
}

// Of a world file: the reason, and the path, if there is one; that of the whole file is empty.
fn of_world(words: &str) -> Explained<'_>
    ensures { explained_view result ≡ world_explained words.now }
{
    let (reason, path) = first_word(words);
    Explained {
        place: if path.is_empty() {
            Place::File
        } else {
            Place::Path(path)
        },
        reason: world_reason(reason),
        section: "World file",
    }
}

// Of a script: the line's number, the reason, and the column, if there is one.
fn of_line(words: &str) -> Explained<'_>
    ensures { explained_view result ≡ line_explained words.now }
{
    let (number, words) = first_word(words);
    let (reason, column) = first_word(words);
    Explained {
        place: if column.is_empty() {
            Place::Line(number)
        } else {
            Place::Column(number, column)
        },
        reason: line_reason(reason),
        section: "Script",
    }
}

// Of a file that is shown: the place, and the reason.
fn of_octet(words: &str) -> Explained<'_>
    ensures { explained_view result ≡ octet_explained words.now }
{
    let (place, reason) = first_word(words);
    Explained {
        place: Place::Octet(place),
        reason: octet_reason(reason),
        section: "What show prints",
    }
}

// What is wrong in a world file.
fn world_reason(reason: &str) -> &'static str
    ensures { result.now ≡ world_told reason.now }
{
    if reason == "notJson" {
        return "this is no value of JSON in UTF-8";
    }
    if reason == "badShape" {
        return "a member is missing, isn't known here, or hasn't the form that it must have";
    }
    if reason == "badName" {
        return "this is no name";
    }
    if reason == "overLimit" {
        return "this passes the limit that stands behind the path";
    }
    if reason == "repeatedAgent" {
        return "an agent before this one has the same name";
    }
    if reason == "unknownAgent" {
        return "no agent of this world has this name";
    }
    ""
}

// What is wrong in a line of a script.
fn line_reason(reason: &str) -> &'static str
    ensures { result.now ≡ line_told reason.now }
{
    if reason == "word" {
        return "another word must stand here, or none";
    }
    if reason == "name" {
        return "this is no name, or no agent of this world has it";
    }
    if reason == "filter" {
        return "this is no filter";
    }
    if reason == "hex" {
        return "these are no octets in hexadecimal digits";
    }
    if reason == "long" {
        return "this line has more than 4,096 octets, or stands behind line 100,000";
    }
    ""
}

// What is wrong with the octets of a shown file (X.690, clause 8).
fn octet_reason(reason: &str) -> &'static str
    ensures { result.now ≡ octet_told reason.now }
{
    if reason == "truncated" {
        return "the octets end inside an element";
    }
    if reason == "badLength" {
        return "this length passes what lies around it, or is none";
    }
    if reason == "badTag" {
        return "no element begins with this";
    }
    if reason == "badContent" {
        return "this content isn't of its type";
    }
    if reason == "tooDeep" {
        return "this element lies deeper than 64";
    }
    ""
}
