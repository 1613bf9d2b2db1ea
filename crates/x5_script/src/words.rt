//! The words of a line, one by one.
ghost use Rattle.std.specs.Prelude.{◌≡◌, ◌≤◌, ◌+◌, IfOk, map, length, option_map, is_some};
ghost use Rattle.std.specs.List.{slice_split};
ghost use Rattle.x5_model.specs.Words.{first_of};
ghost use Rattle.x5_model_script.specs.Words as words;
ghost use Rattle.x5_syntax.specs.Escapes.{span};
ghost use Rattle.x5_script.specs.Views.{Says, Takes, token_view, word_view, left_view};

use crate::command::ScriptFault;
use crate::tokens::{Token, Word, Words};
use std::alloc::{AllocError, Global};
use x5_memory::NoMemory;

/// The parts of a line between its spaces, one more than there are spaces.
fn parts(alloc: Global, line: &[u8]) -> Result<Vec<&[u8]>, AllocError>
    ensures { IfOk result (λ parts. map (λ x. x.now) parts.items ≡ slice_split words.is_space line.now) }
{
    line.split(|octet| *octet == b' ').collect(alloc)
}

/// The parts as tokens, the first at column 1 and one space between two.
fn placed<'a>(alloc: Global, parts: &[&'a [u8]]) -> Result<Vec<Token<'a>>, NoMemory>
    requires { span (map (λ x. x.now) parts.now) ≤ 4097 }
    ensures { IfOk result (λ tokens. map token_view tokens.items ≡ words.placed 1 (map (λ x. x.now) parts.now)) }
{
    let mut tokens = Vec::new(alloc);
    let mut column = 1;
    for octets in parts {
        tokens.push(Token { column, octets })?;
        column += octets.len() + 1;
    }
    Ok(tokens)
}

/// The tokens of a line.
pub(crate) fn tokens_of(alloc: Global, line: &[u8]) -> Result<Vec<Token<'_>>, NoMemory>
    requires { length line.now ≤ 4096 }
    ensures { IfOk result (λ tokens. map token_view tokens.items ≡ words.placed 1 (slice_split words.is_space line.now)) }
{
    let parts = parts(alloc, line)?;
    placed(alloc, &parts)
}

/// The token as a word, which isn't empty.
fn sound(token: Token<'_>) -> Result<Word<'_>, ScriptFault>
    ensures { Says word_view result (words.sound (token_view token.entry)) }
{
    if token.octets.is_empty() {
        return Err(ScriptFault::BadWord(token.column));
    }
    match std::str::from_utf8(token.octets) {
        Ok(text) => Ok(Word {
            column: token.column,
            text,
        }),
        Err(fault) => Err(ScriptFault::BadWord(token.column + fault.valid_up_to())),
    }
}

/// The octets as a text, if they are one.
fn text_of(octets: &[u8]) -> Option<&str>
    ensures { option_map (λ t. t.now) result ≡ words.text_in octets.now }
{
    match std::str::from_utf8(octets) {
        Ok(text) => Some(text),
        Err(_) => None,
    }
}

impl<'a> Words<'a> {
    /// The words of a line of so many octets.
    pub(crate) fn new(tokens: &'a [Token<'a>], octets: usize) -> Words<'a>
        requires { octets ≤ 4096 }
        ensures { left_view result ≡ record { words = map token_view tokens.now; end = octets + 1 } }
    {
        Words {
            tokens,
            at: 0,
            end: octets + 1,
        }
    }

    /// The next token, if one is left.
    #[tactic(auto, using(crate::proofs::Cursor::first_left, crate::proofs::Cursor::no_first))]
    fn first(&self) -> Option<Token<'a>>
        ensures { option_map token_view result ≡ first_of (left_view self.now).words }
    {
        if self.at < self.tokens.len() {
            Some(self.tokens[self.at])
        } else {
            None
        }
    }

    /// Passes over the next token.
    #[tactic(auto, using(crate::proofs::Cursor::one_less, crate::proofs::Cursor::none_left))]
    pub(crate) fn pass(&mut self)
        ensures { left_view self.new ≡ words.passed (left_view self.old) }
    {
        if self.at < self.tokens.len() {
            self.at += 1;
        }
    }

    /// The next word, which has to be there.
    pub(crate) fn next(&mut self) -> Result<Word<'a>, ScriptFault>
        ensures { Takes word_view result self.new (words.next (left_view self.old)) }
    {
        let Some(token) = self.first() else {
            return Err(ScriptFault::BadWord(self.end));
        };
        self.pass();
        let word = sound(token)?;
        Ok(word)
    }

    /// Whether a word is left.
    pub(crate) fn has_more(&self) -> bool
        ensures { result ≡ is_some (first_of (left_view self.now).words) }
    {
        self.first().is_some()
    }

    /// The next word, if one is left that is UTF-8.
    pub(crate) fn peek(&self) -> Option<&'a str>
        ensures { option_map (λ t. t.now) result ≡ words.peeked (left_view self.now) }
    {
        match self.first() {
            Some(token) => text_of(token.octets),
            None => None,
        }
    }

    /// Whether the next word is this one, which is then passed over.
    pub(crate) fn skip(&mut self, word: &str) -> bool
        ensures { words.skipped word.now (left_view self.old) ≡ (result, left_view self.new) }
    {
        match self.first() {
            Some(token) if token.octets == word.as_bytes() => {
                self.pass();
                true
            }
            _ => false,
        }
    }

    /// No word may be left.
    pub(crate) fn end(&self) -> Result<(), ScriptFault>
        ensures { Says (λ x. x) result (words.ended (left_view self.now)) }
    {
        match self.first() {
            Some(token) => {
                let word = sound(token)?;
                Err(ScriptFault::BadWord(word.column))
            }
            None => Ok(()),
        }
    }
}
