//! The front end of a small language of settings: its lexer, its parser, and the diagnostic of each
//! error.
//!
//! A line is empty or sets a name to a number or to a name above.

ghost use Rattle.std.specs.Prelude.{◌≡◌, ◌≤◌, All, IfOk, IfSome, length, slice_get};
ghost use Rattle.examples.specs.Bytes.{byte_range};

use codespan_base::diagnostic::{Diagnostic, Label, LabelStyle};
use codespan_base::files::Error;
use std::alloc::{AllocError, Global};

/// A token, as a byte range of the text.
#[derive(Clone, Copy)]
pub struct Token {
    /// The byte index at which it starts.
    pub start: usize,
    /// The byte index at which it ends, exclusive.
    pub end: usize,
}

/// A setting.
#[derive(Clone, Copy)]
pub struct Setting {
    /// Its name, as a token of the text.
    pub name: Token,
    /// Its value.
    pub value: u16,
}

/// The error of a line.
#[derive(Clone, Copy)]
pub struct ParseError {
    /// Its message.
    pub message: &'static str,
    /// The token that is wrong.
    pub token: Token,
    /// If the token is a name that is set twice, the name where it is set first.
    pub first: Option<Token>,
}

impl ParseError {
    /// Returns the diagnostic of the error, whose first label is on the token.
    ///
    /// # Errors
    ///
    /// `OutOfMemory`: an allocation fails.
    pub fn diagnostic(&self, alloc: Global) -> Result<Diagnostic<()>, Error>
        ensures { IfOk result (λ d. IfSome (slice_get d.labels.items 0) (λ label.
            (label.style ≡ LabelStyle.Primary) × (label.range ≡ byte_range self.now.token))) }
    {
        let label = Label::primary(alloc, (), self.token.start..self.token.end);
        let error = Diagnostic::error(alloc)
            .with_message(self.message)?
            .with_label(label)?;
        let Some(token) = self.first else {
            return Ok(error);
        };
        let before = Label::secondary(alloc, (), token.start..token.end);
        error.with_label(before.with_message("first set here")?)
    }
}

/// Returns the tokens of a text: runs of ASCII letters and digits, and each newline and each other
/// byte that is not ASCII whitespace.
///
/// # Errors
///
/// `AllocError`: an allocation fails.
pub fn lex(alloc: Global, text: &str) -> Result<Vec<Token>, AllocError>
    ensures { IfOk result (λ tokens. All (λ token. token.end ≤ length text.now) tokens.items) }
{
    let mut tokens = Vec::new(alloc);
    let mut start = None;
    for (index, byte) in text.bytes().enumerate() {
        if byte.is_ascii_alphanumeric() {
            start = start.or(Some(index));
            continue;
        }
        if let Some(start) = start.take() {
            tokens.push(Token { start, end: index })?;
        }
        if byte == b'\n' || !byte.is_ascii_whitespace() {
            let end = index + 1;
            tokens.push(Token { start: index, end })?;
        }
    }
    if let Some(start) = start {
        let end = text.len();
        tokens.push(Token { start, end })?;
    }
    Ok(tokens)
}

/// Returns the text of a token; an empty one if the token is not inside the text or cuts a
/// character.
pub fn token_text(text: &str, token: Token) -> &str {
    text.get(token.start..token.end).unwrap_or("")
}

/// Returns the setting with the name that this token is, if there is one.
fn find(text: &str, settings: &[Setting], name: Token) -> Option<Setting> {
    let is_named = |s: &&Setting| token_text(text, s.name) == token_text(text, name);
    settings.iter().find(is_named).copied()
}

/// Returns the setting of a line, whose tokens have no newline; `None` for an empty line.
///
/// # Errors
///
/// The first of these: the line begins with `=`; its second token is not `=`; it has more than
/// three tokens; its name is set above; its value is neither a number from 0 to 65535 nor a name
/// that is set above; it has no value.
pub fn parse(text: &str, above: &[Setting], line: &[Token]) -> Result<Option<Setting>, ParseError> {
    let (message, token, first) = match line {
        [] => return Ok(None),
        [name, ..] if token_text(text, *name) == "=" => ("expected a name", *name, None),
        [_, equals, ..] if token_text(text, *equals) != "=" => ("expected `=`", *equals, None),
        [_, _, _, extra, ..] => ("expected the end of the line", *extra, None),
        [name, _, value] => match (find(text, above, *name), evaluate(text, above, *value)) {
            (Some(first), _) => ("this name is set twice", *name, Some(first.name)),
            (None, None) => ("expected 0 to 65535, or a name above", *value, None),
            (None, Some(value)) => return Ok(Some(Setting { name: *name, value })),
        },
        [name, ..] => ("expected `=` and a value after this name", *name, None),
    };
    Err(ParseError {
        message,
        token,
        first,
    })
}

/// Returns the value of a token: its number, or else the value of the setting with this name.
fn evaluate(text: &str, settings: &[Setting], token: Token) -> Option<u16> {
    match token_text(text, token).parse() {
        Ok(number) => Some(number),
        Err(_) => Some(find(text, settings, token)?.value),
    }
}
