//! The file of secrets: lines of a role and a secret.

use mt_talk::tokens::Token;
use mt_wire::server::Role;
use std::alloc::Global;
use std::rt::Files;
use std::{fs, io};
use thiserror::Error;

// The fewest bytes of a secret.
const LEAST: usize = 16;

/// Why a file of secrets is none.
#[derive(Debug, Error, Drop)]
pub enum TokenError {
    /// It couldn't be read, or out of memory.
    #[error("the token file: {0}")]
    Io(#[from] io::Error),
    /// A line has no role, or too short a secret.
    #[error("line {0} of the token file is no role and secret of 16 bytes or more")]
    Line(u64),
    /// It has no line with a secret.
    #[error("the token file has no secret")]
    Empty,
}

fn role_named(name: &str) -> Option<Role> {
    match name {
        "read" => Some(Role::Read),
        "write" => Some(Role::Write),
        "all" => Some(Role::All),
        _ => None,
    }
}

// The token of a line.
fn token_of(line: &str) -> Option<Token> {
    let (name, secret) = line.split_once(' ')?;
    let role = role_named(name)?;
    (secret.len() >= LEAST).then_some(Token::new(role, secret.as_bytes()))
}

/// Returns the tokens of a file: one for each line that isn't empty.
///
/// # Errors
///
/// If the file couldn't be read, if a line is no role and secret of at least 16 bytes, if there is none, or if out of
/// memory.
pub fn read_tokens<R: Files + AllocGlobal>(
    rt: &R,
    alloc: Global,
    path: &str,
) -> Result<Vec<Token>, TokenError> {
    let text = fs::read_to_string(rt, path)?;
    let mut tokens = Vec::new(alloc);
    let mut number = 0u64;
    for line in text.as_str().lines() {
        number = number.saturating_add(1);
        if line.is_empty() {
            continue;
        }
        let Some(token) = token_of(line) else {
            return Err(TokenError::Line(number));
        };
        tokens.push(token).map_err(io::Error::from)?;
    }
    if tokens.is_empty() {
        return Err(TokenError::Empty);
    }
    Ok(tokens)
}
