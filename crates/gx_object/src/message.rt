//! The parts of a message.
ghost use Rattle.std.specs.Prelude.{◌≡◌, ◌+◌, ◌++◌, ◌∷◌, ◌<◌, ◌≤◌, length, take, drop, reverse, IfOk, IfSome, OnOk, MatchOption, option_map};
ghost use Rattle.std.specs.List.{position, position_or_len};
ghost use Rattle.bstr.specs.BStr.{bstr_bytes};
ghost use Rattle.gx_object.specs.Message.{is_space, is_no_space, is_newline, trim_start, trim_end, blank_line, unless_empty, title_of, body_of, joined_lines, summary_of_title, summary_of};

use bstr::BStr;
use gx_hash::{Bytes, NoMemory};
use std::alloc::{AllocError, Global};

/// A message in its parts, which are lent from it.
#[derive(Clone, Copy, Debug)]
pub struct MessageRef<'a> {
    pub title: BStr<'a>,
    pub body: Option<BStr<'a>>,
}

impl<'a> MessageRef<'a> {
    pub fn from_bytes(message: &'a [u8]) -> MessageRef<'a>
        ensures title { bstr_bytes result.title ≡ title_of message.now }
        ensures body { option_map bstr_bytes result.body ≡ body_of message.now }
    {
        match blank_line(message) {
            None => MessageRef {
                title: BStr::new(message),
                body: None,
            },
            Some(at) => MessageRef {
                title: BStr::new(message.split_at(at).0),
                body: unless_empty(message.split_at(at + 2).1),
            },
        }
    }

    /// The title in one line.
    pub fn summary(&self, alloc: Global) -> Result<Bytes, NoMemory>
        ensures { IfOk result (λ summary. summary ≡ summary_of_title (bstr_bytes self.now.title)) }
    {
        summary_of_title(alloc, self.title.as_bytes())
    }
}

/// The title of the message in one line.
pub fn summary(alloc: Global, message: &[u8]) -> Result<Bytes, NoMemory>
    ensures { IfOk result (λ summary. summary ≡ summary_of message.now) }
{
    match blank_line(message) {
        Some(at) => summary_of_title(alloc, message.split_at(at).0),
        None => summary_of_title(alloc, message),
    }
}

fn unless_empty(body: &[u8]) -> Option<BStr<'_>>
    ensures { option_map bstr_bytes result ≡ unless_empty body.now }
{
    if body.is_empty() {
        None
    } else {
        Some(BStr::new(body))
    }
}

fn summary_of_title(alloc: Global, title: &[u8]) -> Result<Bytes, NoMemory>
    ensures { IfOk result (λ summary. summary ≡ summary_of_title title.now) }
{
    let title = trim_end(trim_start(title));
    let mut out = Vec::with_capacity(alloc, title.len())?;
    push_joined_lines(&mut out, title)?;
    Ok(Bytes::from_vec(out))
}

fn push_joined_lines(out: &mut Vec<u8>, text: &[u8]) -> Result<(), AllocError>
    ensures { OnOk result (out.new.items ≡ out.old.items ++ joined_lines text.now) }
{
    let mut rest = text;
    while let Some((line, after)) = split_joined(rest) {
        out.extend_from_slice(trim_end(line))?;
        out.push(b' ')?;
        rest = after;
    }
    out.extend_from_slice(trim_end(rest))
}

// The first line and what follows its newline, where there is one.
#[tactic(auto, using(crate::proofs::TitleLines::joined_found, crate::proofs::TitleLines::joined_missed))]
fn split_joined(text: &[u8]) -> Option<(&[u8], &[u8])>
    ensures { MatchOption result (joined_lines text.now ≡ trim_end text.now)
        (λ parts. (joined_lines text.now ≡ trim_end parts.0.now ++ (32 ∷ joined_lines parts.1.now))
        × (length parts.1.now < length text.now)) }
{
    match first_newline(text) {
        Some(at) => Some((text.split_at(at).0, text.split_at(at + 1).1)),
        None => None,
    }
}

fn first_newline(text: &[u8]) -> Option<usize>
    ensures at { result ≡ position is_newline text.now }
    ensures within { IfSome result (λ at. at < length text.now) }
{
    text.iter().position(|b| *b == b'\n')
}

// Where the first of two adjacent newlines is.
fn blank_line(message: &[u8]) -> Option<usize>
    ensures at { result ≡ blank_line message.now }
    ensures within { IfSome result (λ at. at + 2 ≤ length message.now) }
{
    message
        .iter()
        .zip(message.iter().skip(1))
        .position(|(a, b)| *a == b'\n' && *b == b'\n')
}

pub(crate) fn trim_start(text: &[u8]) -> &[u8]
    ensures { result.now ≡ trim_start text.now }
{
    let spaces = leading_spaces(text);
    text.split_at(spaces).1
}

pub(crate) fn trim_end(text: &[u8]) -> &[u8]
    ensures { result.now ≡ trim_end text.now }
{
    let spaces = trailing_spaces(text);
    text.split_at(text.len() - spaces).0
}

#[tactic(auto, using(crate::proofs::TitleLines::position_or_end))]
fn leading_spaces(text: &[u8]) -> usize
    ensures count { result ≡ position_or_len is_no_space text.now }
    ensures within { result ≤ length text.now }
{
    first_text(text).unwrap_or(text.len())
}

#[tactic(auto, using(crate::proofs::TitleLines::position_or_end))]
fn trailing_spaces(text: &[u8]) -> usize
    ensures count { result ≡ position_or_len is_no_space (reverse text.now) }
    ensures within { result ≤ length text.now }
{
    last_text(text).unwrap_or(text.len())
}

fn first_text(text: &[u8]) -> Option<usize>
    ensures at { result ≡ position is_no_space text.now }
    ensures within { IfSome result (λ at. at < length text.now) }
{
    text.iter().position(|b| !is_space(*b))
}

fn last_text(text: &[u8]) -> Option<usize>
    ensures at { result ≡ position is_no_space (reverse text.now) }
    ensures within { IfSome result (λ at. at < length text.now) }
{
    text.iter().rev().position(|b| !is_space(*b))
}

fn is_space(byte: u8) -> bool
    ensures { result ≡ is_space byte }
{
    byte == b' ' || (9 <= byte && byte <= 13)
}
