//! Mailmaps read line by line.
ghost use Rattle.std.specs.Prelude.{◌≡◌, ◌==◌, ◌++◌, ◌<◌, length, option_map, MatchOption, IfOk, IfSome, OnOk};
ghost use Rattle.std.specs.List.{find, position};
ghost use Rattle.std.specs.Option.{option_to_list};
ghost use Rattle.bstr.specs.BStr.{bstr_bytes};
ghost use Rattle.gx_object.specs.Message.{is_space, is_no_space, unless_empty};
ghost use Rattle.gx_actor.specs.LineReading.{mailmap_entries, entry_of, entry_of_parts, entry_of_two, one_email, two_emails, cut, part_of, is_end};
ghost use Rattle.gx_actor.specs.LineViews.{part_text, entry_text};
ghost use Rattle.gx_actor.specs.MailmapLine.{IsMailmap};

use super::{Entry, MailmapEntries};
use bstr::BStr;
use gx_hash::{Bytes, NoMemory};
use gx_object::SignatureRef;
use std::alloc::Global;

/// The entries of the text's lines. Lines of no form are passed over.
pub fn parse_ignore_errors(alloc: Global, text: &[u8]) -> Result<MailmapEntries, NoMemory>
    ensures { IfOk result (λ entries. IsMailmap text.now entries) }
{
    Ok(MailmapEntries::from_vec(read_lines(alloc, text)?))
}

fn read_lines(alloc: Global, text: &[u8]) -> Result<Vec<Entry>, NoMemory>
    ensures { IfOk result (λ entries. entries.items ≡ mailmap_entries text.now) }
{
    let mut entries = Vec::new(alloc);
    let mut rest = text;
    while let Some((line, after)) = first_line(rest) {
        push_entry(alloc, &mut entries, line)?;
        rest = after;
    }
    push_entry(alloc, &mut entries, rest)?;
    Ok(entries)
}

fn push_entry(alloc: Global, entries: &mut Vec<Entry>, line: &[u8]) -> Result<(), NoMemory>
    ensures { OnOk result (entries.new.items ≡ entries.old.items ++ option_to_list (entry_of line.now)) }
{
    if let Some(entry) = read_line(line) {
        entries.push(entry.to_owned(alloc)?)?;
    }
    Ok(())
}

/// The first line and what follows its newline, where there is one.
fn first_line(text: &[u8]) -> Option<(&[u8], &[u8])>
    ensures { MatchOption result (mailmap_entries text.now ≡ option_to_list (entry_of text.now))
        (λ parts. (mailmap_entries text.now ≡ option_to_list (entry_of parts.0.now) ++ mailmap_entries parts.1.now)
        × (length parts.1.now < length text.now)) }
{
    match place_of(b'\n', text) {
        Some(at) => Some((text.split_at(at).0, text.split_at(at + 1).1)),
        None => None,
    }
}

/// An entry whose texts are slices of its line.
#[derive(Clone, Copy)]
struct EntryRef<'a> {
    new_name: Option<BStr<'a>>,
    new_email: Option<BStr<'a>>,
    old_name: Option<BStr<'a>>,
    old_email: BStr<'a>,
}

impl<'a> EntryRef<'a> {
    fn to_owned(&self, alloc: Global) -> Result<Entry, NoMemory>
        ensures { IfOk result (λ owned. owned ≡ entry_text self.now) }
    {
        Ok(Entry {
            new_name: owned(alloc, self.new_name)?,
            new_email: owned(alloc, self.new_email)?,
            old_name: owned(alloc, self.old_name)?,
            old_email: Bytes::from_slice(alloc, self.old_email.as_bytes())?,
        })
    }
}

fn owned(alloc: Global, text: Option<BStr<'_>>) -> Result<Option<Bytes>, NoMemory>
    ensures { IfOk result (λ owned. owned ≡ option_map bstr_bytes text.entry) }
{
    match text {
        Some(text) => Ok(Some(Bytes::from_slice(alloc, text.as_bytes())?)),
        None => Ok(None),
    }
}

/// A name, an email, and what follows the email's closing bracket.
#[derive(Clone, Copy)]
struct Part<'a> {
    name: BStr<'a>,
    email: BStr<'a>,
    rest: BStr<'a>,
}

fn read_line(line: &[u8]) -> Option<EntryRef<'_>>
    ensures { option_map entry_text result ≡ entry_of line.now }
{
    if line.starts_with(b"#") {
        return None;
    }
    read_parts(read_part(line)?)
}

fn read_parts(first: Part<'_>) -> Option<EntryRef<'_>>
    ensures { option_map entry_text result ≡ entry_of_parts (part_text first.entry) }
{
    if is_end(first.rest.as_bytes()) {
        return one_email(unless_empty(first.name), unless_empty(first.email));
    }
    let second = read_part(first.rest.as_bytes())?;
    read_two(first, second)
}

fn read_two<'a>(first: Part<'a>, second: Part<'a>) -> Option<EntryRef<'a>>
    ensures { option_map entry_text result ≡ entry_of_two (part_text first.entry) (part_text second.entry) }
{
    if !is_end(second.rest.as_bytes()) {
        return None;
    }
    two_emails(
        unless_empty(first.name),
        unless_empty(first.email),
        unless_empty(second.name),
        unless_empty(second.email),
    )
}

fn read_part(text: &[u8]) -> Option<Part<'_>>
    ensures { option_map part_text result ≡ part_of text.now }
{
    let (before, opened) = cut(b'<', text)?;
    let (inside, rest) = cut(b'>', opened)?;
    let who = SignatureRef {
        name: BStr::new(before),
        email: BStr::new(inside),
        time: BStr::new(rest),
    };
    let SignatureRef { name, email, time } = who.trim();
    Some(Part {
        name,
        email,
        rest: time,
    })
}

fn one_email<'a>(name: Option<BStr<'a>>, email: Option<BStr<'a>>) -> Option<EntryRef<'a>>
    ensures { option_map entry_text result
        ≡ one_email (option_map bstr_bytes name.entry) (option_map bstr_bytes email.entry) }
{
    Some(EntryRef {
        new_name: Some(name?),
        new_email: None,
        old_name: None,
        old_email: email?,
    })
}

fn two_emails<'a>(
    name: Option<BStr<'a>>,
    email: Option<BStr<'a>>,
    old_name: Option<BStr<'a>>,
    old_email: Option<BStr<'a>>,
) -> Option<EntryRef<'a>>
    ensures { option_map entry_text result
        ≡ two_emails (option_map bstr_bytes name.entry) (option_map bstr_bytes email.entry)
        (option_map bstr_bytes old_name.entry) (option_map bstr_bytes old_email.entry) }
{
    let email = email?;
    let old_email = old_email?;
    if name.is_none() && old_name.is_some() {
        return None;
    }
    Some(EntryRef {
        new_name: name,
        new_email: Some(email),
        old_name,
        old_email,
    })
}

/// Whether a line may end like this: in white space, or in a comment after it.
fn is_end(rest: &[u8]) -> bool
    ensures { result ≡ is_end rest.now }
{
    match first_text(rest) {
        Some(byte) => byte == b'#',
        None => true,
    }
}

fn first_text(text: &[u8]) -> Option<u8>
    ensures { result ≡ find is_no_space text.now }
{
    text.iter().copied().find(|byte| !is_space(*byte))
}

fn is_space(byte: u8) -> bool
    ensures { result ≡ is_space byte }
{
    byte == b' ' || (9 <= byte && byte <= 13)
}

fn unless_empty(text: BStr<'_>) -> Option<BStr<'_>>
    ensures { option_map bstr_bytes result ≡ unless_empty (bstr_bytes text.entry) }
{
    if text.as_bytes().is_empty() {
        None
    } else {
        Some(text)
    }
}

/// What is before the first such byte, and what is after it.
fn cut(byte: u8, text: &[u8]) -> Option<(&[u8], &[u8])>
    ensures value { option_map (λ parts. (parts.0.now, parts.1.now)) result ≡ cut byte text.now }
    ensures shorter { IfSome result (λ parts. length parts.1.now < length text.now) }
{
    let at = place_of(byte, text)?;
    Some((text.split_at(at).0, text.split_at(at + 1).1))
}

fn place_of(byte: u8, text: &[u8]) -> Option<usize>
    ensures at { result ≡ position (λ b. b == byte) text.now }
    ensures within { IfSome result (λ at. at < length text.now) }
{
    text.iter().position(|b| *b == byte)
}
