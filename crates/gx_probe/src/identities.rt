//! Rows on identities, times and messages. An identity's fields are its name, its email, its seconds and its offset.

use crate::fields::split_fields;
use crate::objects::{field_word, texts};
use bstr::BStr;
use gx_hash::{Bytes, HashKind};
use gx_object::{
    CommitRefIter, MessageRef, Signature, SignatureError, SignatureRef, Time, is_writable_identity,
    push_identity, summary, unwritable_identity,
};
use probe_rows::ProbeError;
use probe_rows::answers::{push_field, push_shown, quoted, shown, signed_of, truth, word};
use std::alloc::Global;

/// The answers to rows on identities, times and messages.
pub fn answer(alloc: Global, call: &str, fields: &[Vec<u8>]) -> Result<Vec<u8>, ProbeError> {
    match fields {
        [text] => answer_text(alloc, call, text),
        [name, email, time] => answer_ref(alloc, call, &identity_ref(name, email, time)),
        _ => answer_identity(alloc, call, fields),
    }
}

fn answer_text(alloc: Global, call: &str, text: &[u8]) -> Result<Vec<u8>, ProbeError> {
    match call {
        "time" => time(alloc, text),
        "time_message" => time_message(alloc, text),
        "seconds" => seconds(alloc, text),
        "identity" => split(alloc, text),
        "message" => parts(alloc, text),
        "summary" => summary_of(alloc, text),
        "title_summary" => title_summary(alloc, text),
        _ => Err(ProbeError::UnknownCall),
    }
}

fn identity_ref<'a>(name: &'a [u8], email: &'a [u8], time: &'a [u8]) -> SignatureRef<'a> {
    SignatureRef {
        name: BStr::new(name),
        email: BStr::new(email),
        time: BStr::new(time),
    }
}

fn time(alloc: Global, text: &[u8]) -> Result<Vec<u8>, ProbeError> {
    match identity_ref(b"", b"", text).time() {
        Ok(time) => seconds_and_offset(alloc, time),
        Err(_) => word(alloc, "bad-time"),
    }
}

fn seconds(alloc: Global, text: &[u8]) -> Result<Vec<u8>, ProbeError> {
    shown(alloc, &identity_ref(b"", b"", text).seconds())
}

/// The words on why the text is no time.
fn time_message(alloc: Global, text: &[u8]) -> Result<Vec<u8>, ProbeError> {
    match identity_ref(b"", b"", text).time() {
        Ok(_) => word(alloc, "ok"),
        Err(error) => shown(alloc, &error),
    }
}

fn seconds_and_offset(alloc: Global, time: Time) -> Result<Vec<u8>, ProbeError> {
    let mut answer = shown(alloc, &time.seconds)?;
    push_shown(alloc, &mut answer, &time.offset)?;
    Ok(answer)
}

/// The parts of an identity as a commit's author has them, or where the commit goes wrong.
fn split(alloc: Global, text: &[u8]) -> Result<Vec<u8>, ProbeError> {
    let mut bytes = Vec::new(alloc);
    bytes.extend_from_slice(b"tree 4b825dc642cb6eb9a060e54bf8d69288fbee4904\nauthor ")?;
    bytes.extend_from_slice(text)?;
    bytes.push(b'\n')?;
    let author = CommitRefIter::from_bytes(&bytes, HashKind::Sha1).author()?;
    texts(alloc, &author)
}

/// The title of a message, and its body where it has one.
fn parts(alloc: Global, text: &[u8]) -> Result<Vec<u8>, ProbeError> {
    let message = MessageRef::from_bytes(text);
    let mut answer = quoted(alloc, message.title.as_bytes())?;
    if let Some(body) = message.body {
        push_field(&mut answer, body.as_bytes())?;
    }
    Ok(answer)
}

fn summary_of(alloc: Global, text: &[u8]) -> Result<Vec<u8>, ProbeError> {
    quoted(alloc, summary(alloc, text)?.as_slice())
}

fn title_summary(alloc: Global, text: &[u8]) -> Result<Vec<u8>, ProbeError> {
    let title = MessageRef::from_bytes(text).summary(alloc)?;
    quoted(alloc, title.as_slice())
}

fn answer_ref(alloc: Global, call: &str, who: &SignatureRef<'_>) -> Result<Vec<u8>, ProbeError> {
    match call {
        "own_identity" => owned(alloc, who),
        "trim_identity" => texts(alloc, &who.trim()),
        _ => Err(ProbeError::UnknownCall),
    }
}

fn owned(alloc: Global, who: &SignatureRef<'_>) -> Result<Vec<u8>, ProbeError> {
    match who.to_owned(alloc) {
        Ok(owned) => shown_identity(alloc, &owned),
        Err(SignatureError::BadTime) => word(alloc, "bad-time"),
        Err(SignatureError::NoMemory) => Err(ProbeError::NoMemory),
    }
}

fn shown_identity(alloc: Global, who: &Signature) -> Result<Vec<u8>, ProbeError> {
    let mut answer = quoted(alloc, who.name.as_slice())?;
    push_field(&mut answer, who.email.as_slice())?;
    push_field(&mut answer, &seconds_and_offset(alloc, who.time)?)?;
    Ok(answer)
}

/// The identity that four fields are.
pub fn identity_in(alloc: Global, fields: &[Vec<u8>]) -> Result<Signature, ProbeError> {
    let [name, email, seconds, offset] = fields else {
        return Err(ProbeError::UnknownCall);
    };
    Ok(Signature {
        time: time_of(seconds, offset).ok_or(ProbeError::UnknownCall)?,
        name: Bytes::from_slice(alloc, name)?,
        email: Bytes::from_slice(alloc, email)?,
    })
}

fn time_of(seconds: &[u8], offset: &[u8]) -> Option<Time> {
    Some(Time {
        seconds: signed_of(seconds)?,
        offset: i32::try_from(signed_of(offset)?).ok()?,
    })
}

fn answer_identity(alloc: Global, call: &str, fields: &[Vec<u8>]) -> Result<Vec<u8>, ProbeError> {
    match call {
        "write_identity" => written(alloc, &identity_in(alloc, fields)?),
        "copy_identity" => copied(alloc, fields),
        "is_writable_identity" => is_writable(alloc, fields),
        "unwritable" => answer_unwritable(alloc, fields),
        _ => Err(ProbeError::UnknownCall),
    }
}

fn copied(alloc: Global, fields: &[Vec<u8>]) -> Result<Vec<u8>, ProbeError> {
    let who = identity_in(alloc, fields)?;
    written(alloc, &who.try_clone()?)
}

fn is_writable(alloc: Global, fields: &[Vec<u8>]) -> Result<Vec<u8>, ProbeError> {
    let who = identity_in(alloc, fields)?;
    truth(alloc, is_writable_identity(&who))
}

fn written(alloc: Global, who: &Signature) -> Result<Vec<u8>, ProbeError> {
    let mut out = Vec::new(alloc);
    push_identity(&mut out, who)?;
    quoted(alloc, &out)
}

/// The first field of an author and a committer that can't be written.
fn answer_unwritable(alloc: Global, fields: &[Vec<u8>]) -> Result<Vec<u8>, ProbeError> {
    let (author, committer) = split_fields(fields, 4)?;
    let author = identity_in(alloc, author)?;
    let committer = identity_in(alloc, committer)?;
    match unwritable_identity(&author, &committer) {
        Some(field) => word(alloc, field_word(field)),
        None => word(alloc, "none"),
    }
}
