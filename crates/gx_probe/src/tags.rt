//! Rows on tags. A tag that is written is told by its target's id and kind, its name, its tagger by four fields or
//! the one field `none`, its message, and its signature or `none`.

use crate::fields::{hash_in, id_in, kind_in, split_fields, text_in};
use crate::identities::identity_in;
use crate::objects::{
    Cuts, push_named_id, push_part, push_who, rewrite_tag, size_and_id, spelled, texts,
};
use gx_hash::{Bytes, HashKind};
use gx_object::{Signature, Tag, TagRef, TagRefIter, TagToken, WriteTo};
use probe_rows::ProbeError;
use probe_rows::answers::{again, hex, push_failure, push_word, word};
use std::alloc::Global;

/// The answers to rows on tags.
pub fn answer(alloc: Global, call: &str, fields: &[Vec<u8>]) -> Result<Vec<u8>, ProbeError> {
    match fields {
        [hash, bytes] => answer_read(alloc, call, hash_in(hash)?, bytes),
        [hash, fields @ ..] => answer_written(alloc, call, hash_in(hash)?, fields),
        _ => Err(ProbeError::UnknownCall),
    }
}

fn answer_read(
    alloc: Global,
    call: &str,
    hash: HashKind,
    bytes: &[u8],
) -> Result<Vec<u8>, ProbeError> {
    match call {
        "tag" => read_tag(alloc, hash, bytes),
        "tag_again" => read_again(alloc, hash, bytes),
        "tag_items" => items(alloc, hash, bytes),
        "tag_cuts" => cuts(alloc, hash, bytes),
        "tag_target" => target(alloc, hash, bytes),
        "tag_tagger" => tagger(alloc, hash, bytes),
        _ => Err(ProbeError::UnknownCall),
    }
}

fn read_again(alloc: Global, hash: HashKind, bytes: &[u8]) -> Result<Vec<u8>, ProbeError> {
    again(alloc, bytes, &rewrite_tag(alloc, bytes, hash)?)
}

fn target(alloc: Global, hash: HashKind, bytes: &[u8]) -> Result<Vec<u8>, ProbeError> {
    hex(alloc, &TagRefIter::from_bytes(bytes, hash).target_id()?)
}

fn read_tag(alloc: Global, hash: HashKind, bytes: &[u8]) -> Result<Vec<u8>, ProbeError> {
    let tag = TagRef::from_bytes(bytes, hash)?;
    let mut answer = Vec::new(alloc);
    push_head(&mut answer, &tag)?;
    push_body(&mut answer, &tag)?;
    Ok(answer)
}

fn push_head(answer: &mut Vec<u8>, tag: &TagRef<'_>) -> Result<(), ProbeError> {
    push_part(answer, "object", tag.target.as_bytes())?;
    push_part(answer, "type", tag.target_kind.as_bytes())?;
    push_part(answer, "tag", tag.name.as_bytes())
}

fn push_body(answer: &mut Vec<u8>, tag: &TagRef<'_>) -> Result<(), ProbeError> {
    if let Some(tagger) = &tag.tagger {
        push_who(answer, "tagger", tagger)?;
    }
    push_part(answer, "message", tag.message.as_bytes())?;
    match tag.signature {
        Some(signature) => push_part(answer, "signature", signature.as_bytes()),
        None => Ok(()),
    }
}

/// The parts that the iterator gives, the error after them if there is one, and `end`.
fn items(alloc: Global, hash: HashKind, bytes: &[u8]) -> Result<Vec<u8>, ProbeError> {
    let mut answer = Vec::new(alloc);
    for item in TagRefIter::from_bytes(bytes, hash) {
        match item {
            Ok(token) => push_token(&mut answer, token)?,
            Err(error) => push_failure(alloc, &mut answer, ProbeError::from(error))?,
        }
    }
    push_word(&mut answer, "end")?;
    Ok(answer)
}

fn push_token(answer: &mut Vec<u8>, token: TagToken<'_>) -> Result<(), ProbeError> {
    match token {
        TagToken::Target { id } => push_named_id(answer, "object", &id),
        TagToken::TargetKind(kind) => push_part(answer, "type", kind.as_bytes()),
        TagToken::Name(name) => push_part(answer, "tag", name.as_bytes()),
        TagToken::Tagger { signature } => push_who(answer, "tagger", &signature),
        TagToken::Body { message, signature } => {
            push_part(answer, "message", message.as_bytes())?;
            match signature {
                Some(text) => push_part(answer, "signature", text.as_bytes()),
                None => Ok(()),
            }
        }
    }
}

/// For each number of the first bytes, how they are read.
fn cuts(alloc: Global, hash: HashKind, bytes: &[u8]) -> Result<Vec<u8>, ProbeError> {
    let mut cuts = Cuts::new(alloc);
    for end in 0..=bytes.len() {
        let front = bytes.get(..end).unwrap_or(bytes);
        cuts.add(read_tag(alloc, hash, front).map(|_| ()))?;
    }
    cuts.into_answer()
}

fn tagger(alloc: Global, hash: HashKind, bytes: &[u8]) -> Result<Vec<u8>, ProbeError> {
    match TagRefIter::from_bytes(bytes, hash).tagger()? {
        Some(who) => texts(alloc, &who),
        None => word(alloc, "none"),
    }
}

fn answer_written(
    alloc: Global,
    call: &str,
    hash: HashKind,
    fields: &[Vec<u8>],
) -> Result<Vec<u8>, ProbeError> {
    match call {
        "write_tag" => written(alloc, fields),
        "tag_id" => id_of_written(alloc, hash, fields),
        _ => Err(ProbeError::UnknownCall),
    }
}

fn written(alloc: Global, fields: &[Vec<u8>]) -> Result<Vec<u8>, ProbeError> {
    let tag = tag_in(alloc, fields)?;
    spelled(alloc, tag.to_bytes(alloc))
}

fn id_of_written(alloc: Global, hash: HashKind, fields: &[Vec<u8>]) -> Result<Vec<u8>, ProbeError> {
    let tag = tag_in(alloc, fields)?;
    size_and_id(alloc, hash, tag.kind(), tag.to_bytes(alloc))
}

fn tag_in(alloc: Global, fields: &[Vec<u8>]) -> Result<Tag, ProbeError> {
    let (places, texts) = split_fields(fields, 3)?;
    let mut tag = tag_at(alloc, places)?;
    set_texts(alloc, &mut tag, texts)?;
    Ok(tag)
}

/// The tag of a target, its kind and a name, without a tagger and texts.
fn tag_at(alloc: Global, places: &[Vec<u8>]) -> Result<Tag, ProbeError> {
    let [target, kind, name] = places else {
        return Err(ProbeError::UnknownCall);
    };
    Ok(Tag {
        target: id_in(target)?,
        target_kind: kind_in(kind)?,
        name: Bytes::from_slice(alloc, name)?,
        tagger: None,
        message: Bytes::from_vec(Vec::new(alloc)),
        signature: None,
    })
}

fn set_texts(alloc: Global, tag: &mut Tag, texts: &[Vec<u8>]) -> Result<(), ProbeError> {
    let [tagger @ .., message, signature] = texts else {
        return Err(ProbeError::UnknownCall);
    };
    tag.tagger = tagger_in(alloc, tagger)?;
    tag.message = Bytes::from_slice(alloc, message)?;
    tag.signature = text_in(alloc, signature)?;
    Ok(())
}

/// The tagger of four fields, or none of the one field `none`.
fn tagger_in(alloc: Global, fields: &[Vec<u8>]) -> Result<Option<Signature>, ProbeError> {
    match fields {
        [word] if word.as_slice() == b"none".as_slice() => Ok(None),
        _ => Ok(Some(identity_in(alloc, fields)?)),
    }
}
