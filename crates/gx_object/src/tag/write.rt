//! The bytes that spell tags.
ghost use Rattle.std.specs.Prelude.{◌≡◌, ◌++◌, codes, true, false, OnOk, IfSome, IfNone};
ghost use Rattle.gx_object.specs.Field.{first_unwritable};
ghost use Rattle.gx_object.specs.Tag.{type_line, name_line, tagger_line, signature_bytes, tag_head_bytes, tag_bytes, is_writable_tag_name, is_writable_tagger, is_writable_tag};
ghost use Rattle.gx_object.specs.declared.kind.Kind.TheVariants as object_kind;

use crate::commit::{has_no_newline, push_id_line, push_identity_line};
use crate::signature::{can_write_offset, can_write_text};
use crate::{EncodeError, Field, Kind, Signature, Tag, WriteTo};
use gx_hash::{Bytes, NoMemory};
use std::alloc::{AllocError, Global};

fn push_type_line(out: &mut Vec<u8>, kind: Kind) -> Result<(), AllocError>
    ensures { OnOk result (out.new.items ≡ out.old.items ++ type_line kind) }
{
    out.extend_from_slice(b"type ")?;
    out.extend_from_slice(kind.as_bytes())?;
    out.push(b'\n')?;
    Ok(())
}

fn push_name_line(out: &mut Vec<u8>, name: &[u8]) -> Result<(), AllocError>
    ensures { OnOk result (out.new.items ≡ out.old.items ++ name_line name.now) }
{
    out.extend_from_slice(b"tag ")?;
    out.extend_from_slice(name)?;
    out.push(b'\n')?;
    Ok(())
}

fn push_tagger(out: &mut Vec<u8>, tagger: &Option<Signature>) -> Result<(), NoMemory>
    ensures { OnOk result (out.new.items ≡ out.old.items ++ tagger_line tagger.now) }
{
    if let Some(who) = tagger {
        push_identity_line(out, b"tagger ", who)?;
    }
    Ok(())
}

fn push_signature(out: &mut Vec<u8>, signature: &Option<Bytes>) -> Result<(), NoMemory>
    ensures { OnOk result (out.new.items ≡ out.old.items ++ signature_bytes signature.now) }
{
    if let Some(text) = signature {
        out.extend_from_slice(text.as_slice())?;
    }
    Ok(())
}

#[tactic(auto, unfolding(crate::specs::Tag::tag_head_bytes))]
fn push_head(out: &mut Vec<u8>, tag: &Tag) -> Result<(), NoMemory>
    ensures { OnOk result (out.new.items ≡ out.old.items ++ tag_head_bytes tag.now) }
{
    push_id_line(out, b"object ", &tag.target)?;
    push_type_line(out, tag.target_kind)?;
    push_name_line(out, tag.name.as_slice())?;
    push_tagger(out, &tag.tagger)
}

#[tactic(auto, unfolding(crate::specs::Tag::tag_bytes))]
fn push_tag(out: &mut Vec<u8>, tag: &Tag) -> Result<(), NoMemory>
    ensures { OnOk result (out.new.items ≡ out.old.items ++ tag_bytes tag.now) }
{
    push_head(out, tag)?;
    out.push(b'\n')?;
    out.extend_from_slice(tag.message.as_slice())?;
    push_signature(out, &tag.signature)
}

// How many bytes a tag takes at most, to reserve them at once.
fn room_of_tag(tag: &Tag) -> usize {
    let lines = b"object \ntype commit\ntag \n\n".len() + tag.target.kind().len_in_hex();
    lines
        .saturating_add(tag.name.as_slice().len())
        .saturating_add(room_of_tagger(&tag.tagger))
        .saturating_add(tag.message.as_slice().len())
        .saturating_add(room_of_signature(&tag.signature))
}

fn room_of_tagger(tagger: &Option<Signature>) -> usize {
    match tagger {
        None => 0,
        Some(who) => b"tagger  <> -9223372036854775808 +9959\n"
            .len()
            .saturating_add(who.name.as_slice().len())
            .saturating_add(who.email.as_slice().len()),
    }
}

fn room_of_signature(signature: &Option<Bytes>) -> usize {
    match signature {
        None => 0,
        Some(text) => text.as_slice().len(),
    }
}

fn can_write_name(name: &[u8]) -> bool
    ensures { result ≡ is_writable_tag_name name.now }
{
    !name.is_empty() && has_no_newline(name)
}

// The first field of the tagger that can't be written.
fn unwritable_tagger(tagger: &Option<Signature>) -> Option<Field>
    ensures first { result ≡ first_unwritable (is_writable_tagger tagger.now) }
    ensures found { IfSome result (λ field. is_writable_tagger tagger.now field ≡ false) }
    ensures none { IfNone result ((field : _) → is_writable_tagger tagger.now field ≡ true) }
{
    let who = tagger.as_ref()?;
    if !can_write_text(who.name.as_slice()) {
        Some(Field::TaggerName)
    } else if !can_write_text(who.email.as_slice()) {
        Some(Field::TaggerEmail)
    } else if !can_write_offset(who.time.offset) {
        Some(Field::TaggerOffset)
    } else {
        None
    }
}

// The first field that can't be written.
#[tactic(auto, using(crate::proofs::TagFields::all_writable))]
fn unwritable_field(tag: &Tag) -> Option<Field>
    ensures first { result ≡ first_unwritable (is_writable_tag tag.now) }
    ensures found { IfSome result (λ field. is_writable_tag tag.now field ≡ false) }
    ensures none { IfNone result ((field : _) → is_writable_tag tag.now field ≡ true) }
{
    if let Some(field) = unwritable_tagger(&tag.tagger) {
        Some(field)
    } else if !can_write_name(tag.name.as_slice()) {
        Some(Field::TagName)
    } else {
        None
    }
}

impl WriteTo for Tag {
    ghost object_kind = { λ _. object_kind.Tag };

    ghost spelling = { tag_bytes };

    ghost is_writable = { is_writable_tag };

    fn kind(&self) -> Kind {
        Kind::Tag
    }

    fn to_bytes(&self, alloc: Global) -> Result<Bytes, EncodeError> {
        if let Some(field) = unwritable_field(self) {
            return Err(EncodeError::Unwritable { field });
        }
        let mut out = Vec::with_capacity(alloc, room_of_tag(self))?;
        push_tag(&mut out, self)?;
        Ok(Bytes::from_vec(out))
    }
}
