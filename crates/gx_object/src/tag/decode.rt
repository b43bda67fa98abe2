//! Tags as objects contain them.
ghost use Rattle.std.specs.Prelude.{◌≡◌, ◌↔◌, IfOk, IfErr, IsErrOf, MatchResult};
ghost use Rattle.std.specs.Option.{option_map};
ghost use Rattle.bstr.specs.BStr.{bstr_bytes};
ghost use Rattle.gx_hash.specs.declared.kind.HashKind.{HashKind};
ghost use Rattle.gx_hash.specs.HashKind.{IsOfKind};
ghost use Rattle.gx_hash.specs.ObjectId.{hex_of};
ghost use Rattle.gx_hash.specs.IdDigits.{IsHexId};
ghost use Rattle.gx_object.specs.IdentitySpelling.{identity_text};
ghost use Rattle.gx_object.specs.OwnedTag.{IsIdText, OwnsTagger, OwnsTag, HasBadTime};
ghost use Rattle.gx_object.specs.TagSpelling.{TagText, tag_text, SpellsTag, RefusesTag};

use crate::commit::{bad_line, id_line};
use crate::tag::lines::{body, name_line, tagger_line, type_line};
use crate::{DecodeError, Kind, Signature, SignatureError, SignatureRef, Tag};
use bstr::BStr;
use gx_hash::{Bytes, HashKind, NoMemory, ObjectId};
use std::alloc::Global;

/// An annotated tag as an object contains it. All texts are slices of the object.
#[derive(Clone, Copy, Debug)]
pub struct TagRef<'a> {
    /// The digits of the target's id.
    pub target: BStr<'a>,
    /// The kind of the target.
    pub target_kind: Kind,
    /// The tag's name, without `refs/tags/`.
    pub name: BStr<'a>,
    pub tagger: Option<SignatureRef<'a>>,
    pub message: BStr<'a>,
    /// The signature from its first line on.
    pub signature: Option<BStr<'a>>,
}

impl<'a> TagRef<'a> {
    /// The tag that the bytes spell, in a repository of this kind. It takes no memory.
    pub fn from_bytes(bytes: &'a [u8], hash: HashKind) -> Result<TagRef<'a>, DecodeError>
        ensures ok { IfOk result (λ t. SpellsTag hash bytes.now (tag_text t)) }
        ensures only { (t : TagText) → SpellsTag hash bytes.now t → IfOk result (λ found. tag_text found ≡ t) }
        ensures causes { IfErr result (RefusesTag hash bytes.now) }
        ensures id { IfOk result (λ t. IsIdText (tag_text t).target) }
    {
        read_tag(bytes, hash)
    }

    /// A copy that owns its texts. The tagger's time is read first.
    pub fn to_owned(&self, alloc: Global) -> Result<Tag, SignatureError>
        requires { IsIdText (tag_text self.now).target }
        ensures ok { IfOk result (OwnsTag (tag_text self.now)) }
        ensures kind { (hash : HashKind) → IsHexId hash (tag_text self.now).target
            → IfOk result (λ owned. IsOfKind hash owned.target) }
        ensures causes { IsErrOf result SignatureError.BadTime ↔ HasBadTime (tag_text self.now).tagger }
    {
        let tagger = owned_tagger(alloc, &self.tagger)?;
        Ok(Tag {
            target: ObjectId::from_digits(self.target.as_bytes()),
            target_kind: self.target_kind,
            name: Bytes::from_slice(alloc, self.name.as_bytes())?,
            tagger,
            message: Bytes::from_slice(alloc, self.message.as_bytes())?,
            signature: owned_text(alloc, &self.signature)?,
        })
    }
}

fn owned_tagger(
    alloc: Global,
    tagger: &Option<SignatureRef<'_>>,
) -> Result<Option<Signature>, SignatureError>
    ensures ok { IfOk result (OwnsTagger (option_map identity_text tagger.now)) }
    ensures causes { IsErrOf result SignatureError.BadTime ↔ HasBadTime (option_map identity_text tagger.now) }
{
    match tagger {
        None => Ok(None),
        Some(who) => match who.to_owned(alloc) {
            Ok(owned) => Ok(Some(owned)),
            Err(error) => Err(error),
        },
    }
}

fn owned_text(alloc: Global, text: &Option<BStr<'_>>) -> Result<Option<Bytes>, NoMemory>
    ensures { IfOk result (λ owned. owned ≡ option_map bstr_bytes text.now) }
{
    match text {
        None => Ok(None),
        Some(text) => Ok(Some(Bytes::from_slice(alloc, text.as_bytes())?)),
    }
}

fn read_tag(bytes: &[u8], hash: HashKind) -> Result<TagRef<'_>, DecodeError>
    ensures { MatchResult result (λ t. SpellsTag hash bytes.now (tag_text t)) (RefusesTag hash bytes.now) }
{
    let Some((target, rest)) = id_line(bytes, b"object ", hash) else {
        return Err(bad_line(bytes, bytes));
    };
    let Some((target_kind, rest)) = type_line(rest) else {
        return Err(bad_line(bytes, rest));
    };
    let Some((name, rest)) = name_line(rest) else {
        return Err(bad_line(bytes, rest));
    };
    let (tagger, rest) = tagger_line(rest);
    let Some((message, signature)) = body(rest) else {
        return Err(bad_line(bytes, rest));
    };
    Ok(TagRef {
        target,
        target_kind,
        name,
        tagger,
        message,
        signature,
    })
}
