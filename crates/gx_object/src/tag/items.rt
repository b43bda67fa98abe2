//! The parts of a tag, and how each is read.
ghost use Rattle.std.specs.Prelude.{MatchOption, IfSome, Some, Ok};
ghost use Rattle.gx_hash.specs.declared.kind.HashKind.{HashKind};
ghost use Rattle.gx_object.specs.TagFronts.{Target, TargetKind, Name, Tagger, next_of};
ghost use Rattle.gx_object.specs.TagItems.{HasKind, item_of};
ghost use Rattle.gx_object.specs.TagStages.{ItemAt, IsBodyItem, NoItemAt};
ghost use Rattle.gx_object.specs.TagLines.{IsNoBody};

use crate::commit::{id_line, id_of, identity_line};
use crate::tag::lines::{body, name_line, type_line};
use crate::{Kind, SignatureRef};
use bstr::BStr;
use gx_hash::{HashKind, ObjectId};

/// A part of a tag.
#[derive(Clone, Copy, Debug)]
pub enum TagToken<'a> {
    Target {
        id: ObjectId,
    },
    TargetKind(Kind),
    Name(BStr<'a>),
    /// Who made the tag, where it has a tagger.
    Tagger {
        signature: SignatureRef<'a>,
    },
    Body {
        message: BStr<'a>,
        signature: Option<BStr<'a>>,
    },
}

/// What comes next in a tag: its target, the kind of that, its name, the tagger or the body, the body, nothing.
#[derive(Clone, Copy, Debug, PartialEq, Eq)]
pub(crate) enum Stage {
    Target,
    TargetKind,
    Name,
    Tagger,
    Body,
    End,
}

// A part, what follows it, and what comes next there.
type Step<'a> = (TagToken<'a>, &'a [u8], Stage);

fn target_item(bytes: &[u8], hash: HashKind) -> Option<Step<'_>>
    ensures item { MatchOption result (NoItemAt hash Target bytes.now)
        (λ p. ItemAt hash Target bytes.now (item_of p.0) p.1.now (next_of p.2)) }
    ensures kind { IfSome result (λ p. HasKind hash (Some (Ok p.0))) }
{
    let (text, rest) = id_line(bytes, b"object ", hash)?;
    let id = id_of(text.as_bytes(), hash);
    Some((TagToken::Target { id }, rest, Stage::TargetKind))
}

fn kind_item(bytes: &[u8]) -> Option<Step<'_>>
    ensures item { (hash : HashKind)
        → MatchOption result (NoItemAt hash TargetKind bytes.now)
        (λ p. ItemAt hash TargetKind bytes.now (item_of p.0) p.1.now (next_of p.2)) }
    ensures kind { (hash : HashKind) → IfSome result (λ p. HasKind hash (Some (Ok p.0))) }
{
    let (kind, rest) = type_line(bytes)?;
    Some((TagToken::TargetKind(kind), rest, Stage::Name))
}

fn name_item(bytes: &[u8]) -> Option<Step<'_>>
    ensures item { (hash : HashKind)
        → MatchOption result (NoItemAt hash Name bytes.now)
        (λ p. ItemAt hash Name bytes.now (item_of p.0) p.1.now (next_of p.2)) }
    ensures kind { (hash : HashKind) → IfSome result (λ p. HasKind hash (Some (Ok p.0))) }
{
    let (name, rest) = name_line(bytes)?;
    Some((TagToken::Name(name), rest, Stage::Tagger))
}

fn tagger_or_body(bytes: &[u8]) -> Option<Step<'_>>
    ensures item { (hash : HashKind)
        → MatchOption result (NoItemAt hash Tagger bytes.now)
        (λ p. ItemAt hash Tagger bytes.now (item_of p.0) p.1.now (next_of p.2)) }
    ensures kind { (hash : HashKind) → IfSome result (λ p. HasKind hash (Some (Ok p.0))) }
{
    let Some((signature, rest)) = identity_line(bytes, b"tagger ") else {
        return body_item(bytes);
    };
    Some((TagToken::Tagger { signature }, rest, Stage::Body))
}

fn body_item(bytes: &[u8]) -> Option<Step<'_>>
    ensures item { MatchOption result (IsNoBody bytes.now) (λ p. IsBodyItem bytes.now (item_of p.0) (next_of p.2)) }
    ensures kind { (hash : HashKind) → IfSome result (λ p. HasKind hash (Some (Ok p.0))) }
{
    let (message, signature) = body(bytes)?;
    Some((TagToken::Body { message, signature }, b"", Stage::End))
}

pub(crate) fn next_item(bytes: &[u8], stage: Stage, hash: HashKind) -> Option<Step<'_>>
    ensures item { MatchOption result (NoItemAt hash (next_of stage) bytes.now)
        (λ p. ItemAt hash (next_of stage) bytes.now (item_of p.0) p.1.now (next_of p.2)) }
    ensures kind { IfSome result (λ p. HasKind hash (Some (Ok p.0))) }
{
    match stage {
        Stage::Target => target_item(bytes, hash),
        Stage::TargetKind => kind_item(bytes),
        Stage::Name => name_item(bytes),
        Stage::Tagger => tagger_or_body(bytes),
        Stage::Body => body_item(bytes),
        Stage::End => None,
    }
}
