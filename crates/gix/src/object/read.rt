//! Objects that are read as commits and tags.

ghost use Rattle.std.specs.Prelude.{◌≡◌, IfOk, IfErr, MatchResult};
ghost use Rattle.gx_object.specs.CommitSpelling.{CommitCauses, CommitText, SpellsCommit, commit_text};
ghost use Rattle.gx_object.specs.OwnedCommit.{HasIdsOf};
ghost use Rattle.gx_object.specs.OwnedTag.{IsIdText};
ghost use Rattle.gx_object.specs.TagSpelling.{RefusesTag, SpellsTag, TagText, tag_text};
ghost use Rattle.gix.specs.Conversions.{IsUnread};
ghost use Rattle.gix.specs.declared.object.conversion.ConversionError.TheVariants.{NoMemory as no_memory};

use super::ConversionError;
use crate::Object;
use gx_hash::HashKind;
use gx_object::{CommitRef, CommitRefIter, DecodeError, Kind, TagRef, TagRefIter};
use std::alloc::Global;

fn read_commit(
    alloc: Global,
    bytes: &[u8],
    hash: HashKind,
) -> Result<CommitRef<'_>, ConversionError>
    ensures ok { IfOk result (λ c. SpellsCommit hash bytes.now (commit_text c)) }
    ensures ids { IfOk result (λ c. HasIdsOf hash (commit_text c)) }
    ensures causes { IfErr result (IsUnread (CommitCauses hash bytes.now)) }
    ensures only { (c : CommitText) → SpellsCommit hash bytes.now c
        → MatchResult result (λ found. commit_text found ≡ c) (λ e. e ≡ no_memory) }
{
    match CommitRef::from_bytes(alloc, bytes, hash) {
        Ok(commit) => Ok(commit),
        Err(DecodeError::Decode { at }) => Err(ConversionError::Decode { at }),
        Err(DecodeError::NoMemory) => Err(ConversionError::NoMemory),
    }
}

fn read_tag(bytes: &[u8], hash: HashKind) -> Result<TagRef<'_>, ConversionError>
    ensures ok { IfOk result (λ t. SpellsTag hash bytes.now (tag_text t)) }
    ensures id { IfOk result (λ t. IsIdText (tag_text t).target) }
    ensures causes { IfErr result (IsUnread (RefusesTag hash bytes.now)) }
    ensures only { (t : TagText) → SpellsTag hash bytes.now t → IfOk result (λ found. tag_text found ≡ t) }
{
    match TagRef::from_bytes(bytes, hash) {
        Ok(tag) => Ok(tag),
        Err(DecodeError::Decode { at }) => Err(ConversionError::Decode { at }),
        Err(DecodeError::NoMemory) => Err(ConversionError::NoMemory),
    }
}

impl<'repo, S> Object<'repo, S> {
    ghost use Rattle.std.specs.Prelude.{◌≡◌, IfOk, IfErr, MatchResult};
    ghost use Rattle.gx_hash.specs.HashKind.{kind_of};
    ghost use Rattle.gx_object.specs.CommitSpelling.{CommitCauses, CommitText, SpellsCommit, commit_text};
    ghost use Rattle.gx_object.specs.OwnedCommit.{HasIdsOf};
    ghost use Rattle.gx_object.specs.OwnedTag.{IsIdText};
    ghost use Rattle.gx_object.specs.TagSpelling.{RefusesTag, SpellsTag, TagText, tag_text};
    ghost use Rattle.gx_object.specs.declared.kind.Kind.TheVariants as kind;
    ghost use Rattle.gix.specs.AttachedObjects.{of_object};
    ghost use Rattle.gix.specs.Conversions.{ConversionCauses};
    ghost use Rattle.gix.specs.declared.object.conversion.ConversionError.TheVariants.{NoMemory as no_memory};

    /// The commit that the object is.
    ///
    /// # Errors
    /// `UnexpectedType` if it is no commit; `Decode` for the place where its bytes go wrong; `NoMemory`.
    pub fn try_to_commit_ref(&self, alloc: Global) -> Result<CommitRef<'_>, ConversionError>
        ensures ok { IfOk result (λ c. (self.now.kind ≡ kind.Commit)
            × SpellsCommit (kind_of self.now.id) self.now.bytes (commit_text c)) }
        ensures ids { IfOk result (λ c. HasIdsOf (kind_of self.now.id) (commit_text c)) }
        ensures causes { IfErr result (ConversionCauses (of_object self.now).object kind.Commit
            (CommitCauses (kind_of self.now.id) self.now.bytes)) }
        ensures only { (c : CommitText) → self.now.kind ≡ kind.Commit
            → SpellsCommit (kind_of self.now.id) self.now.bytes c
            → MatchResult result (λ found. commit_text found ≡ c) (λ e. e ≡ no_memory) }
    {
        match self.kind {
            Kind::Commit => read_commit(alloc, self.bytes.as_slice(), self.id.kind()),
            actual => Err(ConversionError::UnexpectedType {
                expected: Kind::Commit,
                actual,
            }),
        }
    }

    /// The same.
    pub fn to_commit_ref(&self, alloc: Global) -> Result<CommitRef<'_>, ConversionError>
        ensures ok { IfOk result (λ c. (self.now.kind ≡ kind.Commit)
            × SpellsCommit (kind_of self.now.id) self.now.bytes (commit_text c)) }
        ensures ids { IfOk result (λ c. HasIdsOf (kind_of self.now.id) (commit_text c)) }
        ensures causes { IfErr result (ConversionCauses (of_object self.now).object kind.Commit
            (CommitCauses (kind_of self.now.id) self.now.bytes)) }
        ensures only { (c : CommitText) → self.now.kind ≡ kind.Commit
            → SpellsCommit (kind_of self.now.id) self.now.bytes c
            → MatchResult result (λ found. commit_text found ≡ c) (λ e. e ≡ no_memory) }
    {
        self.try_to_commit_ref(alloc)
    }

    /// The tag that the object is.
    ///
    /// # Errors
    /// `UnexpectedType` if it is no tag; `Decode` for the place where its bytes go wrong.
    pub fn try_to_tag_ref(&self) -> Result<TagRef<'_>, ConversionError>
        ensures ok { IfOk result (λ t. (self.now.kind ≡ kind.Tag)
            × SpellsTag (kind_of self.now.id) self.now.bytes (tag_text t)) }
        ensures id { IfOk result (λ t. IsIdText (tag_text t).target) }
        ensures causes { IfErr result (ConversionCauses (of_object self.now).object kind.Tag
            (RefusesTag (kind_of self.now.id) self.now.bytes)) }
        ensures only { (t : TagText) → self.now.kind ≡ kind.Tag
            → SpellsTag (kind_of self.now.id) self.now.bytes t → IfOk result (λ found. tag_text found ≡ t) }
    {
        match self.kind {
            Kind::Tag => read_tag(self.bytes.as_slice(), self.id.kind()),
            actual => Err(ConversionError::UnexpectedType {
                expected: Kind::Tag,
                actual,
            }),
        }
    }

    /// The same.
    pub fn to_tag_ref(&self) -> Result<TagRef<'_>, ConversionError>
        ensures ok { IfOk result (λ t. (self.now.kind ≡ kind.Tag)
            × SpellsTag (kind_of self.now.id) self.now.bytes (tag_text t)) }
        ensures id { IfOk result (λ t. IsIdText (tag_text t).target) }
        ensures causes { IfErr result (ConversionCauses (of_object self.now).object kind.Tag
            (RefusesTag (kind_of self.now.id) self.now.bytes)) }
        ensures only { (t : TagText) → self.now.kind ≡ kind.Tag
            → SpellsTag (kind_of self.now.id) self.now.bytes t → IfOk result (λ found. tag_text found ≡ t) }
    {
        self.try_to_tag_ref()
    }
}

impl<'repo, S> Object<'repo, S> {
    ghost use Rattle.std.specs.Prelude.{◌≡◌, ◌≢◌, Some, IfSome, IfNone};
    ghost use Rattle.gx_object.specs.declared.kind.Kind.TheVariants as kind;
    ghost use Rattle.gix.specs.AttachedObjects.{of_object, text_of};

    /// The parts of the commit that the object is, one by one.
    pub fn to_commit_ref_iter(&self) -> CommitRefIter<'_>
        requires { self.now.kind ≡ kind.Commit }
        ensures { result ≡ record { text = text_of (of_object self.now); given = Some 0 } }
    {
        CommitRefIter::from_bytes(self.bytes.as_slice(), self.id.kind())
    }

    /// The same, if the object is a commit.
    pub fn try_to_commit_ref_iter(&self) -> Option<CommitRefIter<'_>>
        ensures some { IfSome result (λ parts. (self.now.kind ≡ kind.Commit)
            × (parts ≡ record { text = text_of (of_object self.now); given = Some 0 })) }
        ensures none { IfNone result (self.now.kind ≢ kind.Commit) }
    {
        match self.kind {
            Kind::Commit => Some(self.to_commit_ref_iter()),
            _ => None,
        }
    }

    /// The parts of the tag that the object is, one by one.
    pub fn to_tag_ref_iter(&self) -> TagRefIter<'_>
        requires { self.now.kind ≡ kind.Tag }
        ensures { result ≡ record { text = text_of (of_object self.now); given = Some 0 } }
    {
        TagRefIter::from_bytes(self.bytes.as_slice(), self.id.kind())
    }

    /// The same, if the object is a tag.
    pub fn try_to_tag_ref_iter(&self) -> Option<TagRefIter<'_>>
        ensures some { IfSome result (λ parts. (self.now.kind ≡ kind.Tag)
            × (parts ≡ record { text = text_of (of_object self.now); given = Some 0 })) }
        ensures none { IfNone result (self.now.kind ≢ kind.Tag) }
    {
        match self.kind {
            Kind::Tag => Some(self.to_tag_ref_iter()),
            _ => None,
        }
    }
}
