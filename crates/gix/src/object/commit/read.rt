//! What is read of a commit. No further object is.

use super::CommitParentIds;
use crate::{Commit, Id};
use bstr::BStr;
use gx_hash::Bytes;
use gx_object::{
    CommitRef, CommitRefIter, DecodeError, MessageRef, SignatureRef, SignedData, signature_of,
};
use std::alloc::Global;

impl<'repo, S> Commit<'repo, S> {
    ghost use Rattle.std.specs.Prelude.{◌≡◌, Some, IfOk, IfErr, MatchResult, MatchOption};
    ghost use Rattle.gx_hash.specs.HashKind.{kind_of};
    ghost use Rattle.gx_object.specs.CommitItems.{StandsInFront, GoesWrongByAuthor, GoesWrongByCommitter};
    ghost use Rattle.gx_object.specs.CommitItems.{AuthorIs, CommitterIs};
    ghost use Rattle.gx_object.specs.CommitSignature.{IsSignedBy, IsUnsigned, MissesSignature, TellsSignature};
    ghost use Rattle.gx_object.specs.CommitSpelling.{CommitCauses, CommitText, SpellsCommit, commit_text};
    ghost use Rattle.gx_object.specs.IdentitySpelling.{IdentityText, identity_text, trimmed};
    ghost use Rattle.gx_object.specs.OwnedCommit.{HasIdsOf};
    ghost use Rattle.gx_object.specs.declared.decode.DecodeError.TheVariants.{NoMemory as no_memory};
    ghost use Rattle.gix.specs.AttachedObjects.{of_commit, text_of};

    /// The whole commit. Its texts are slices of the bytes.
    ///
    /// # Errors
    /// `Decode` for the place where bytes that spell no commit go wrong; `NoMemory`.
    pub fn decode(&self, alloc: Global) -> Result<CommitRef<'_>, DecodeError>
        ensures ok { IfOk result (λ c. SpellsCommit (kind_of self.now.id) self.now.bytes (commit_text c)) }
        ensures ids { IfOk result (λ c. HasIdsOf (kind_of self.now.id) (commit_text c)) }
        ensures causes { IfErr result (CommitCauses (kind_of self.now.id) self.now.bytes) }
        ensures only { (c : CommitText) → SpellsCommit (kind_of self.now.id) self.now.bytes c
            → MatchResult result (λ found. commit_text found ≡ c) (λ e. e ≡ no_memory) }
    {
        CommitRef::from_bytes(alloc, self.bytes.as_slice(), self.id.kind())
    }

    /// The parts of the commit, one by one.
    pub fn iter(&self) -> CommitRefIter<'_>
        ensures { result ≡ record { text = text_of (of_commit self.now); given = Some 0 } }
    {
        CommitRefIter::from_bytes(self.bytes.as_slice(), self.id.kind())
    }

    /// Who made the change, and when, without white space around the name and the email.
    ///
    /// # Errors
    /// `Decode` if the bytes go wrong in or before that line.
    pub fn author(&self) -> Result<SignatureRef<'_>, DecodeError>
        ensures commit { (c : CommitText) → SpellsCommit (kind_of self.now.id) self.now.bytes c
            → MatchResult result (λ who. identity_text who ≡ trimmed c.author) (λ _. ⊥) }
        ensures ok { IfOk result (λ who. (written : IdentityText)
            × StandsInFront (text_of (of_commit self.now)) (AuthorIs written)
            × (identity_text who ≡ trimmed written)) }
        ensures causes { IfErr result (GoesWrongByAuthor (text_of (of_commit self.now))) }
    {
        match self.iter().author() {
            Ok(who) => Ok(who.trim()),
            Err(error) => Err(error),
        }
    }

    /// Who made the commit, and when, without white space around the name and the email.
    ///
    /// # Errors
    /// `Decode` if the bytes go wrong in or before that line.
    pub fn committer(&self) -> Result<SignatureRef<'_>, DecodeError>
        ensures commit { (c : CommitText) → SpellsCommit (kind_of self.now.id) self.now.bytes c
            → MatchResult result (λ who. identity_text who ≡ trimmed c.committer) (λ _. ⊥) }
        ensures ok { IfOk result (λ who. (written : IdentityText)
            × StandsInFront (text_of (of_commit self.now)) (CommitterIs written)
            × (identity_text who ≡ trimmed written)) }
        ensures causes { IfErr result (GoesWrongByCommitter (text_of (of_commit self.now))) }
    {
        match self.iter().committer() {
            Ok(who) => Ok(who.trim()),
            Err(error) => Err(error),
        }
    }

    /// The value of the commit's signature, and what it signs, where the commit has one.
    ///
    /// # Errors
    /// `Decode` for the place where bytes that spell no commit go wrong; `NoMemory`, for a signature alone.
    pub fn signature(&self, alloc: Global) -> Result<Option<(Bytes, SignedData<'_>)>, DecodeError>
        ensures ok { IfOk result (λ told. MatchOption told (IsUnsigned (kind_of self.now.id) self.now.bytes)
            (λ p. IsSignedBy (kind_of self.now.id) self.now.bytes p.0 p.1)) }
        ensures only { (c : CommitText) → SpellsCommit (kind_of self.now.id) self.now.bytes c
            → MatchResult result (TellsSignature (kind_of self.now.id) self.now.bytes c) (λ e. e ≡ no_memory) }
        ensures causes { IfErr result (MissesSignature (kind_of self.now.id) self.now.bytes) }
    {
        signature_of(alloc, self.bytes.as_slice(), self.id.kind())
    }
}

impl<'repo, S> Commit<'repo, S> {
    ghost use Rattle.std.specs.Prelude.{◌≡◌, [], IfOk, IfErr, MatchResult, option_map, unwrap_or};
    ghost use Rattle.bstr.specs.BStr.{bstr_bytes};
    ghost use Rattle.gx_hash.specs.HashKind.{kind_of};
    ghost use Rattle.gx_object.specs.CommitItems.{SpellsMessage, SpellsNone};
    ghost use Rattle.gx_object.specs.CommitSpelling.{CommitText, SpellsCommit};
    ghost use Rattle.gx_object.specs.Message.{body_of};
    ghost use Rattle.gix.specs.AttachedObjects.{of_commit, text_of};
    ghost use Rattle.gix.specs.ObjectParts.{HasParts};

    /// The message, as the commit has it.
    ///
    /// # Errors
    /// `Decode` for the place where bytes that spell no commit go wrong.
    pub fn message_raw(&self) -> Result<BStr<'_>, DecodeError>
        ensures commit { (c : CommitText) → SpellsCommit (kind_of self.now.id) self.now.bytes c
            → MatchResult result (λ text. bstr_bytes text ≡ c.message) (λ _. ⊥) }
        ensures ok { IfOk result (λ text. SpellsMessage (text_of (of_commit self.now)) (bstr_bytes text)) }
        ensures causes { IfErr result (SpellsNone (text_of (of_commit self.now))) }
    {
        self.iter().message()
    }

    /// The message in its title and its body.
    ///
    /// # Errors
    /// `Decode` for the place where bytes that spell no commit go wrong.
    pub fn message(&self) -> Result<MessageRef<'_>, DecodeError>
        ensures commit { (c : CommitText) → SpellsCommit (kind_of self.now.id) self.now.bytes c
            → MatchResult result (HasParts c.message) (λ _. ⊥) }
        ensures causes { IfErr result (SpellsNone (text_of (of_commit self.now))) }
    {
        match self.message_raw() {
            Ok(text) => Ok(MessageRef::from_bytes(text.as_bytes())),
            Err(error) => Err(error),
        }
    }

    /// What follows the first two adjacent newlines of the object, whether or not it spells a commit; without them
    /// nothing.
    pub fn message_raw_sloppy(&self) -> BStr<'_>
        ensures { bstr_bytes result ≡ unwrap_or (body_of self.now.bytes) [] }
    {
        match MessageRef::from_bytes(self.bytes.as_slice()).body {
            Some(text) => text,
            None => BStr::new(b""),
        }
    }
}

impl<'repo, S> Commit<'repo, S> {
    ghost use Rattle.std.specs.Prelude.{◌≡◌, Some, IfOk, IfErr, MatchResult};
    ghost use Rattle.gx_hash.specs.HashKind.{IsOfKind, kind_of};
    ghost use Rattle.gx_hash.specs.ObjectId.{hex_of};
    ghost use Rattle.gx_object.specs.CommitItems.{GoesWrong, StandsInFront, TreeId};
    ghost use Rattle.gx_object.specs.CommitNext.{Tree};
    ghost use Rattle.gx_object.specs.CommitSpelling.{CommitText, SpellsCommit};
    ghost use Rattle.gix.specs.AttachedObjects.{of_commit, of_id, text_of};
    ghost use Rattle.gix.specs.ObjectParts.{ids_to_give};

    /// The id of the commit's tree.
    ///
    /// # Errors
    /// `Decode` if the first line names none.
    pub fn tree_id(&self) -> Result<Id<'repo, S>, DecodeError>
        ensures commit { (c : CommitText) → SpellsCommit (kind_of self.now.id) self.now.bytes c
            → MatchResult result (λ tree. hex_of (of_id tree).id ≡ c.tree) (λ _. ⊥) }
        ensures ok { IfOk result (λ tree.
            StandsInFront (text_of (of_commit self.now)) (TreeId (hex_of (of_id tree).id))) }
        ensures kind { IfOk result (λ tree. IsOfKind (kind_of self.now.id) (of_id tree).id) }
        ensures repository { IfOk result (λ tree. (of_id tree).repository ≡ (of_commit self.now).repository) }
        ensures causes { IfErr result (GoesWrong (text_of (of_commit self.now)) Tree) }
    {
        match self.iter().tree_id() {
            Ok(inner) => Ok(Id {
                inner,
                repo: self.repo,
            }),
            Err(error) => Err(error),
        }
    }

    /// The ids of the commit's parents, in their order, up to the first error.
    pub fn parent_ids(&self) -> CommitParentIds<'_, 'repo, S>
        ensures { ids_to_give result
            ≡ (record { text = text_of (of_commit self.now); given = Some 0 }, (of_commit self.now).repository) }
    {
        CommitParentIds {
            inner: self.iter().parent_ids(),
            repo: self.repo,
        }
    }
}
