//! What is read of a tag. No further object is.

use crate::{Id, Tag};
use gx_object::{DecodeError, SignatureRef, TagRef, TagRefIter};

impl<'repo, S> Tag<'repo, S> {
    ghost use Rattle.std.specs.Prelude.{◌≡◌, Some, IfOk, IfErr, MatchResult, option_map};
    ghost use Rattle.gx_hash.specs.HashKind.{IsOfKind, kind_of};
    ghost use Rattle.gx_hash.specs.ObjectId.{hex_of};
    ghost use Rattle.gx_object.specs.IdentitySpelling.{identity_text};
    ghost use Rattle.gx_object.specs.OwnedTag.{IsIdText};
    ghost use Rattle.gx_object.specs.TagItems.{GoesWrong, GoesWrongByTagger, StandsInFront, TargetIs, TellsTagger};
    ghost use Rattle.gx_object.specs.TagSpelling.{RefusesTag, SpellsTag, TagText, tag_text};
    ghost use Rattle.gix.specs.AttachedObjects.{of_id, of_tag, text_of};

    /// The parts of the tag, one by one.
    fn parts(&self) -> TagRefIter<'_>
        ensures { result ≡ record { text = text_of (of_tag self.now); given = Some 0 } }
    {
        TagRefIter::from_bytes(self.bytes.as_slice(), self.id.kind())
    }

    /// The whole tag. Its texts are slices of the bytes.
    ///
    /// # Errors
    /// `Decode` for the place where bytes that spell no tag go wrong.
    pub fn decode(&self) -> Result<TagRef<'_>, DecodeError>
        ensures ok { IfOk result (λ t. SpellsTag (kind_of self.now.id) self.now.bytes (tag_text t)) }
        ensures id { IfOk result (λ t. IsIdText (tag_text t).target) }
        ensures only { (t : TagText) → SpellsTag (kind_of self.now.id) self.now.bytes t
            → IfOk result (λ found. tag_text found ≡ t) }
        ensures causes { IfErr result (RefusesTag (kind_of self.now.id) self.now.bytes) }
    {
        TagRef::from_bytes(self.bytes.as_slice(), self.id.kind())
    }

    /// The id of the tag's target.
    ///
    /// # Errors
    /// `Decode` if the first line names none.
    pub fn target_id(&self) -> Result<Id<'repo, S>, DecodeError>
        ensures tag { (t : TagText) → SpellsTag (kind_of self.now.id) self.now.bytes t
            → MatchResult result (λ target. hex_of (of_id target).id ≡ t.target) (λ _. ⊥) }
        ensures ok { IfOk result (λ target.
            StandsInFront (kind_of self.now.id) self.now.bytes 0 (TargetIs (hex_of (of_id target).id))) }
        ensures kind { IfOk result (λ target. IsOfKind (kind_of self.now.id) (of_id target).id) }
        ensures repository { IfOk result (λ target. (of_id target).repository ≡ (of_tag self.now).repository) }
        ensures causes { IfErr result (GoesWrong (kind_of self.now.id) self.now.bytes 0) }
    {
        match self.parts().target_id() {
            Ok(inner) => Ok(Id {
                inner,
                repo: self.repo,
            }),
            Err(error) => Err(error),
        }
    }

    /// Who made the tag, as the tag has it, where it has a tagger.
    ///
    /// # Errors
    /// `Decode` if the bytes go wrong in or before that line, or, without one, anywhere.
    pub fn tagger(&self) -> Result<Option<SignatureRef<'_>>, DecodeError>
        ensures tag { (t : TagText) → SpellsTag (kind_of self.now.id) self.now.bytes t
            → MatchResult result (λ who. option_map identity_text who ≡ t.tagger) (λ _. ⊥) }
        ensures ok { IfOk result (λ who.
            TellsTagger (kind_of self.now.id) self.now.bytes (option_map identity_text who)) }
        ensures causes { IfErr result (GoesWrongByTagger (kind_of self.now.id) self.now.bytes) }
    {
        self.parts().tagger()
    }
}
