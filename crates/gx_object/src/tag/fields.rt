//! Single parts of a tag, read without the others.
ghost use Rattle.std.specs.Prelude.{◌≡◌, IfErr, IfOk, MatchResult};
ghost use Rattle.std.specs.Option.{option_map};
ghost use Rattle.gx_hash.specs.HashKind.{IsOfKind};
ghost use Rattle.gx_hash.specs.ObjectId.{hex_of};
ghost use Rattle.gx_object.specs.IdentitySpelling.{identity_text};
ghost use Rattle.gx_object.specs.TagItems.{GoesWrong, GoesWrongByTagger, StandsInFront, TargetIs, TellsTagger};
ghost use Rattle.gx_object.specs.TagStages.{FindsTagger};
ghost use Rattle.gx_object.specs.TagSpelling.{TagText, SpellsTag};

use crate::commit::{bad_line, id_line, id_of, identity_line};
use crate::tag::lines::{body, name_line, type_line};
use crate::{DecodeError, SignatureRef, TagRefIter};
use gx_hash::{HashKind, ObjectId};

impl<'a> TagRefIter<'a> {
    /// The id of the tag's target, however far this iterator has come.
    pub fn target_id(&self) -> Result<ObjectId, DecodeError>
        ensures tag { (t : TagText) → SpellsTag self.now.text.hash self.now.text.bytes t
            → MatchResult result (λ id. hex_of id ≡ t.target) (λ _. ⊥) }
        ensures ok { IfOk result
            (λ id. StandsInFront self.now.text.hash self.now.text.bytes 0 (TargetIs (hex_of id))) }
        ensures kind { IfOk result (IsOfKind self.now.text.hash) }
        ensures causes { IfErr result (GoesWrong self.now.text.hash self.now.text.bytes 0) }
    {
        let Some((text, _)) = id_line(self.bytes, b"object ", self.hash) else {
            return Err(bad_line(self.bytes, self.bytes));
        };
        Ok(id_of(text.as_bytes(), self.hash))
    }

    /// Who made the tag, where it has a tagger. Without one the rest of the tag is read too.
    pub fn tagger(&self) -> Result<Option<SignatureRef<'a>>, DecodeError>
        ensures tag { (t : TagText) → SpellsTag self.now.text.hash self.now.text.bytes t
            → MatchResult result (λ who. option_map identity_text who ≡ t.tagger) (λ _. ⊥) }
        ensures ok { IfOk result
            (λ who. TellsTagger self.now.text.hash self.now.text.bytes (option_map identity_text who)) }
        ensures causes { IfErr result (GoesWrongByTagger self.now.text.hash self.now.text.bytes) }
    {
        read_tagger(self.bytes, self.hash)
    }
}

fn read_tagger(bytes: &[u8], hash: HashKind) -> Result<Option<SignatureRef<'_>>, DecodeError>
    ensures { MatchResult result
        (λ who. FindsTagger hash bytes.now (option_map identity_text who)) (GoesWrongByTagger hash bytes.now) }
{
    let Some((_, rest)) = id_line(bytes, b"object ", hash) else {
        return Err(bad_line(bytes, bytes));
    };
    let Some((_, rest)) = type_line(rest) else {
        return Err(bad_line(bytes, rest));
    };
    let Some((_, rest)) = name_line(rest) else {
        return Err(bad_line(bytes, rest));
    };
    if let Some((signature, _)) = identity_line(rest, b"tagger ") {
        return Ok(Some(signature));
    }
    let Some(_) = body(rest) else {
        return Err(bad_line(bytes, rest));
    };
    Ok(None)
}
