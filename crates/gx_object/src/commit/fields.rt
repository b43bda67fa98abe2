//! Single parts of a commit, read without the others.
ghost use Rattle.std.specs.Prelude.{◌≡◌, IfOk, IfErr, MatchResult};
ghost use Rattle.bstr.specs.BStr.{bstr_bytes};
ghost use Rattle.gx_hash.specs.ObjectId.{hex_of};
ghost use Rattle.gx_object.specs.IdentitySpelling.{identity_text};
ghost use Rattle.gx_object.specs.CommitSpelling.{CommitText, SpellsCommit};
ghost use Rattle.gx_object.specs.CommitLines.{IsNoHeader};
ghost use Rattle.gx_object.specs.CommitItems.{TreeId, AuthorIs, CommitterIs, StandsInFront, GoesWrong, GoesWrongByAuthor, GoesWrongByCommitter, HasAuthor, HasCommitter, SkipsParents, SkipsHeaders, SkipsFurther, SpellsMessage, SpellsNone};
ghost use Rattle.gx_object.specs.CommitNext.{Tree};
ghost use Rattle.gx_object.specs.PartsRead.{object_text};
ghost use Rattle.gx_hash.specs.HashKind.{IsOfKind};

use crate::commit::decode::bad_line;
use crate::commit::lines::{header, id_line, id_of, identity_line, message};
use crate::{CommitRefIter, DecodeError, SignatureRef};
use bstr::BStr;
use gx_hash::{HashKind, ObjectId};

impl<'a> CommitRefIter<'a> {
    /// The id of the commit's tree.
    pub fn tree_id(&self) -> Result<ObjectId, DecodeError>
        ensures commit { (c : CommitText) → SpellsCommit self.now.text.hash self.now.text.bytes c
            → MatchResult result (λ id. hex_of id ≡ c.tree) (λ _. ⊥) }
        ensures ok { IfOk result (λ id. StandsInFront self.now.text (TreeId (hex_of id))) }
        ensures kind { IfOk result (IsOfKind self.now.text.hash) }
        ensures causes { IfErr result (GoesWrong self.now.text Tree) }
    {
        let Some((text, _)) = id_line(self.bytes, b"tree ", self.hash) else {
            return Err(bad_line(self.bytes, self.bytes));
        };
        Ok(id_of(text.as_bytes(), self.hash))
    }

    /// Who made the change, and when.
    pub fn author(&self) -> Result<SignatureRef<'a>, DecodeError>
        ensures commit { (c : CommitText) → SpellsCommit self.now.text.hash self.now.text.bytes c
            → MatchResult result (λ who. identity_text who ≡ c.author) (λ _. ⊥) }
        ensures ok { IfOk result (λ who. StandsInFront self.now.text (AuthorIs (identity_text who))) }
        ensures causes { IfErr result (GoesWrongByAuthor self.now.text) }
    {
        let (signature, _) = author_line(self.bytes, self.hash)?;
        Ok(signature)
    }

    /// Who made the commit, and when.
    pub fn committer(&self) -> Result<SignatureRef<'a>, DecodeError>
        ensures commit { (c : CommitText) → SpellsCommit self.now.text.hash self.now.text.bytes c
            → MatchResult result (λ who. identity_text who ≡ c.committer) (λ _. ⊥) }
        ensures ok { IfOk result (λ who. StandsInFront self.now.text (CommitterIs (identity_text who))) }
        ensures causes { IfErr result (GoesWrongByCommitter self.now.text) }
    {
        let (signature, _) = committer_line(self.bytes, self.hash)?;
        Ok(signature)
    }

    /// The message, where the bytes spell a commit.
    pub fn message(&self) -> Result<BStr<'a>, DecodeError>
        ensures commit { (c : CommitText) → SpellsCommit self.now.text.hash self.now.text.bytes c
            → MatchResult result (λ text. bstr_bytes text ≡ c.message) (λ _. ⊥) }
        ensures ok { IfOk result (λ text. SpellsMessage self.now.text (bstr_bytes text)) }
        ensures causes { IfErr result (SpellsNone self.now.text) }
    {
        read_message(self.bytes, self.hash)
    }
}

// The author, and what follows that line.
fn author_line(bytes: &[u8], hash: HashKind) -> Result<(SignatureRef<'_>, &[u8]), DecodeError>
    ensures { MatchResult result
        (λ p. HasAuthor (object_text hash bytes.now) (identity_text p.0) p.1.now)
        (GoesWrongByAuthor (object_text hash bytes.now)) }
{
    let Some((_, rest)) = id_line(bytes, b"tree ", hash) else {
        return Err(bad_line(bytes, bytes));
    };
    let rest = skip_parents(rest, hash);
    let Some((signature, behind)) = identity_line(rest, b"author ") else {
        return Err(bad_line(bytes, rest));
    };
    Ok((signature, behind))
}

// The committer, and what follows that line.
pub(super) fn committer_line(
    bytes: &[u8],
    hash: HashKind,
) -> Result<(SignatureRef<'_>, &[u8]), DecodeError>
    ensures { MatchResult result
        (λ p. HasCommitter (object_text hash bytes.now) (identity_text p.0) p.1.now)
        (GoesWrongByCommitter (object_text hash bytes.now)) }
{
    let (_, rest) = author_line(bytes, hash)?;
    let Some((signature, behind)) = identity_line(rest, b"committer ") else {
        return Err(bad_line(bytes, rest));
    };
    Ok((signature, behind))
}

// The message of a whole commit.
pub(super) fn read_message(bytes: &[u8], hash: HashKind) -> Result<BStr<'_>, DecodeError>
    ensures { MatchResult result
        (λ text. SpellsMessage (object_text hash bytes.now) (bstr_bytes text))
        (SpellsNone (object_text hash bytes.now)) }
{
    let (_, rest) = committer_line(bytes, hash)?;
    let rest = skip_headers(rest);
    let Some(text) = message(rest) else {
        return Err(bad_line(bytes, rest));
    };
    Ok(text)
}

fn skip_headers(bytes: &[u8]) -> &[u8]
    ensures { SkipsHeaders bytes.now result.now }
{
    let Some((_, rest)) = header(bytes) else {
        return bytes;
    };
    skip_further(rest)
}

fn skip_further(bytes: &[u8]) -> &[u8]
    ensures { SkipsFurther bytes.now result.now × IsNoHeader result.now }
{
    let mut rest = bytes;
    while let Some((_, more)) = header(rest) {
        rest = more;
    }
    rest
}

fn skip_parents(bytes: &[u8], hash: HashKind) -> &[u8]
    ensures { SkipsParents hash bytes.now result.now }
{
    let mut rest = bytes;
    while let Some((_, more)) = id_line(rest, b"parent ", hash) {
        rest = more;
    }
    rest
}
