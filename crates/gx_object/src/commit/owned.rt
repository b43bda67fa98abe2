//! Commits that own what they took over from an object.
ghost use Rattle.std.specs.Prelude.{◌≡◌, ◌↔◌, ◌⊎◌, List, map, IfOk, IsErrOf};
ghost use Rattle.std.specs.List.{AllByRecursion};
ghost use Rattle.std.specs.Option.{option_map};
ghost use Rattle.bstr.specs.BStr.{bstr_bytes};
ghost use Rattle.gx_hash.specs.declared.kind.HashKind.{HashKind};
ghost use Rattle.gx_hash.specs.HashKind.{IsOfKind};
ghost use Rattle.gx_hash.specs.ObjectId.{hex_of};
ghost use Rattle.gx_object.specs.declared.signature.decode.SignatureError.TheVariants.{BadTime as bad_time};
ghost use Rattle.gx_hash.specs.IdDigits.{IsHexId};
ghost use Rattle.gx_object.specs.CommitSpelling.{commit_text, header_text};
ghost use Rattle.gx_object.specs.IdentitySpelling.{identity_text};
ghost use Rattle.gx_object.specs.OwnedCommit.{HasIds, HasIdsOf, IsCopyOf, IsOfHash, owned_header};
ghost use Rattle.gx_object.specs.OwnedTag.{HasNoTime, OwnsIdentity};
ghost use Rattle.gx_object.specs.TimeSpelling.{SpellsTime};

use super::{Commit, CommitRef, ExtraHeader, OwnedHeader};
use crate::{Headers, Ids, Signature, SignatureError, SignatureRef, Time};
use bstr::BStr;
use gx_hash::{Bytes, NoMemory, ObjectId};
use std::alloc::Global;

impl CommitRef<'_> {
    /// A copy that owns its parts, in memory of its own: the borrowed texts have none to go on with. Both times are
    /// read before anything is copied.
    ///
    /// # Errors
    /// `BadTime` where the author's or the committer's time can't be read.
    pub fn to_owned(&self, alloc: Global) -> Result<Commit, SignatureError>
        requires { HasIds (commit_text self.now) }
        ensures ok { IfOk result (IsCopyOf (commit_text self.now)) }
        ensures kind { (hash : HashKind) → HasIdsOf hash (commit_text self.now) → IfOk result (IsOfHash hash) }
        ensures causes { IsErrOf result bad_time
            ↔ (HasNoTime (commit_text self.now).author ⊎ HasNoTime (commit_text self.now).committer) }
    {
        let author_time = self.author.time()?;
        let committer_time = self.committer.time()?;
        Ok(own_commit(alloc, self, author_time, committer_time)?)
    }
}

fn own_commit(
    alloc: Global,
    commit: &CommitRef<'_>,
    author_time: Time,
    committer_time: Time,
) -> Result<Commit, NoMemory>
    requires ids { HasIds (commit_text commit.now) }
    requires author { SpellsTime (commit_text commit.now).author.time author_time }
    requires committer { SpellsTime (commit_text commit.now).committer.time committer_time }
    ensures ok { IfOk result (IsCopyOf (commit_text commit.now)) }
    ensures kind { (hash : HashKind) → HasIdsOf hash (commit_text commit.now) → IfOk result (IsOfHash hash) }
{
    Ok(Commit {
        tree: ObjectId::from_digits(commit.tree.as_bytes()),
        parents: own_ids(alloc, commit.parents.as_slice())?,
        author: own_identity(alloc, &commit.author, author_time)?,
        committer: own_identity(alloc, &commit.committer, committer_time)?,
        encoding: own_text(alloc, commit.encoding)?,
        message: Bytes::from_slice(alloc, commit.message.as_bytes())?,
        extra_headers: own_headers(alloc, commit.extra_headers.as_slice())?,
    })
}

fn own_identity(alloc: Global, who: &SignatureRef<'_>, time: Time) -> Result<Signature, NoMemory>
    requires { SpellsTime (identity_text who.now).time time }
    ensures { IfOk result (OwnsIdentity (identity_text who.now)) }
{
    Ok(Signature {
        name: Bytes::from_slice(alloc, who.name.as_bytes())?,
        email: Bytes::from_slice(alloc, who.email.as_bytes())?,
        time,
    })
}

fn own_ids(alloc: Global, digits: &[BStr<'_>]) -> Result<Ids, NoMemory>
    requires { (hash : HashKind) × AllByRecursion (IsHexId hash) (map bstr_bytes digits.now) }
    ensures ok { IfOk result (λ ids. map hex_of ids ≡ map bstr_bytes digits.now) }
    ensures kind { (hash : HashKind) → AllByRecursion (IsHexId hash) (map bstr_bytes digits.now)
        → IfOk result (AllByRecursion (IsOfKind hash)) }
{
    let mut ids = Vec::with_capacity(alloc, digits.len())?;
    for text in digits {
        ids.push(ObjectId::from_digits(text.as_bytes()))?;
    }
    Ok(Ids::from_vec(ids))
}

fn own_text(alloc: Global, text: Option<BStr<'_>>) -> Result<Option<Bytes>, NoMemory>
    ensures { IfOk result (λ owned. owned ≡ option_map bstr_bytes text.entry) }
{
    match text {
        Some(text) => Ok(Some(Bytes::from_slice(alloc, text.as_bytes())?)),
        None => Ok(None),
    }
}

fn own_headers(alloc: Global, headers: &[ExtraHeader<'_>]) -> Result<Headers, NoMemory>
    ensures { IfOk result (λ owned. owned ≡ map owned_header (map header_text headers.now)) }
{
    let mut owned = Vec::with_capacity(alloc, headers.len())?;
    for header in headers {
        owned.push(own_header(alloc, header)?)?;
    }
    Ok(Headers::from_vec(owned))
}

fn own_header(alloc: Global, header: &ExtraHeader<'_>) -> Result<OwnedHeader, NoMemory>
    ensures { IfOk result (λ owned. owned ≡ owned_header (header_text header.now)) }
{
    Ok(OwnedHeader {
        name: Bytes::from_slice(alloc, header.name.as_bytes())?,
        value: header.value(alloc)?,
    })
}
