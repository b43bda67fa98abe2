use crate::{Patterns, WalkIds};
use gx_edit::PathEdits;
use gx_hash::{Bytes, ObjectId};
use gx_object::{Ids, Kind, Signature};
use gx_rules::{FullName, PartialName};
use gx_store::Target;

/// A commit to be made on a reference.
#[derive(Debug, Drop)]
pub struct CommitRequest {
    pub name: FullName,
    pub author: Signature,
    pub committer: Signature,
    pub parents: Ids,
    pub message: Bytes,
    pub edits: PathEdits,
}

/// A tag object to be made, with a reference to it. The name is what follows `refs/tags/`, whether or not that is a
/// full name.
#[derive(Debug, Drop)]
pub struct TagRequest {
    pub name: Bytes,
    pub target: ObjectId,
    pub kind: Kind,
    pub tagger: Option<Signature>,
    pub message: Bytes,
}

/// What a reference has to be before it is changed.
#[derive(Debug, Drop)]
pub enum Expect {
    /// It may be there or not.
    Any,
    /// It has to be there.
    Exists,
    /// It must not be there.
    Absent,
    /// It has to be there, with this target.
    Match(Target),
    /// It has to have this target where it is there.
    MatchOrAbsent(Target),
}

/// A reference to be set. The message is that of its log line.
#[derive(Debug, Drop)]
pub struct RefRequest {
    pub name: FullName,
    pub target: Target,
    pub expect: Expect,
    pub committer: Option<Signature>,
    pub message: Bytes,
}

/// In which order commits are walked. Times are seconds since 1970 began in UTC.
#[derive(Clone, Copy, Debug, PartialEq, Eq)]
pub enum Order {
    /// Level by level.
    Breadth,
    /// The newest first.
    Newest,
    /// The oldest first.
    Oldest,
    /// The newest first, and none older than this.
    NewestFrom(i64),
    /// The oldest first, and none older than this.
    OldestFrom(i64),
}

/// Which names a commit is described by.
#[derive(Clone, Copy, Debug, PartialEq, Eq)]
pub enum NameSet {
    /// Those of annotated tags.
    Tags,
    /// Those of all tags.
    AllTags,
    /// Those of all references.
    AllRefs,
}

/// A note to be put on an object.
#[derive(Debug, Drop)]
pub struct NoteRequest {
    pub reference: PartialName,
    pub object: ObjectId,
    pub note: Bytes,
}

/// What a script asks for.
#[derive(Debug, Drop)]
pub enum Request {
    /// A commit on a reference.
    Commit(CommitRequest),
    /// Who commits from now on.
    Identity(Signature),
    /// A tag.
    Tag(TagRequest),
    /// That a reference be set.
    Ref(RefRequest),
    /// That a reference be deleted.
    Delete {
        name: FullName,
        expect: Expect,
    },
    /// The references whose names begin with the prefix, or those under `refs/`.
    Refs(Option<Bytes>),
    /// The log of a reference.
    Log(FullName),
    /// The paths of a tree.
    Paths(ObjectId),
    /// The commits that can be reached.
    Walk {
        order: Order,
        ids: WalkIds,
    },
    /// The best common ancestors of the first commit and the others.
    Bases {
        first: ObjectId,
        others: Ids,
    },
    /// The best common ancestor of all.
    Octopus(Ids),
    /// A name for a commit, from at most this many commits with a name.
    Describe {
        names: NameSet,
        max: u64,
        id: ObjectId,
    },
    /// That a note be put on an object.
    NoteSet(NoteRequest),
    /// That the note of an object be taken away.
    NoteDrop {
        reference: PartialName,
        object: ObjectId,
    },
    /// The notes on an object, of the references that fit the patterns.
    NoteGet {
        object: ObjectId,
        patterns: Patterns,
    },
    /// What `HEAD` is.
    Head,
    /// The namespace that names are in from now on, or that they are in none.
    Namespace(Option<PartialName>),
}
