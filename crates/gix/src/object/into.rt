//! Objects that become those of one kind. Neither the id nor the bytes are changed.

use super::KindError;
use crate::{Blob, Commit, Object, Tag, Tree};
use gx_object::Kind;

impl<'repo, S> Object<'repo, S> {
    ghost use Rattle.std.specs.Prelude.{◌≡◌, IfOk, IfErr};
    ghost use Rattle.gx_object.specs.declared.kind.Kind.TheVariants as kind;
    ghost use Rattle.gix.specs.AttachedObjects.{of_blob, of_commit, of_object, of_tag, of_tree};
    ghost use Rattle.gix.specs.Conversions.{IsOfOtherKind};

    /// The object as a blob, which it is.
    pub fn into_blob(self) -> Blob<'repo, S>
        requires { self.kind ≡ kind.Blob }
        ensures { of_blob result ≡ of_object self.entry }
    {
        let Object {
            id,
            kind: _,
            bytes,
            repo,
        } = self;
        Blob { id, bytes, repo }
    }

    /// The object as a tree, which it is.
    pub fn into_tree(self) -> Tree<'repo, S>
        requires { self.kind ≡ kind.Tree }
        ensures { of_tree result ≡ of_object self.entry }
    {
        let Object {
            id,
            kind: _,
            bytes,
            repo,
        } = self;
        Tree { id, bytes, repo }
    }

    /// The object as a commit, which it is.
    pub fn into_commit(self) -> Commit<'repo, S>
        requires { self.kind ≡ kind.Commit }
        ensures { of_commit result ≡ of_object self.entry }
    {
        let Object {
            id,
            kind: _,
            bytes,
            repo,
        } = self;
        Commit { id, bytes, repo }
    }

    /// The object as an annotated tag, which it is.
    pub fn into_tag(self) -> Tag<'repo, S>
        requires { self.kind ≡ kind.Tag }
        ensures { of_tag result ≡ of_object self.entry }
    {
        let Object {
            id,
            kind: _,
            bytes,
            repo,
        } = self;
        Tag { id, bytes, repo }
    }

    /// The object as a blob, or why it is none.
    pub fn try_into_blob(self) -> Result<Blob<'repo, S>, KindError>
        ensures ok { IfOk result (λ blob. of_blob blob ≡ of_object self.entry) }
        ensures causes { IfErr result (IsOfOtherKind (of_object self.entry).object kind.Blob) }
    {
        match self.kind {
            Kind::Blob => Ok(self.into_blob()),
            actual => Err(KindError {
                id: self.id,
                expected: Kind::Blob,
                actual,
            }),
        }
    }

    /// The object as a tree, or why it is none.
    pub fn try_into_tree(self) -> Result<Tree<'repo, S>, KindError>
        ensures ok { IfOk result (λ tree. of_tree tree ≡ of_object self.entry) }
        ensures causes { IfErr result (IsOfOtherKind (of_object self.entry).object kind.Tree) }
    {
        match self.kind {
            Kind::Tree => Ok(self.into_tree()),
            actual => Err(KindError {
                id: self.id,
                expected: Kind::Tree,
                actual,
            }),
        }
    }

    /// The object as a commit, or why it is none.
    pub fn try_into_commit(self) -> Result<Commit<'repo, S>, KindError>
        ensures ok { IfOk result (λ commit. of_commit commit ≡ of_object self.entry) }
        ensures causes { IfErr result (IsOfOtherKind (of_object self.entry).object kind.Commit) }
    {
        match self.kind {
            Kind::Commit => Ok(self.into_commit()),
            actual => Err(KindError {
                id: self.id,
                expected: Kind::Commit,
                actual,
            }),
        }
    }

    /// The object as an annotated tag, or why it is none.
    pub fn try_into_tag(self) -> Result<Tag<'repo, S>, KindError>
        ensures ok { IfOk result (λ tag. of_tag tag ≡ of_object self.entry) }
        ensures causes { IfErr result (IsOfOtherKind (of_object self.entry).object kind.Tag) }
    {
        match self.kind {
            Kind::Tag => Ok(self.into_tag()),
            actual => Err(KindError {
                id: self.id,
                expected: Kind::Tag,
                actual,
            }),
        }
    }
}

impl<'repo, S> TryFrom<Object<'repo, S>> for Blob<'repo, S> {
    ghost use Rattle.gx_object.specs.declared.kind.Kind.TheVariants as kind;
    ghost use Rattle.gix.specs.AttachedObjects.{of_blob};
    ghost use Rattle.gix.specs.Conversions.{Converts};

    type Error = Object<'repo, S>;

    ghost try_from_gives = { Converts of_blob kind.Blob };

    fn try_from(object: Object<'repo, S>) -> Result<Blob<'repo, S>, Object<'repo, S>> {
        match object.kind {
            Kind::Blob => Ok(object.into_blob()),
            _ => Err(object),
        }
    }
}

impl<'repo, S> TryFrom<Object<'repo, S>> for Tree<'repo, S> {
    ghost use Rattle.gx_object.specs.declared.kind.Kind.TheVariants as kind;
    ghost use Rattle.gix.specs.AttachedObjects.{of_tree};
    ghost use Rattle.gix.specs.Conversions.{Converts};

    type Error = Object<'repo, S>;

    ghost try_from_gives = { Converts of_tree kind.Tree };

    fn try_from(object: Object<'repo, S>) -> Result<Tree<'repo, S>, Object<'repo, S>> {
        match object.kind {
            Kind::Tree => Ok(object.into_tree()),
            _ => Err(object),
        }
    }
}

impl<'repo, S> TryFrom<Object<'repo, S>> for Commit<'repo, S> {
    ghost use Rattle.gx_object.specs.declared.kind.Kind.TheVariants as kind;
    ghost use Rattle.gix.specs.AttachedObjects.{of_commit};
    ghost use Rattle.gix.specs.Conversions.{Converts};

    type Error = Object<'repo, S>;

    ghost try_from_gives = { Converts of_commit kind.Commit };

    fn try_from(object: Object<'repo, S>) -> Result<Commit<'repo, S>, Object<'repo, S>> {
        match object.kind {
            Kind::Commit => Ok(object.into_commit()),
            _ => Err(object),
        }
    }
}

impl<'repo, S> TryFrom<Object<'repo, S>> for Tag<'repo, S> {
    ghost use Rattle.gx_object.specs.declared.kind.Kind.TheVariants as kind;
    ghost use Rattle.gix.specs.AttachedObjects.{of_tag};
    ghost use Rattle.gix.specs.Conversions.{Converts};

    type Error = Object<'repo, S>;

    ghost try_from_gives = { Converts of_tag kind.Tag };

    fn try_from(object: Object<'repo, S>) -> Result<Tag<'repo, S>, Object<'repo, S>> {
        match object.kind {
            Kind::Tag => Ok(object.into_tag()),
            _ => Err(object),
        }
    }
}

impl<'repo, S> From<Commit<'repo, S>> for Object<'repo, S> {
    ghost use Rattle.std.specs.Prelude.{◌≡◌};
    ghost use Rattle.gix.specs.AttachedObjects.{of_commit, of_object};

    ghost from_gives = { λ commit object. of_object object ≡ of_commit commit };

    fn from(commit: Commit<'repo, S>) -> Object<'repo, S> {
        let Commit { id, bytes, repo } = commit;
        Object {
            id,
            kind: Kind::Commit,
            bytes,
            repo,
        }
    }
}
