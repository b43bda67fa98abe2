//! The kinds of objects.
ghost use Rattle.std.specs.Prelude.{◌≡◌, IfSome};
ghost use Rattle.gx_object.specs.Kind.{kind_name, kind_named};

/// The kind of an object.
#[derive(Clone, Copy, Debug, PartialEq, Eq, PartialOrd, Ord, Hash)]
pub enum Kind {
    Blob,
    Tree,
    Commit,
    Tag,
}

impl Kind {
    /// The kind's name, as an object's header has it.
    pub fn as_bytes(self) -> &'static [u8]
        ensures { result.now ≡ kind_name self }
    {
        match self {
            Kind::Blob => b"blob",
            Kind::Tree => b"tree",
            Kind::Commit => b"commit",
            Kind::Tag => b"tag",
        }
    }

    /// The kind of this name, where there is one.
    pub fn from_bytes(name: &[u8]) -> Option<Kind>
        ensures value { result ≡ kind_named name.now }
        ensures named { IfSome result (λ kind. kind_name kind ≡ name.now) }
    {
        if name == b"blob".as_slice() {
            Some(Kind::Blob)
        } else if name == b"tree".as_slice() {
            Some(Kind::Tree)
        } else if name == b"commit".as_slice() {
            Some(Kind::Commit)
        } else if name == b"tag".as_slice() {
            Some(Kind::Tag)
        } else {
            None
        }
    }
}
