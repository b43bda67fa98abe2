//! The text of the file `format`.
ghost use Rattle.std.specs.Prelude.{◌≡◌, ◌≢◌, MatchOption};
ghost use Rattle.gx_hash.specs.declared.kind.HashKind.{HashKind as Hash};
ghost use Rattle.gx_folder.specs.Folder.{format_text};

use gx_hash::HashKind;

const SHA1: &str = "gx 1 sha1\n";

const SHA256: &str = "gx 1 sha256\n";

pub(crate) fn text_of(hash: HashKind) -> &'static str
    ensures { result.now ≡ format_text hash }
{
    match hash {
        HashKind::Sha1 => SHA1,
        HashKind::Sha256 => SHA256,
    }
}

/// The kind of ids that a text names, if it is one of the known texts.
pub(crate) fn kind_of(text: &[u8]) -> Option<HashKind>
    ensures { MatchOption result ((hash : Hash) → text.now ≢ format_text hash) (λ hash. text.now ≡ format_text hash) }
{
    if text == SHA1.as_bytes() {
        Some(HashKind::Sha1)
    } else if text == SHA256.as_bytes() {
        Some(HashKind::Sha256)
    } else {
        None
    }
}
