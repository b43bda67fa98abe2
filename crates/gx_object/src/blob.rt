//! Blobs.
ghost use Rattle.std.specs.Prelude.{true};
ghost use Rattle.gx_object.specs.declared.kind.Kind.TheVariants as object_kind;

use crate::{EncodeError, Kind, WriteTo};
use gx_hash::Bytes;
use std::alloc::Global;

/// The content of a file, or the target of a link.
#[derive(Debug, Drop)]
pub struct Blob {
    pub bytes: Bytes,
}

impl WriteTo for Blob {
    ghost object_kind = { λ _. object_kind.Blob };

    ghost spelling = { λ blob. blob.bytes };

    ghost is_writable = { λ _ _. true };

    fn kind(&self) -> Kind {
        Kind::Blob
    }

    fn to_bytes(&self, _alloc: Global) -> Result<Bytes, EncodeError> {
        Ok(self.bytes.try_clone()?)
    }
}
