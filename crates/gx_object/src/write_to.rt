//! What can be written as an object.
ghost use Rattle.std.specs.Prelude.{◌≡◌, ℕ, List, Bool, true, IfOk, OnOk};
ghost use Rattle.gx_object.specs.declared.kind.Kind.{Kind};
ghost use Rattle.gx_object.specs.declared.encode.Field.{Field};
ghost use Rattle.gx_object.specs.Field.{first_unwritable, NamesUnwritable};

use crate::{EncodeError, Kind};
use gx_hash::Bytes;
use std::alloc::Global;

/// An object that has a written spelling, which a store can keep.
pub trait WriteTo {
    ghost object_kind: { Self → Kind };

    ghost spelling: { Self → List ℕ };

    ghost is_writable: { Self → Field → Bool };

    fn kind(&self) -> Kind
        ensures { result ≡ object_kind self.now };

    /// The bytes that spell the object. The fields are tested first: an error names the first that can't be written,
    /// and only an object that can be written is out of memory.
    fn to_bytes(&self, alloc: Global) -> Result<Bytes, EncodeError>
        ensures ok { IfOk result (λ bytes. bytes ≡ spelling self.now) }
        ensures writable { OnOk result ((field : _) → is_writable self.now field ≡ true) }
        ensures causes { NamesUnwritable (first_unwritable (is_writable self.now)) result };
}
