// Directories in full.

use gx_edit::Leaf;
use gx_hash::Bytes;
use std::marker::Model;

/// A directory in full: its entries in turn, each a leaf or a directory of its own.
#[cycle(listing)]
#[derive(Drop)]
pub struct Listing {
    pub(crate) first: Line,
}

/// The first entry of a directory, and the entries after it.
#[cycle(listing)]
#[derive(Drop)]
pub(crate) enum Line {
    End,
    File(Bytes, Leaf, Box<Listing>),
    Sub(Bytes, Box<Listing>, Box<Listing>),
}

impl Model for Listing {
    ghost use Rattle.std.specs.Prelude.{◌≤◌, max};
    ghost use Rattle.gx_edit.specs.CanonicalTree.{Directory};
    ghost use Rattle.plain_trees.specs.Plain.{directory_code, entry_count};

    ghost Value = { Directory };

    ghost coded = { directory_code };

    ghost use Rattle.gx_edit.specs.CanonicalTree.Directory.{End as NoEntry, File as FileEntry, Sub as SubEntry};
    ghost use Rattle.plain_trees.specs.declared.listing.Line.TheVariants.{End, File, Sub};

    ghost view = { λ listing. elim listing.first [
      | End ↦ NoEntry
      | File name leaf rest ↦ FileEntry name leaf rest.value
      | Sub name inner rest ↦ SubEntry name inner.value rest.value
    ] };

    ghost size = { entry_count };

    ghost use Rattle.std.proofs.Common.{arith};
    ghost use Rattle.plain_trees.specs.declared.listing.Listing.TheDeep.{deep-Line};

    ghost size_decreases = { λ listing h. elim listing.first as (λ line. max (deep-Line line) 0
        ≤ entry_count (elim line [
          | End ↦ NoEntry
          | File name leaf rest ↦ FileEntry name leaf rest.value
          | Sub name inner rest ↦ SubEntry name inner.value rest.value
        ]))
        [ End ↦ Prim.omega arith | File name leaf rest ↦ Prim.omega arith | Sub name inner rest ↦ Prim.omega arith ] };
}
