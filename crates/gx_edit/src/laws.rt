//! What the definitions of path maps and canonical trees say of one another.

ghost use Rattle.std.specs.Prelude.{◌≡◌, ◌⊎◌, true, false, List, map, Some, ℕ};
ghost use Rattle.gx_hash.specs.declared.kind.HashKind.{HashKind};
ghost use Rattle.gx_hash.specs.declared.oid.ObjectId.{ObjectId};
ghost use Rattle.gx_rules.specs.declared.component_rules.Protect.{Protect};
ghost use Rattle.gx_object.specs.declared.kind.Kind.{Kind};
ghost use Rattle.gx_store.specs.Content.{Content, id_of};
ghost use Rattle.gx_store.specs.State.{StoreState, Becomes, all_stored};
ghost use Rattle.gx_edit.specs.Path.{Path};
ghost use Rattle.gx_edit.specs.PathMap.{PathMap};
ghost use Rattle.gx_edit.specs.PathList.{PathList, IsPathMap, IsRising, map_of, has_zero};
ghost use Rattle.gx_hash.specs.ObjectIds.{has_id};
ghost use Rattle.gx_edit.specs.Output.{Output};
ghost use Rattle.gx_edit.specs.CheckOutput.{MayBeWritten, IsReady, IsOfStore};
ghost use Rattle.gx_edit.specs.Writing.{WriteCauses};
ghost use Rattle.gx_edit.specs.CanonicalTree.{Directory, StandsFor, Represents, root_of, trees_of};
ghost use Rattle.gx_edit.specs.SharedIds.{HasIdsOf, HasNoNullId, ShareAnId};
ghost use Rattle.gx_edit.specs.ReadMapCauses.{IsStoredTree, IsAtOrBelow, HasNoMap};
ghost use Rattle.gx_edit.specs.declared.error.EditError.{EditError};

/// A path map has at most one canonical directory.
pub fn directory_is_unique()
    ensures { (d e : Directory) (m : PathMap) → StandsFor d m → StandsFor e m → d ≡ e }
{}

/// Equal path maps have equal roots, in whatever order their paths were put.
pub fn equal_maps_have_equal_roots()
    ensures { (hash : HashKind) (d e : Directory) (m n : PathMap) → StandsFor d m → StandsFor e n
        → ((p : Path) → m p ≡ n p) → root_of hash d ≡ root_of hash e }
{}

/// Trees that represent one path map are one tree, whatever else is stored beside them.
pub fn root_is_unique()
    ensures { (hash : HashKind) (content other : Content) (tree twin : ObjectId) (m : PathMap)
        → Represents hash content tree m → Represents hash other twin m → tree ≡ twin }
{}

/// Path maps with one root are equal, unless a tree of the one and a different tree of the other share an id.
pub fn roots_tell_maps_apart()
    ensures { (hash : HashKind) (d e : Directory) (m n : PathMap) → HasIdsOf hash m → HasIdsOf hash n → StandsFor d m
        → StandsFor e n → root_of hash d ≡ root_of hash e → ((p : Path) → m p ≡ n p)
        ⊎ ShareAnId hash (trees_of hash d) (trees_of hash e) }
{}

/// What is stored and a root fix the path map: no content has two of one root.
pub fn map_is_unique()
    ensures { (hash : HashKind) (content : Content) (tree : ObjectId) (m n : PathMap) → HasIdsOf hash m
        → HasIdsOf hash n → Represents hash content tree m → Represents hash content tree n → (p : Path) → m p ≡ n p }
{}

/// A path map whose paths hold no zero byte has a canonical directory.
pub fn map_has_a_directory()
    ensures { (paths : PathList) → IsRising paths → IsPathMap (map_of paths) → has_zero paths ≡ false → (d : Directory)
        × StandsFor d (map_of paths) }
{}

/// A tree that represents a path map can be read as one: what stands at or below it is stored as a tree, and none of
/// that is without a map.
pub fn represented_tree_has_a_map()
    ensures { (hash : HashKind) (content : Content) (root : ObjectId) (m : PathMap) → HasIdsOf hash m
        → HasNoNullId hash m → Represents hash content root m → (id : ObjectId) → IsAtOrBelow hash content root id
        → IsStoredTree content id × ¬ HasNoMap hash content root id }
{}

/// Trees that may be written, as `check` finds, have no fault for which `write` with the same protections refuses them,
/// once the state is ready.
pub fn checked_output_has_no_fault()
    ensures { (output : Output) (protect : Protect) (given : List ObjectId) (checked ready new : StoreState)
        (error : EditError) → output.hash ≡ checked.hash → MayBeWritten output protect given checked
        → IsReady given checked ready → WriteCauses output (Some protect) ready new error → IsOfStore error }
{
    gx_store::laws::writing_adds();
}

/// Where objects of the given ids are stored, the state is ready for what was checked before.
pub fn stored_objects_make_ready()
    ensures { (given : List ObjectId) (objects : List (Kind × List ℕ)) (before : Content) (checked ready : StoreState)
        → ((id : ObjectId) → has_id given id ≡ true → has_id (map (id_of checked.hash) objects) id ≡ true)
        → checked.content ≡ Some before → Becomes (all_stored objects checked) ready → IsReady given checked ready }
{
    gx_store::laws::writing_adds();
}
