//! What an editor's view stands for, and what is written of it. The functions do nothing.

ghost use Rattle.gx_edit.specs.LawsView.{LoadExists, RepresentedIsPlain, EditedIsPlain, WrittenPlainDirectory, EditedStands, EditedLoads, UpsertedLoads, RemovedLoads, WrittenInside, WrittenAsRead, EmptyStands, ReadStands, OpenedStands, UpsertedStands, RemovedStands, GrownStands, InsideStands, WrittenOnce, WrittenEntries, WrittenDirectory, WrittenRoot, RewrittenStands, WrittenRepresents, WrittenHasMap, WrittenEntriesStand, LoadedHasMap};

/// What is stored can be loaded.
pub fn load_exists()
    ensures { LoadExists }
{
    gx_object::laws::bytes_are_read_in_one_way();
}

/// A view of a directory without entries stands for the map without paths.
pub fn empty_view_stands()
    ensures { EmptyStands }
{}

/// The entries of a tree that has a map are a view that stands for it.
pub fn read_view_stands()
    ensures { ReadStands }
{}

/// Where a directory is loaded, a leaf of its name is gone, and the map is else as before.
pub fn opened_view_stands()
    ensures { OpenedStands }
{}

/// A leaf that is put into the view is put into the map.
pub fn upserted_view_stands()
    ensures { UpsertedStands }
{}

/// A path that is removed from the view is dropped from the map.
pub fn removed_view_stands()
    ensures { RemovedStands }
{}

/// Where a leaf is put, no directory comes to be loaded but those that lead to its path.
pub fn upserted_view_loads()
    ensures { UpsertedLoads }
{}

/// Where a path is removed, no directory comes to be loaded but those that lead to it.
pub fn removed_view_loads()
    ensures { RemovedLoads }
{}

/// Edits of the view are edits of the map.
pub fn edited_view_stands()
    ensures { EditedStands }
{}

/// Where edits are made, no directory comes to be loaded but those that lead to one of their paths.
pub fn edited_view_loads()
    ensures { EditedLoads }
{}

/// A view stands for its map still where what is stored only grew.
pub fn grown_view_stands()
    ensures { GrownStands }
{}

/// The view of a loaded directory stands for what the map has below it.
pub fn inner_view_stands()
    ensures { InsideStands }
{}

/// Where a view stands for a map, each tree that is loaded on the way to a path has a map.
pub fn loaded_trees_have_maps()
    ensures { LoadedHasMap }
{}

/// One list of entries is written of a view.
pub fn view_is_written_once()
    ensures { WrittenOnce }
{}

/// What is written of a view that stands for a map are the entries of the map's directory.
pub fn written_entries_are_the_directory()
    ensures { WrittenEntries }
{}

/// What is written of a directory are the entries of the one that stands for the map below its path.
pub fn written_entries_are_the_inner_directory()
    ensures { WrittenInside }
{}

/// Each entry that is written of a view that stands for a map is that of a leaf of the map, or of a directory whose
/// tree is written or stored.
pub fn written_entries_stand()
    ensures { WrittenEntriesStand }
{}

/// Where nothing is loaded below the root of a tree that has a map, the tree is written as it is.
pub fn read_view_is_written_as_read()
    ensures { WrittenAsRead }
{}

/// Where the names in what is written are names that trees can spell, the map has a directory.
pub fn written_view_has_a_directory()
    ensures { WrittenDirectory }
{}

/// Where the names on the map's paths are plain, and all that is written can be spelled, the map has a directory.
pub fn spelled_view_has_a_directory()
    ensures { WrittenPlainDirectory }
{}

/// The names on the paths of a map that a tree represents are plain.
pub fn represented_map_is_plain()
    ensures { RepresentedIsPlain }
{}

/// The names on a map's paths stay plain where edits are made whose paths have no empty name.
pub fn edited_map_is_plain()
    ensures { EditedIsPlain }
{}

/// What is written of a view that stands for a map has the map's root, and each of its trees is one of the map's.
pub fn written_root_is_the_map()
    ensures { WrittenRoot }
{}

/// A view of the entries that were written stands for the map, once the root has it.
pub fn rewritten_view_stands()
    ensures { RewrittenStands }
{}

/// Once the trees are stored, and what was stored is kept, the root represents the map.
pub fn stored_output_represents()
    ensures { WrittenRepresents }
{}

/// Where objects are added, the trees among them, no two different ones share an id, and none has the null id, the root
/// has the map.
pub fn written_view_has_the_map()
    ensures { WrittenHasMap }
{
    gx_store::laws::found_stays();
    gx_store::laws::added_is_found();
}
