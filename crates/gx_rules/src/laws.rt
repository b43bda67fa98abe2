//! What holds of the rules of names, components, paths and patterns. A proof above has each law by calling its
//! function.
ghost use Rattle.std.specs.Prelude.{◌≡◌, ◌⊎◌, ℕ, List, [], ◌∷◌, ◌++◌, bytes_eq, encode_utf8};
ghost use Rattle.std.specs.List.{list_any};
ghost use Rattle.gx_rules.specs.declared.component_error.ComponentError.{ComponentError};
ghost use Rattle.gx_rules.specs.declared.name_error.NameError.{NameError};
ghost use Rattle.gx_rules.specs.Category.{category_of, shared_prefix, short_name, IsInDirectoryOf};
ghost use Rattle.gx_rules.specs.Component.{IsComponent, IsFirstViolated, is_ignorable, ignorable_points};
ghost use Rattle.gx_rules.specs.Name.{Breaks, IsFullName, IsPartialName, IsFirstBroken};
ghost use Rattle.gx_rules.specs.Namespace.{namespace_prefix, IsNamespacePrefix};
ghost use Rattle.gx_rules.specs.Path.{Path, components, IsParted};
ghost use Rattle.gx_rules.specs.Pattern.{Piece, Spells, letters};
ghost use Rattle.gx_rules.specs.RefFormat.{IsWellFormed};

use crate::name_rules::check_full_name;
use crate::{FullName, Namespace, PartialName, Protect, component};

/// Each name is full, or breaks some rule first, and not both.
pub fn every_name_is_judged(name: &[u8])
    ensures judged { IsFullName name.now ⊎ ((error : NameError) × IsFirstBroken name.now error) }
    ensures apart { IsFullName name.now → (error : NameError) → ¬ IsFirstBroken name.now error }
{
    let _ = check_full_name(name);
}

/// At most one error names the first rule that a name breaks.
pub fn one_error_is_first(name: &[u8])
    ensures { (a b : NameError) → IsFirstBroken name.now a → IsFirstBroken name.now b → a ≡ b }
{}

/// Each `FullName` keeps all rules of names, and each `PartialName` those that partial names keep.
pub fn names_keep_their_rules(full: &FullName, partial: &PartialName)
    ensures full { IsFullName full.now }
    ensures partial { IsPartialName partial.now }
{
    full.keeps_rules();
    partial.keeps_rules();
}

/// Each `Namespace` is the prefix of a name that the rules allow.
pub fn namespaces_have_names(namespace: &Namespace)
    ensures { IsNamespacePrefix namespace.now }
{
    namespace.keeps_rules();
}

/// A full name that follows the prefix of a namespace is a full name.
pub fn prefixed_names_are_full(name: &[u8], full: &[u8])
    ensures { IsPartialName name.now → IsFullName full.now → IsFullName (namespace_prefix name.now ++ full.now) }
{}

/// The components of a path are names without a slash that give the path when slashes join them, and no other
/// names do.
pub fn components_part_the_path(path: &[u8])
    ensures parted { IsParted path.now (components path.now) }
    ensures once { (names : Path) → IsParted path.now names → names ≡ components path.now }
{}

/// The partial names are the texts that keep the rules of git-check-ref-format(1) but for the second.
pub fn partial_names_are_well_formed(name: &[u8])
    ensures formed { IsPartialName name.now → IsWellFormed name.now }
    ensures partial { IsWellFormed name.now → IsPartialName name.now }
{}

/// A text may name an entry of a tree, or breaks some rule first, and not both.
pub fn every_component_is_judged(name: &[u8], is_link: bool, protect: Protect)
    ensures judged { IsComponent name.now is_link protect
        ⊎ ((error : ComponentError) × IsFirstViolated name.now is_link protect error) }
    ensures apart { IsComponent name.now is_link protect → (error : ComponentError)
        → ¬ IsFirstViolated name.now is_link protect error }
{
    let _ = component(name, is_link, protect);
}

/// The text of a pattern is at most one list of pieces.
pub fn a_pattern_is_one_list_of_pieces(text: &[u8])
    ensures { (a b : List Piece) → Spells a (letters text.now) → Spells b (letters text.now) → a ≡ b }
{}

/// At most one error names the first rule that such a text breaks.
pub fn one_component_error_is_first(name: &[u8], is_link: bool, protect: Protect)
    ensures { (a b : ComponentError) → IsFirstViolated name.now is_link protect a
        → IsFirstViolated name.now is_link protect b → a ≡ b }
{}

/// The bytes that HFS+ passes over are the UTF-8 of its code points.
pub fn ignorable_bytes_are_code_points(a: u8, b: u8, c: u8)
    ensures { is_ignorable a b c ≡ list_any (λ point. bytes_eq (a ∷ b ∷ c ∷ []) (encode_utf8 point)) ignorable_points }
{}

/// A name is the prefix that its category's names share, followed by its short name.
pub fn a_name_is_its_prefix_and_short_name()
    ensures { (name : List ℕ) → name ≡ shared_prefix (category_of name) ++ short_name name }
{}

/// The category says in which directory the name is, or that it is in none.
pub fn categories_have_directories()
    ensures { (name : List ℕ) → IsInDirectoryOf (category_of name) name }
{}
