//! What follows from the definitions, for proofs to cite. The functions change nothing.
ghost use Rattle.std.specs.Prelude.{◌≡◌, ◌++◌, ℕ, List, [], ◌∷◌, Option};
ghost use Rattle.gx_object.specs.declared.signature.Time.{Time};
ghost use Rattle.gx_actor.specs.declared.mailmap.entry.Entry.{Entry};
ghost use Rattle.gx_actor.specs.Date.{SpellsDate};
ghost use Rattle.gx_actor.specs.MailmapLine.{IsBlank, IsComment, IsLineOf, IsMailmap};
ghost use Rattle.gx_actor.specs.Persona.{first_set};

use gx_object::laws::time_is_spelled_once;

/// A text says one moment at most, so `read_time` has one answer for each text and given moment.
pub fn date_is_spelled_once()
    ensures { (now : Time) (text : List ℕ) (a b : Time) → SpellsDate now text a → SpellsDate now text b → a ≡ b }
{
    time_is_spelled_once();
}

/// A persona of settings has the first text that is there, of its own, its fallback, and the user's.
#[tactic(auto, using(crate::proofs::PersonaLemmas::first_of_both))]
pub fn fallbacks_come_in_order()
    ensures { (own others : List (Option (List ℕ))) →
        first_set (first_set own ∷ first_set others ∷ []) ≡ first_set (own ++ others) }
{}

/// A line is that of one entry at most, so a text is the mailmap of one list of entries.
pub fn mailmap_is_read_once()
    ensures line { (line : List ℕ) (a b : Entry) → IsLineOf a line → IsLineOf b line → a ≡ b }
    ensures text { (text : List ℕ) (a b : List Entry) → IsMailmap text a → IsMailmap text b → a ≡ b }
{}

/// Comments and blank lines have no entry.
pub fn comments_and_blank_lines_have_no_entry()
    ensures comment { (line : List ℕ) (entry : Entry) → IsComment line → ¬ IsLineOf entry line }
    ensures blank { (line : List ℕ) (entry : Entry) → IsBlank line → ¬ IsLineOf entry line }
{}
