//! Visitors of the entries of trees.

ghost use Rattle.std.specs.Prelude.{◌≡◌, ◌↔◌, ℕ, true, false, List, Option, IfOk, OnErr, IsTrue};
ghost use Rattle.gx_object.specs.TreeSpelling.{entry_of};
ghost use Rattle.gx_walk.specs.Traversal.{is_entered};
ghost use Rattle.gx_walk.specs.Visits.{TreeVisit, visit_of, Answered, EndsWithName, IsShown};

use bstr::BStr;
use gx_hash::NoMemory;
use gx_object::{Entry, EntryRef};

/// What a visitor answers at an entry.
#[derive(Clone, Copy, Debug, PartialEq, Eq)]
pub enum Action {
    /// Go on, and into the entry if it is a tree.
    Continue,
    /// Go on, but not into the entry.
    Skip,
    /// End the traversal.
    Cancel,
}

/// A visitor of the entries of trees. It counts how often it has answered `Cancel`.
pub trait Visit {
    /// The visits so far, if the visitor tells them.
    ghost visits: { Self → Option (List TreeVisit) };

    /// How often it has answered `Cancel`.
    ghost cancels: { Self → ℕ };

    /// Visits an entry that is a tree. The path is whole: its names are separated by slashes, and it ends with the
    /// entry's name.
    fn visit_tree(&mut self, path: &[u8], entry: &EntryRef<'_>) -> Result<Action, NoMemory>
        requires { IsShown path.now (entry_of entry.now) true }
        ensures ok { IfOk result (λ answer. Answered (visit_of path.now (entry_of entry.now) answer)
            (Self.visits self.old) (Self.visits self.new) (Self.cancels self.old) (Self.cancels self.new)) }
        ensures leaves { OnErr result (Self.visits self.new ≡ Self.visits self.old) }
        ensures count { OnErr result (Self.cancels self.new ≡ Self.cancels self.old) };

    /// Visits any other entry.
    fn visit_nontree(&mut self, path: &[u8], entry: &EntryRef<'_>) -> Result<Action, NoMemory>
        requires { IsShown path.now (entry_of entry.now) false }
        ensures ok { IfOk result (λ answer. Answered (visit_of path.now (entry_of entry.now) answer)
            (Self.visits self.old) (Self.visits self.new) (Self.cancels self.old) (Self.cancels self.new)) }
        ensures leaves { OnErr result (Self.visits self.new ≡ Self.visits self.old) }
        ensures count { OnErr result (Self.cancels self.new ≡ Self.cancels self.old) };
}

/// Shows the visitor an entry.
pub(super) fn visit_entry<V: Visit>(
    visit: &mut V,
    path: &[u8],
    entry: &Entry,
) -> Result<Action, NoMemory>
    requires { EndsWithName path.now entry.now }
    ensures ok { IfOk result (λ answer. Answered (visit_of path.now entry.now answer)
        (V.visits visit.old) (V.visits visit.new) (V.cancels visit.old) (V.cancels visit.new)) }
    ensures leaves { OnErr result (V.visits visit.new ≡ V.visits visit.old) }
    ensures count { OnErr result (V.cancels visit.new ≡ V.cancels visit.old) }
{
    let borrowed = EntryRef {
        mode: entry.mode,
        filename: BStr::new(entry.filename.as_slice()),
        oid: entry.oid,
    };
    if entry.mode.is_tree() {
        visit.visit_tree(path, &borrowed)
    } else {
        visit.visit_nontree(path, &borrowed)
    }
}

pub(super) fn is_cancel(action: Action) -> bool
    ensures { IsTrue result ↔ (action ≡ Action.Cancel) }
{
    match action {
        Action::Cancel => true,
        Action::Continue | Action::Skip => false,
    }
}

/// Whether the traversal enters the entry after this answer.
pub(super) fn is_entered(entry: &Entry, action: Action) -> bool
    ensures { result ≡ is_entered entry.now action }
{
    match action {
        Action::Continue => entry.mode.is_tree(),
        Action::Skip | Action::Cancel => false,
    }
}
