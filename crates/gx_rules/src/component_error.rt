//! Why a text is no name of an entry.
ghost use Rattle.std.specs.Prelude.{◌≡◌};

use thiserror::Error;

/// Why a text may not name an entry of a tree: the first rule that it breaks, in the order of the variants.
#[derive(Clone, Copy, Debug, PartialEq, Eq, Error)]
pub enum ComponentError {
    #[error("a path component must not be empty")]
    Empty,
    #[error("a path component must not contain a slash")]
    PathSeparator,
    #[error("a path component must not be '.' or '..'")]
    Relative,
    /// Also what a protected file system takes for the same.
    #[error("a path component must not be '.git'")]
    DotGitDir,
    #[error("'.gitmodules' must not be a symbolic link")]
    SymlinkedGitModules,
    #[error("a path component must not have a byte or an end that Windows forbids")]
    WindowsIllegal,
    #[error("a path component must not be the name of a device of Windows")]
    WindowsReserved,
}
