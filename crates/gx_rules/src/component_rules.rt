//! The rules of names in a tree, asked in their order.
ghost use Rattle.std.specs.Prelude.{◌≡◌, ◌||◌, MatchResult};
ghost use Rattle.std.specs.List.{list_any};
ghost use Rattle.gx_rules.specs.Component.{IsComponent, IsFirstViolated, seen, is_dot_git, is_illegal, ends_loosely, is_device};
ghost use Rattle.gx_rules.specs.ComponentRules.{JudgesEntry};

mod spelling;

use crate::ComponentError;
use spelling::{Seen, spells};

/// The names that Windows keeps for devices.
const DEVICES: [&str; 24] = [
    "con", "prn", "aux", "nul", "conin$", "conout$", "com1", "com2", "com3", "com4", "com5",
    "com6", "com7", "com8", "com9", "lpt1", "lpt2", "lpt3", "lpt4", "lpt5", "lpt6", "lpt7", "lpt8",
    "lpt9",
];

/// Which file systems a name must be safe on, besides those that keep each name as it is. The default is NTFS
/// alone, as in Git, since its folders are shared with systems of all kinds.
#[derive(Clone, Copy, Debug, PartialEq, Eq)]
pub struct Protect {
    /// HFS+ passes over some code points in names.
    pub hfs: bool,
    /// NTFS has several names for one file.
    pub ntfs: bool,
    /// Windows takes some bytes and some names for itself.
    pub windows: bool,
}

impl Default for Protect {
    ghost use Rattle.std.specs.Prelude.{◌≡◌, true, false};

    ghost is_default = { λ protect. protect ≡ record { hfs = false; ntfs = true; windows = false } };

    fn default() -> Protect {
        Protect {
            hfs: false,
            ntfs: true,
            windows: false,
        }
    }
}

/// Whether an entry of a tree may have that name. The error tells the first rule that the name breaks.
///
/// ```
/// component(b"hello.txt", false, Protect::default())?;
/// let is_refused = component(b".git", false, Protect::default()).is_err();
/// ```
pub fn component(name: &[u8], is_link: bool, protect: Protect) -> Result<(), ComponentError>
    ensures { MatchResult result
        (λ _. IsComponent name.now is_link protect) (IsFirstViolated name.now is_link protect) }
{
    check_rules(name, is_link, protect)
}

fn check_rules(name: &[u8], is_link: bool, protect: Protect) -> Result<(), ComponentError>
    ensures { JudgesEntry 0 7 name.now is_link protect result }
{
    check_everywhere(name, is_link, protect)?;
    check_git(name, is_link, protect)?;
    check_windows(name, is_link, protect)
}

/// The rules of paths on every system.
fn check_everywhere(name: &[u8], is_link: bool, protect: Protect) -> Result<(), ComponentError>
    ensures { JudgesEntry 0 3 name.now is_link protect result }
{
    if name.is_empty() {
        return Err(ComponentError::Empty);
    }
    if name.contains(&b'/') {
        return Err(ComponentError::PathSeparator);
    }
    if name == b".".as_slice() || name == b"..".as_slice() {
        return Err(ComponentError::Relative);
    }
    Ok(())
}

/// The rules on what Git keeps for itself.
fn check_git(name: &[u8], is_link: bool, protect: Protect) -> Result<(), ComponentError>
    ensures { JudgesEntry 3 5 name.now is_link protect result }
{
    if is_dot_git(name, protect) {
        return Err(ComponentError::DotGitDir);
    }
    if is_link && spells(Seen::new(name, protect.hfs), b".gitmodules", b"", b"") {
        return Err(ComponentError::SymlinkedGitModules);
    }
    Ok(())
}

/// The rules of Windows.
fn check_windows(name: &[u8], is_link: bool, protect: Protect) -> Result<(), ComponentError>
    ensures { JudgesEntry 5 7 name.now is_link protect result }
{
    if protect.windows && is_illegal_on_windows(name) {
        return Err(ComponentError::WindowsIllegal);
    }
    if protect.windows && is_device(name) {
        return Err(ComponentError::WindowsReserved);
    }
    Ok(())
}

/// Whether a protected file system takes the name for `.git`.
fn is_dot_git(name: &[u8], protect: Protect) -> bool
    ensures { result ≡ is_dot_git protect.ntfs (seen protect.hfs name.now) }
{
    let seen = || Seen::new(name, protect.hfs);
    spells(seen(), b".git", b"", b"")
        || protect.ntfs
            && (spells(seen(), b".git", b" .", b"\\:") || spells(seen(), b"git~1", b" .", b"\\:"))
}

fn is_illegal_on_windows(name: &[u8]) -> bool
    ensures { result ≡ (list_any is_illegal name.now || ends_loosely name.now) }
{
    has_illegal_byte(name) || ends_loosely(name)
}

fn has_illegal_byte(name: &[u8]) -> bool
    ensures { result ≡ list_any is_illegal name.now }
{
    name.iter().any(|byte| is_illegal(*byte))
}

fn ends_loosely(name: &[u8]) -> bool
    ensures { result ≡ ends_loosely name.now }
{
    name.ends_with(b" ") || name.ends_with(b".")
}

/// Whether Windows takes the byte for itself.
fn is_illegal(byte: u8) -> bool
    ensures { result ≡ is_illegal byte }
{
    byte < 32 || b"\\<>:\"|?*".contains(&byte)
}

/// Whether Windows takes the name for that of a device.
fn is_device(name: &[u8]) -> bool
    ensures { result ≡ is_device name.now }
{
    DEVICES.iter().any(|device| spells(Seen::new(name, false), device.as_bytes(), b" ", b"."))
}
