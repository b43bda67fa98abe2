//! Rows on names in trees, on paths and on patterns.

use gx_rules::{ComponentError, Pattern, PatternError, Protect, component, components};
use probe_rows::ProbeError;
use probe_rows::answers::{push_field, push_word, shown, truth, word};
use std::alloc::Global;

/// The answers to rows on components, paths and patterns.
pub fn answer(alloc: Global, call: &str, fields: &[Vec<u8>]) -> Result<Vec<u8>, ProbeError> {
    match fields {
        [first] => answer_to_one(alloc, call, first),
        [first, second] => answer_to_two(alloc, call, first, second),
        _ => Err(ProbeError::UnknownCall),
    }
}

fn answer_to_one(alloc: Global, call: &str, first: &[u8]) -> Result<Vec<u8>, ProbeError> {
    match call {
        "components" => answer_path(alloc, first),
        "pattern" => answer_pattern(alloc, first),
        _ => Err(ProbeError::UnknownCall),
    }
}

fn answer_to_two(
    alloc: Global,
    call: &str,
    first: &[u8],
    second: &[u8],
) -> Result<Vec<u8>, ProbeError> {
    match call {
        "component" => answer_component(alloc, first, second, false),
        "link_component" => answer_component(alloc, first, second, true),
        "component_message" => answer_message(alloc, first, second),
        "matches" => answer_match(alloc, first, second),
        _ => Err(ProbeError::UnknownCall),
    }
}

fn answer_component(
    alloc: Global,
    protect: &[u8],
    name: &[u8],
    is_link: bool,
) -> Result<Vec<u8>, ProbeError> {
    match component(name, is_link, protect_of(protect)?) {
        Ok(()) => word(alloc, "ok"),
        Err(error) => word(alloc, refusal(error)),
    }
}

/// `none`, `default`, or words for file systems.
fn protect_of(field: &[u8]) -> Result<Protect, ProbeError> {
    match str::from_utf8(field) {
        Ok("default") => Ok(Protect::default()),
        Ok(word) => protect_by(word),
        Err(_) => Err(ProbeError::UnknownCall),
    }
}

fn protect_by(word: &str) -> Result<Protect, ProbeError> {
    let (hfs, ntfs, windows) = match word {
        "none" => (false, false, false),
        "hfs" => (true, false, false),
        "ntfs" => (false, true, false),
        "windows" => (false, false, true),
        "hfs-ntfs" => (true, true, false),
        "all" => (true, true, true),
        _ => return Err(ProbeError::UnknownCall),
    };
    Ok(Protect { hfs, ntfs, windows })
}

fn refusal(error: ComponentError) -> &'static str {
    match error {
        ComponentError::Empty => "empty",
        ComponentError::PathSeparator => "path-separator",
        ComponentError::Relative => "relative",
        ComponentError::DotGitDir => "dot-git-dir",
        ComponentError::SymlinkedGitModules => "symlinked-git-modules",
        ComponentError::WindowsIllegal => "windows-illegal",
        ComponentError::WindowsReserved => "windows-reserved",
    }
}

/// The words on why a link may not have the name.
fn answer_message(alloc: Global, protect: &[u8], name: &[u8]) -> Result<Vec<u8>, ProbeError> {
    match component(name, true, protect_of(protect)?) {
        Ok(()) => word(alloc, "ok"),
        Err(error) => shown(alloc, &error),
    }
}

fn answer_path(alloc: Global, path: &[u8]) -> Result<Vec<u8>, ProbeError> {
    let mut answer = Vec::new(alloc);
    for component in components(path) {
        push_field(&mut answer, component)?;
    }
    Ok(answer)
}

/// The text of a pattern, and what it tells of itself.
fn answer_pattern(alloc: Global, text: &[u8]) -> Result<Vec<u8>, ProbeError> {
    match Pattern::new(alloc, text) {
        Ok(pattern) => signs_of(alloc, &pattern),
        Err(PatternError::Empty) => word(alloc, "empty"),
        Err(PatternError::NoMemory) => Err(ProbeError::NoMemory),
    }
}

fn signs_of(alloc: Global, pattern: &Pattern) -> Result<Vec<u8>, ProbeError> {
    let mut answer = Vec::new(alloc);
    push_field(&mut answer, pattern.as_slice())?;
    if pattern.is_absolute() {
        push_word(&mut answer, "absolute")?;
    }
    if pattern.must_be_dir() {
        push_word(&mut answer, "directory")?;
    }
    if pattern.has_wildcard() {
        push_word(&mut answer, "wildcard")?;
    }
    Ok(answer)
}

fn answer_match(alloc: Global, text: &[u8], name: &[u8]) -> Result<Vec<u8>, ProbeError> {
    match Pattern::new(alloc, text) {
        Ok(pattern) => truth(alloc, pattern.matches(name)),
        Err(PatternError::Empty) => word(alloc, "empty"),
        Err(PatternError::NoMemory) => Err(ProbeError::NoMemory),
    }
}
