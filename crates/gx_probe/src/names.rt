//! Names of references.

use gx_hash::NoMemory;
use gx_rules::{Category, FullName, NameError, Namespace, PartialName, expand_namespace};
use probe_rows::ProbeError;
use probe_rows::answers::{at, order, push_field, quoted, shown, word};
use std::alloc::Global;

/// A verdict for each line of the input.
pub fn judge(alloc: Global, input: &[u8]) -> Result<Vec<u8>, ProbeError> {
    let mut verdicts = Vec::new(alloc);
    push_verdicts(alloc, &mut verdicts, input)?;
    Ok(verdicts)
}

fn push_verdicts(alloc: Global, verdicts: &mut Vec<u8>, names: &[u8]) -> Result<(), NoMemory> {
    for name in names
        .strip_suffix(b"\n")
        .unwrap_or(names)
        .split(|byte| *byte == b'\n')
    {
        verdicts.extend_from_slice(verdict(alloc, name)?)?;
    }
    Ok(())
}

/// Each full name is a partial one too, so the stronger verdict is given.
fn verdict(alloc: Global, name: &[u8]) -> Result<&'static [u8], NoMemory> {
    match FullName::new(alloc, name) {
        Ok(_) => Ok(b"full\n"),
        Err(NameError::NoMemory) => Err(NoMemory),
        Err(_) => weaker_verdict(alloc, name),
    }
}

fn weaker_verdict(alloc: Global, name: &[u8]) -> Result<&'static [u8], NoMemory> {
    match PartialName::new(alloc, name) {
        Ok(_) => Ok(b"partial\n"),
        Err(NameError::NoMemory) => Err(NoMemory),
        Err(_) => Ok(b"no\n"),
    }
}

/// The answers to rows on names of references.
pub fn answer(alloc: Global, call: &str, fields: &[Vec<u8>]) -> Result<Vec<u8>, ProbeError> {
    match fields {
        [name] => answer_name(alloc, call, name),
        [first, second] => answer_two(alloc, call, first, second),
        _ => Err(ProbeError::UnknownCall),
    }
}

fn answer_two(
    alloc: Global,
    call: &str,
    first: &[u8],
    second: &[u8],
) -> Result<Vec<u8>, ProbeError> {
    match call {
        "full_name_in" | "strip" => answer_in(alloc, call, first, second),
        "compare_full_names" => full_order(alloc, first, second),
        "compare_partial_names" => partial_order(alloc, first, second),
        _ => Err(ProbeError::UnknownCall),
    }
}

fn answer_name(alloc: Global, call: &str, name: &[u8]) -> Result<Vec<u8>, ProbeError> {
    match call {
        "name_message" => message(alloc, name),
        "full_name"
        | "full_name_copy"
        | "full_name_clone"
        | "category"
        | "shorten"
        | "to_partial" => answer_full(alloc, call, name),
        "partial_name"
        | "partial_name_copy"
        | "partial_name_clone"
        | "namespace"
        | "namespace_copy" => answer_partial(alloc, call, name),
        _ => Err(ProbeError::UnknownCall),
    }
}

fn answer_full(alloc: Global, call: &str, name: &[u8]) -> Result<Vec<u8>, ProbeError> {
    match FullName::new(alloc, name) {
        Ok(name) => full_name(alloc, call, &name),
        Err(error) => refusal(alloc, error),
    }
}

fn full_name(alloc: Global, call: &str, name: &FullName) -> Result<Vec<u8>, ProbeError> {
    match call {
        "category" => category(alloc, name),
        "shorten" => quoted(alloc, name.shorten().as_bytes()),
        "to_partial" => to_partial(alloc, name),
        "full_name_copy" => full_copy(alloc, name),
        "full_name_clone" => full_clone(alloc, name),
        _ => quoted(alloc, name.as_slice()),
    }
}

fn to_partial(alloc: Global, name: &FullName) -> Result<Vec<u8>, ProbeError> {
    quoted(alloc, name.to_partial()?.as_slice())
}

fn full_copy(alloc: Global, name: &FullName) -> Result<Vec<u8>, ProbeError> {
    quoted(alloc, name.try_clone()?.as_slice())
}

fn full_clone(alloc: Global, name: &FullName) -> Result<Vec<u8>, ProbeError> {
    quoted(alloc, name.clone()?.as_slice())
}

/// The category of a name, and the name without its directory.
fn category(alloc: Global, name: &FullName) -> Result<Vec<u8>, ProbeError> {
    let Some((category, short)) = name.category_and_short_name() else {
        return word(alloc, "none");
    };
    let mut answer = word(alloc, category_word(category))?;
    push_field(&mut answer, short.as_bytes())?;
    Ok(answer)
}

fn category_word(category: Category) -> &'static str {
    match category {
        Category::Tag => "tag",
        Category::LocalBranch => "local-branch",
        Category::RemoteBranch => "remote-branch",
        Category::Note => "note",
        Category::PseudoRef => "pseudo-ref",
    }
}

fn answer_partial(alloc: Global, call: &str, name: &[u8]) -> Result<Vec<u8>, ProbeError> {
    match PartialName::new(alloc, name) {
        Ok(name) => partial_name(alloc, call, &name),
        Err(error) => refusal(alloc, error),
    }
}

fn partial_name(alloc: Global, call: &str, name: &PartialName) -> Result<Vec<u8>, ProbeError> {
    match call {
        "namespace" => namespace(alloc, name),
        "namespace_copy" => namespace_copy(alloc, name),
        "partial_name_copy" => partial_copy(alloc, name),
        "partial_name_clone" => partial_clone(alloc, name),
        _ => quoted(alloc, name.as_slice()),
    }
}

fn namespace(alloc: Global, name: &PartialName) -> Result<Vec<u8>, ProbeError> {
    quoted(alloc, expand_namespace(alloc, name)?.as_slice())
}

fn namespace_copy(alloc: Global, name: &PartialName) -> Result<Vec<u8>, ProbeError> {
    let namespace = expand_namespace(alloc, name)?;
    quoted(alloc, namespace.try_clone()?.as_bstr().as_bytes())
}

/// What a namespace makes of a name.
fn answer_in(alloc: Global, call: &str, space: &[u8], name: &[u8]) -> Result<Vec<u8>, ProbeError> {
    match (PartialName::new(alloc, space), FullName::new(alloc, name)) {
        (Ok(space), Ok(name)) => name_under(alloc, call, &space, &name),
        _ => word(alloc, "no names"),
    }
}

fn name_under(
    alloc: Global,
    call: &str,
    space: &PartialName,
    name: &FullName,
) -> Result<Vec<u8>, ProbeError> {
    let space = expand_namespace(alloc, space)?;
    name_in(alloc, call, &space, name)
}

fn name_in(
    alloc: Global,
    call: &str,
    space: &Namespace,
    name: &FullName,
) -> Result<Vec<u8>, ProbeError> {
    if call == "full_name_in" {
        return quoted(alloc, space.full_name(name)?.as_slice());
    }
    match space.strip(alloc, name)? {
        Some(short) => quoted(alloc, short.as_slice()),
        None => word(alloc, "none"),
    }
}

fn partial_copy(alloc: Global, name: &PartialName) -> Result<Vec<u8>, ProbeError> {
    quoted(alloc, name.try_clone()?.as_slice())
}

fn partial_clone(alloc: Global, name: &PartialName) -> Result<Vec<u8>, ProbeError> {
    quoted(alloc, name.clone()?.as_slice())
}

fn full_order(alloc: Global, first: &[u8], second: &[u8]) -> Result<Vec<u8>, ProbeError> {
    match (FullName::new(alloc, first), FullName::new(alloc, second)) {
        (Ok(first), Ok(second)) => order(alloc, first.cmp(&second)),
        _ => word(alloc, "no names"),
    }
}

fn partial_order(alloc: Global, first: &[u8], second: &[u8]) -> Result<Vec<u8>, ProbeError> {
    match (
        PartialName::new(alloc, first),
        PartialName::new(alloc, second),
    ) {
        (Ok(first), Ok(second)) => order(alloc, first.cmp(&second)),
        _ => word(alloc, "no names"),
    }
}

/// The words on why the name is no full one.
fn message(alloc: Global, name: &[u8]) -> Result<Vec<u8>, ProbeError> {
    match FullName::new(alloc, name) {
        Ok(_) => word(alloc, "ok"),
        Err(error) => shown(alloc, &error),
    }
}

fn refusal(alloc: Global, error: NameError) -> Result<Vec<u8>, ProbeError> {
    match error {
        NameError::Empty => word(alloc, "empty"),
        NameError::InvalidByte { at: place } => at(alloc, "invalid-byte", place),
        NameError::RepeatedDot { at: place } => at(alloc, "repeated-dot", place),
        NameError::ReflogPortion { at: place } => at(alloc, "reflog-portion", place),
        NameError::StartsWithSlash => word(alloc, "starts-with-slash"),
        NameError::EndsWithSlash => word(alloc, "ends-with-slash"),
        NameError::RepeatedSlash { at: place } => at(alloc, "repeated-slash", place),
        NameError::StartsWithDot { at: place } => at(alloc, "starts-with-dot", place),
        NameError::LockFileSuffix { at: place } => at(alloc, "lock-file-suffix", place),
        NameError::EndsWithDot => word(alloc, "ends-with-dot"),
        NameError::SingleAt => word(alloc, "single-at"),
        NameError::SomeLowercase => word(alloc, "some-lowercase"),
        NameError::NoMemory => Err(ProbeError::NoMemory),
    }
}
