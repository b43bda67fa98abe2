//! The rules of reference names, asked in their order.
ghost use Rattle.std.specs.Prelude.{◌≡◌, ◌+◌, ◌-◌, ◌≤◌, ◌<◌, ◌↔◌, IsTrue, length, ◌≢◌, MatchResult};
ghost use Rattle.gx_rules.specs.Name.{IsPartialName, IsFirstBroken, is_forbidden, is_capital, ForbiddenAt, StandsAt, BeginsComponent, EndsComponent, HiddenAt, LockAt};
ghost use Rattle.std.specs.List.{list_all};
ghost use Rattle.gx_rules.specs.NameRules.{FindsFirst, Judges};

use crate::NameError;

/// Whether the name is a full one, or the first rule that it breaks.
pub(crate) fn check_full_name(name: &[u8]) -> Result<(), NameError>
    ensures { Judges 0 12 name.now result }
{
    check_rules_of_all(name)?;
    check_single_level(name)
}

/// Whether the name is a partial one, or the first rule that it breaks.
#[tactic(auto, using(crate::proofs::NameLaws::is_partial_name, crate::proofs::NameLaws::is_first_of_partial))]
pub(crate) fn check_partial_name(name: &[u8]) -> Result<(), NameError>
    ensures { MatchResult result (λ _. IsPartialName name.now)
        (λ error. IsFirstBroken name.now error × (error ≢ NameError.SomeLowercase)) }
{
    check_rules_of_all(name)
}

/// The rules that partial names keep too.
fn check_rules_of_all(name: &[u8]) -> Result<(), NameError>
    ensures { Judges 0 11 name.now result }
{
    check_bytes(name)?;
    check_slashes(name)?;
    check_components(name)?;
    check_whole(name)
}

/// The rules on single bytes and on pairs of them.
fn check_bytes(name: &[u8]) -> Result<(), NameError>
    ensures { Judges 0 4 name.now result }
{
    if name.is_empty() {
        return Err(NameError::Empty);
    }
    if let Some(at) = find_forbidden(name) {
        return Err(NameError::InvalidByte { at });
    }
    if let Some(at) = find(name, b"..") {
        return Err(NameError::RepeatedDot { at });
    }
    if let Some(at) = find(name, b"@{") {
        return Err(NameError::ReflogPortion { at });
    }
    Ok(())
}

/// The rules on slashes.
fn check_slashes(name: &[u8]) -> Result<(), NameError>
    ensures { Judges 4 7 name.now result }
{
    if name.starts_with(b"/") {
        return Err(NameError::StartsWithSlash);
    }
    if ends_with(name, b"/") {
        return Err(NameError::EndsWithSlash);
    }
    if let Some(at) = find(name, b"//") {
        return Err(NameError::RepeatedSlash { at });
    }
    Ok(())
}

/// The rules on the components between slashes.
fn check_components(name: &[u8]) -> Result<(), NameError>
    ensures { Judges 7 9 name.now result }
{
    if let Some(at) = find_hidden(name) {
        return Err(NameError::StartsWithDot { at });
    }
    if let Some(at) = find_lock(name) {
        return Err(NameError::LockFileSuffix { at });
    }
    Ok(())
}

/// The rules on the name as a whole.
fn check_whole(name: &[u8]) -> Result<(), NameError>
    ensures { Judges 9 11 name.now result }
{
    if ends_with(name, b".") {
        return Err(NameError::EndsWithDot);
    }
    if name == b"@".as_slice() {
        return Err(NameError::SingleAt);
    }
    Ok(())
}

/// The rule on full names without a slash.
fn check_single_level(name: &[u8]) -> Result<(), NameError>
    ensures { Judges 11 12 name.now result }
{
    if find(name, b"/").is_none() && !are_capitals(name) {
        return Err(NameError::SomeLowercase);
    }
    Ok(())
}

/// Whether no name may contain the byte.
fn is_forbidden(byte: u8) -> bool
    ensures { result ≡ is_forbidden byte }
{
    byte < 32 || byte == 127 || b" ~^:?*[\\".contains(&byte)
}

fn find_forbidden(name: &[u8]) -> Option<usize>
    ensures { FindsFirst (ForbiddenAt name.now) result }
{
    for (at, byte) in name.iter().enumerate() {
        if is_forbidden(*byte) {
            return Some(at);
        }
    }
    None
}

/// Whether all bytes are capital letters or underscores.
fn are_capitals(name: &[u8]) -> bool
    ensures { result ≡ list_all is_capital name.now }
{
    name.iter()
        .all(|byte| byte.is_ascii_uppercase() || *byte == b'_')
}

/// Whether the name contains the text at the place.
fn stands_at(name: &[u8], text: &[u8], at: usize) -> bool
    requires { at ≤ length name.now }
    ensures stands { IsTrue result ↔ StandsAt text.now name.now at }
    ensures fits { IsTrue result → at + length text.now ≤ length name.now }
{
    name[at..].starts_with(text)
}

/// Whether the name ends with the one byte.
fn ends_with(name: &[u8], byte: &[u8]) -> bool
    requires { length byte.now ≡ 1 }
    ensures { IsTrue result ↔ StandsAt byte.now name.now (length name.now - 1) }
{
    stands_at(name, byte, name.len().saturating_sub(1))
}

/// The first place of the text.
fn find(name: &[u8], text: &[u8]) -> Option<usize>
    requires { 0 < length text.now }
    ensures { FindsFirst (StandsAt text.now name.now) result }
{
    for at in 0..name.len() {
        if stands_at(name, text, at) {
            return Some(at);
        }
    }
    None
}

/// The first place where a component begins with a dot.
fn find_hidden(name: &[u8]) -> Option<usize>
    ensures { FindsFirst (HiddenAt name.now) result }
{
    for at in 0..name.len() {
        if stands_at(name, b".", at) && begins_component(name, at) {
            return Some(at);
        }
    }
    None
}

/// The first place where a component's suffix is that of lock files.
fn find_lock(name: &[u8]) -> Option<usize>
    ensures { FindsFirst (LockAt name.now) result }
{
    for at in 0..name.len() {
        if stands_at(name, b".lock", at) && ends_component(name, at + 5) {
            return Some(at);
        }
    }
    None
}

fn begins_component(name: &[u8], at: usize) -> bool
    requires { at ≤ length name.now }
    ensures { IsTrue result ↔ BeginsComponent name.now at }
{
    at == 0 || stands_at(name, b"/", at - 1)
}

fn ends_component(name: &[u8], at: usize) -> bool
    requires { at ≤ length name.now }
    ensures { IsTrue result ↔ EndsComponent name.now at }
{
    at == name.len() || stands_at(name, b"/", at)
}
