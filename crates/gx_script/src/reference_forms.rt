//! The forms of one line that change and list references.

ghost use Rattle.gx_script.specs.Items.{NoNewline};
ghost use Rattle.gx_script.specs.Lines.{IsOneLine, IsNoIdentity, IsNoDelete, IsNoRefs, IsNoLog, IsNoNamespace, IsNoReference};
ghost use Rattle.std.specs.Prelude.{◌≡◌, ◌≢◌, IfOk};

use crate::Request;
use crate::fields::{expect, full_name, identity, partial_name};
use crate::split::{after, pair};
use gx_hash::{Bytes, HashKind, NoMemory};
use std::alloc::Global;

fn identity_form(alloc: Global, hash: HashKind, line: &[u8]) -> Result<Option<Request>, NoMemory>
    requires { NoNewline line.now }
    ensures { IfOk result (λ found. IsOneLine hash line.now (IsNoIdentity line.now) found) }
{
    let _ = hash;
    match identity(alloc, b"identity ", line)? {
        Some(who) => Ok(Some(Request::Identity(who))),
        None => Ok(None),
    }
}

fn delete_form(alloc: Global, hash: HashKind, line: &[u8]) -> Result<Option<Request>, NoMemory>
    ensures { IfOk result (λ found. IsOneLine hash line.now (IsNoDelete hash line.now) found) }
{
    let Some((name, wanted)) = pair(line, b"delete ") else {
        return Ok(None);
    };
    let Some(name) = full_name(alloc, name)? else {
        return Ok(None);
    };
    let Some(expect) = expect(alloc, hash, wanted)? else {
        return Ok(None);
    };
    Ok(Some(Request::Delete { name, expect }))
}

fn refs_form(alloc: Global, hash: HashKind, line: &[u8]) -> Result<Option<Request>, NoMemory>
    requires { NoNewline line.now }
    ensures { IfOk result (λ found. IsOneLine hash line.now (IsNoRefs line.now) found) }
{
    let _ = hash;
    match after(line, b"refs ") {
        Some(prefix) => Ok(Some(Request::Refs(Some(Bytes::from_slice(alloc, prefix)?)))),
        None if line == b"refs".as_slice() => Ok(Some(Request::Refs(None))),
        None => Ok(None),
    }
}

fn log_form(alloc: Global, hash: HashKind, line: &[u8]) -> Result<Option<Request>, NoMemory>
    ensures { IfOk result (λ found. IsOneLine hash line.now (IsNoLog line.now) found) }
{
    let _ = hash;
    let Some(name) = after(line, b"log ") else {
        return Ok(None);
    };
    match full_name(alloc, name)? {
        Some(name) => Ok(Some(Request::Log(name))),
        None => Ok(None),
    }
}

fn namespace_form(alloc: Global, hash: HashKind, line: &[u8]) -> Result<Option<Request>, NoMemory>
    ensures { IfOk result (λ found. IsOneLine hash line.now (IsNoNamespace line.now) found) }
{
    let _ = hash;
    let Some(name) = after(line, b"namespace ") else {
        if line == b"namespace".as_slice() {
            return Ok(Some(Request::Namespace(None)));
        }
        return Ok(None);
    };
    match partial_name(alloc, name)? {
        Some(name) => Ok(Some(Request::Namespace(Some(name)))),
        None => Ok(None),
    }
}

/// The request that the line is, where it is one of these forms.
pub fn reference_form(
    alloc: Global,
    hash: HashKind,
    line: &[u8],
) -> Result<Option<Request>, NoMemory>
    requires { NoNewline line.now }
    ensures { IfOk result (λ found. IsOneLine hash line.now (IsNoReference hash line.now) found) }
{
    if let Some(request) = delete_form(alloc, hash, line)? {
        return Ok(Some(request));
    }
    if let Some(request) = refs_form(alloc, hash, line)? {
        return Ok(Some(request));
    }
    if let Some(request) = log_form(alloc, hash, line)? {
        return Ok(Some(request));
    }
    if let Some(request) = identity_form(alloc, hash, line)? {
        return Ok(Some(request));
    }
    if let Some(request) = namespace_form(alloc, hash, line)? {
        return Ok(Some(request));
    }
    if line == b"head".as_slice() {
        return Ok(Some(Request::Head));
    }
    Ok(None)
}
