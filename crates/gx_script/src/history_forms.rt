//! The forms of one line that ask about trees and history.

ghost use Rattle.gx_script.specs.Items.{NoNewline};
ghost use Rattle.gx_script.specs.Lines.{IsOneLine, IsNoPaths, IsNoWalk, IsNoBases, IsNoOctopus, IsNoDescribe, IsNoHistory};
ghost use Rattle.std.specs.Prelude.{◌≡◌, ◌≢◌, IfOk};

use crate::fields::{name_set, object_id, order};
use crate::number::number;
use crate::spaced::{ids, walk_ids};
use crate::split::{after, next_field, triple};
use crate::{Request, WalkIds};
use gx_hash::{HashKind, NoMemory};
use gx_object::Ids;
use std::alloc::Global;

/// The most ids in a line.
const ID_LIMIT: usize = 1024;

fn paths_form(hash: HashKind, line: &[u8]) -> Option<Request>
    ensures { IsOneLine hash line.now (IsNoPaths hash line.now) result }
{
    let id = object_id(hash, after(line, b"paths ")?)?;
    Some(Request::Paths(id))
}

fn walk_form(alloc: Global, hash: HashKind, line: &[u8]) -> Result<Option<Request>, NoMemory>
    ensures { IfOk result (λ found. IsOneLine hash line.now (IsNoWalk hash line.now) found) }
{
    let Some(fields) = after(line, b"walk") else {
        return Ok(None);
    };
    let Some((name, rest)) = next_field(fields) else {
        return Ok(None);
    };
    let Some(order) = order(name) else {
        return Ok(None);
    };
    let Some(ids) = walk_ids(alloc, hash, rest, ID_LIMIT)? else {
        return Ok(None);
    };
    if ids.is_empty() {
        return Ok(None);
    }
    Ok(Some(Request::Walk {
        order,
        ids: WalkIds::from_vec(ids),
    }))
}

fn bases_form(alloc: Global, hash: HashKind, line: &[u8]) -> Result<Option<Request>, NoMemory>
    ensures { IfOk result (λ found. IsOneLine hash line.now (IsNoBases hash line.now) found) }
{
    let Some(fields) = after(line, b"bases") else {
        return Ok(None);
    };
    let Some((name, rest)) = next_field(fields) else {
        return Ok(None);
    };
    let Some(first) = object_id(hash, name) else {
        return Ok(None);
    };
    match ids(alloc, hash, rest, ID_LIMIT - 1)? {
        Some(others) => Ok(Some(Request::Bases {
            first,
            others: Ids::from_vec(others),
        })),
        None => Ok(None),
    }
}

fn octopus_form(alloc: Global, hash: HashKind, line: &[u8]) -> Result<Option<Request>, NoMemory>
    ensures { IfOk result (λ found. IsOneLine hash line.now (IsNoOctopus hash line.now) found) }
{
    let Some(fields) = after(line, b"octopus") else {
        return Ok(None);
    };
    match ids(alloc, hash, fields, ID_LIMIT)? {
        Some(ids) => Ok(Some(Request::Octopus(Ids::from_vec(ids)))),
        None => Ok(None),
    }
}

fn describe_form(hash: HashKind, line: &[u8]) -> Option<Request>
    ensures { IsOneLine hash line.now (IsNoDescribe hash line.now) result }
{
    let (names, max, hex) = triple(line, b"describe ")?;
    let names = name_set(names)?;
    let max = number(max)?;
    let id = object_id(hash, hex)?;
    Some(Request::Describe { names, max, id })
}

/// The request that the line is, where it is one of these forms.
pub fn history_form(alloc: Global, hash: HashKind, line: &[u8]) -> Result<Option<Request>, NoMemory>
    ensures { IfOk result (λ found. IsOneLine hash line.now (IsNoHistory hash line.now) found) }
{
    if let Some(request) = paths_form(hash, line) {
        return Ok(Some(request));
    }
    if let Some(request) = walk_form(alloc, hash, line)? {
        return Ok(Some(request));
    }
    if let Some(request) = bases_form(alloc, hash, line)? {
        return Ok(Some(request));
    }
    if let Some(request) = octopus_form(alloc, hash, line)? {
        return Ok(Some(request));
    }
    Ok(describe_form(hash, line))
}
