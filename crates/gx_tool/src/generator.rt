//! The generator: requests for commits of small files, which are the same at every run.

ghost use Rattle.std.specs.Prelude.{◌≡◌, ◌++◌, decimal, false, IfOk, OnOk};
ghost use Rattle.gx_tool.specs.Generator.{number_after, number_at, directory_text, file_path, dropped_path, place_line, edits_at, who_at, parents_of, head_name, message_at, commit_of, commit_at};

use gx_edit::{PathEdit, PathEdits};
use gx_hash::{Bytes, NoMemory, ObjectId};
use gx_object::{Ids, Signature, Time};
use gx_rules::FullName;
use gx_script::CommitRequest;
use itoa::Buffer;
use std::alloc::Global;

/// The number that the generator draws before the first commit.
pub(crate) const FIRST_NUMBER: u32 = 1;

/// The number that is drawn next.
pub(crate) fn number_after(number: u32) -> u32
    ensures { result ≡ number_after number }
{
    let product = number as u64 * 1_103_515_245;
    ((product + 12_345) % 2_147_483_648) as u32
}

/// The number of the commit at a place.
#[tactic(auto, unfolding(crate::specs::Generator::number_at))]
fn number_at(place: u32) -> u32
    ensures { result ≡ number_at place }
{
    let mut number = FIRST_NUMBER;
    let mut count = 0;
    while count < place {
        number = number_after(number);
        count += 1;
    }
    number
}

fn push_number(out: &mut Vec<u8>, number: u32) -> Result<(), NoMemory>
    ensures ok { OnOk result (out.new.items ≡ out.old.items ++ decimal number) }
{
    let mut buffer = Buffer::new();
    out.extend_from_slice(buffer.format(number).as_bytes())?;
    Ok(())
}

fn push_directory(out: &mut Vec<u8>, first: u32, second: u32) -> Result<(), NoMemory>
    ensures ok { OnOk result (out.new.items ≡ out.old.items ++ directory_text first second) }
{
    out.extend_from_slice(b"d")?;
    push_number(out, first)?;
    out.extend_from_slice(b"/e")?;
    push_number(out, second)?;
    Ok(())
}

/// The path of the file that the number chooses.
fn file_path(alloc: Global, number: u32) -> Result<Bytes, NoMemory>
    ensures { IfOk result (λ path. path ≡ file_path number) }
{
    let mut out = Vec::new(alloc);
    push_directory(&mut out, number % 10, number / 10 % 10)?;
    out.extend_from_slice(b"/f")?;
    push_number(&mut out, number / 100 % 100)?;
    Ok(Bytes::from_vec(out))
}

/// The path of the directory beside that of the file.
fn dropped_path(alloc: Global, number: u32) -> Result<Bytes, NoMemory>
    ensures { IfOk result (λ path. path ≡ dropped_path number) }
{
    let mut out = Vec::new(alloc);
    push_directory(&mut out, number % 10, (number / 10 % 10 + 1) % 10)?;
    Ok(Bytes::from_vec(out))
}

/// A place as a line.
fn place_line(alloc: Global, place: u32) -> Result<Bytes, NoMemory>
    ensures { IfOk result (λ line. line ≡ place_line place) }
{
    let mut out = Vec::new(alloc);
    push_number(&mut out, place)?;
    out.push(b'\n')?;
    Ok(Bytes::from_vec(out))
}

fn message(alloc: Global, place: u32) -> Result<Bytes, NoMemory>
    ensures { IfOk result (λ message. message ≡ message_at place) }
{
    let mut out = Vec::new(alloc);
    out.push(b'g')?;
    push_number(&mut out, place)?;
    out.push(b'\n')?;
    Ok(Bytes::from_vec(out))
}

fn file(alloc: Global, place: u32, number: u32) -> Result<PathEdit, NoMemory>
    ensures { IfOk result (λ edit. edit ≡ PathEdit.File (file_path number) (place_line place) false) }
{
    let path = file_path(alloc, number)?;
    let bytes = place_line(alloc, place)?;
    Ok(PathEdit::File {
        path,
        bytes,
        executable: false,
    })
}

/// Puts a file, and at each seventh place drops the directory beside the file's.
fn edits(alloc: Global, place: u32, number: u32) -> Result<PathEdits, NoMemory>
    ensures { IfOk result (λ edits. edits ≡ edits_at place number) }
{
    let mut edits = Vec::new(alloc);
    let file = file(alloc, place, number)?;
    edits.push(file)?;
    if place % 7 == 0 {
        let path = dropped_path(alloc, number)?;
        edits.push(PathEdit::Remove { path })?;
    }
    Ok(PathEdits::from_vec(edits))
}

/// Who makes the commit at a place, and when.
fn who(alloc: Global, place: u32) -> Result<Signature, NoMemory>
    ensures { IfOk result (λ who. who ≡ who_at place) }
{
    let name = Bytes::from_slice(alloc, b"Gen")?;
    let email = Bytes::from_slice(alloc, b"gen@example.com")?;
    let time = Time {
        seconds: 1000 + place as i64,
        offset: 0,
    };
    Ok(Signature { name, email, time })
}

fn parents(alloc: Global, last: Option<ObjectId>) -> Result<Ids, NoMemory>
    ensures { IfOk result (λ ids. ids ≡ parents_of last) }
{
    let mut ids = Vec::new(alloc);
    if let Some(id) = last {
        ids.push(id)?;
    }
    Ok(Ids::from_vec(ids))
}

/// The name `HEAD`, for which nothing but memory can be wanting.
fn head(alloc: Global) -> Result<FullName, NoMemory>
    ensures { IfOk result (λ name. name ≡ head_name) }
{
    match FullName::new(alloc, b"HEAD") {
        Ok(name) => Ok(name),
        Err(_) => Err(NoMemory),
    }
}

/// The request for the commit at a place, with its number, over the last commit.
pub(crate) fn commit_of(
    alloc: Global,
    place: u32,
    number: u32,
    last: Option<ObjectId>,
) -> Result<CommitRequest, NoMemory>
    ensures { IfOk result (λ request. request ≡ commit_of place number last) }
{
    let name = head(alloc)?;
    let author = who(alloc, place)?;
    let committer = who(alloc, place)?;
    let parents = parents(alloc, last)?;
    let message = message(alloc, place)?;
    let edits = edits(alloc, place, number)?;
    Ok(CommitRequest {
        name,
        author,
        committer,
        parents,
        message,
        edits,
    })
}

/// The generator's request for the commit at a place, the first of which is 1, over the last commit.
pub fn generated_commit(
    alloc: Global,
    place: u32,
    last: Option<ObjectId>,
) -> Result<CommitRequest, NoMemory>
    ensures { IfOk result (λ request. request ≡ commit_at place last) }
{
    commit_of(alloc, place, number_at(place), last)
}
