use crate::samples::name_of;
use gx_edit::EditError;
use gx_hash::{HashKind, NoMemory, ObjectId};
use gx_object::{Field, Kind};
use gx_refs::RefError;
use gx_store::{SignerError, SinkError, SourceError, StoreError, What};
use std::alloc::Global;
use std::fmt::{Debug, Display};

fn says<T: Display>(alloc: Global, value: &T, text: &str) -> Result<bool, NoMemory> {
    Ok(format!(in alloc; "{value}")?.as_str() == text)
}

fn shows<T: Debug>(alloc: Global, value: &T, text: &str) -> Result<bool, NoMemory> {
    Ok(format!(in alloc; "{value:?}")?.as_str() == text)
}

fn store_errors(alloc: Global) -> Result<bool, NoMemory> {
    let fault = StoreError::Fault { what: What::Write };
    Ok(
        says(alloc, &StoreError::NoMemory, "out of memory")?
            && says(alloc, &fault, "the store failed at Write")?
            && shows(alloc, &fault, "Fault { what: Write }")?
            && says(alloc, &SinkError::Failed, "a write failed")?
            && says(alloc, &SinkError::NoMemory, "out of memory")?
            && says(alloc, &SourceError::Failed, "a read failed")?
            && says(alloc, &SignerError::Failed, "signing failed")?
            && says(alloc, &SignerError::NoMemory, "out of memory")?
            && shows(alloc, &SourceError::Failed, "Failed")?,
    )
}

#[test]
fn errors_of_a_store_have_texts(rt: HostRuntime) {
    assert!(rt; store_errors(rt.alloc()).unwrap_or(false));
}

fn empty_blob() -> ObjectId {
    HashKind::Sha1.empty_blob()
}

fn parts(alloc: Global) -> Result<bool, NoMemory> {
    Ok(
        shows(alloc, &What::Index, "Index")?
            && shows(alloc, &What::Listing, "Listing")?
            && shows(
                alloc,
                &What::Object(empty_blob()),
                "Object(Sha1(e69de29bb2d1d6434b8b29ae775ad8c2e48c5391))",
            )?,
    )
}

#[test]
fn parts_of_a_store_have_texts(rt: HostRuntime) {
    assert!(rt; parts(rt.alloc()).unwrap_or(false));
}

fn says_of_references(alloc: Global, error: RefError, text: &str) -> Result<bool, NoMemory> {
    says(alloc, &error, text)
}

fn says_of_cycles(alloc: Global) -> Result<bool, NoMemory> {
    let name = name_of(alloc, b"HEAD")?;
    let cycle = RefError::Cycle { name };
    says_of_references(alloc, cycle, "HEAD leads back into itself")
}

fn says_of_depth(alloc: Global) -> Result<bool, NoMemory> {
    let name = name_of(alloc, b"HEAD")?;
    let deep = RefError::DepthLimitExceeded { name };
    says_of_references(alloc, deep, "HEAD leads through too many others")
}

fn says_of_faults(alloc: Global) -> Result<bool, NoMemory> {
    let what = What::Listing;
    let fault = RefError::Store { what };
    says_of_references(alloc, fault, "the store failed at Listing")
}

fn reference_errors(alloc: Global) -> Result<bool, NoMemory> {
    let are_chains_told = says_of_cycles(alloc)? && says_of_depth(alloc)?;
    let is_fault_told = says_of_faults(alloc)?;
    let is_memory_told = says_of_references(alloc, RefError::NoMemory, "out of memory")?;
    Ok(are_chains_told && is_fault_told && is_memory_told)
}

#[test]
fn errors_of_references_have_texts(rt: HostRuntime) {
    assert!(rt; reference_errors(rt.alloc()).unwrap_or(false));
}

fn says_of_edits(alloc: Global, error: EditError, text: &str) -> Result<bool, NoMemory> {
    says(alloc, &error, text)
}

fn errors_of_reading(alloc: Global) -> Result<bool, NoMemory> {
    let id = empty_blob();
    let actual = Kind::Blob;
    Ok(
        says_of_edits(
            alloc,
            EditError::FindExistingObject { id },
            "the object Sha1(e69de29bb2d1d6434b8b29ae775ad8c2e48c5391) is not stored",
        )? && says_of_edits(
            alloc,
            EditError::ObjectKind { id, actual },
            "the object Sha1(e69de29bb2d1d6434b8b29ae775ad8c2e48c5391) is a Blob and no tree",
        )? && says_of_edits(
            alloc,
            EditError::Decode { id },
            "the object Sha1(e69de29bb2d1d6434b8b29ae775ad8c2e48c5391) does not spell a tree that can be read",
        )?,
    )
}

#[test]
fn errors_of_reading_a_tree_have_texts(rt: HostRuntime) {
    assert!(rt; errors_of_reading(rt.alloc()).unwrap_or(false));
}

fn errors_of_editing(alloc: Global) -> Result<bool, NoMemory> {
    let field = Field::FileName;
    let store = EditError::Store { what: What::Write };
    Ok(
        says_of_edits(
            alloc,
            EditError::EmptyPathComponent,
            "a path must not have an empty component",
        )? && says_of_edits(
            alloc,
            EditError::IsTree,
            "a directory is not removed as a leaf",
        )? && says_of_edits(
            alloc,
            EditError::WriteObject { field },
            "the field FileName cannot be written",
        )? && says_of_edits(alloc, store, "the store failed at Write")?
            && says_of_edits(alloc, EditError::NoMemory, "out of memory")?,
    )
}

#[test]
fn errors_of_editing_have_texts(rt: HostRuntime) {
    assert!(rt; errors_of_editing(rt.alloc()).unwrap_or(false));
}
