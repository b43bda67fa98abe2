//! Objects of a repository, written and read back: a blob, a tree that names it, and a commit of that tree. It takes no
//! arguments, and prints what it finds.
#![tactic(auto)]

mod objects;

use anyhow::Result;
use gix::{Commit, Repository, Settings};
use gx_hash::{HashKind, ObjectId};
use gx_store::Memory;

fn main(rt: HostRuntime) -> Result<()> {
    let mut store = Memory::new(rt.alloc(), HashKind::Sha1)?;
    let id = objects::write(rt.alloc(), &mut store)?;
    let repo = Repository::new(store, Settings::new());
    print_commit(&rt, &repo, id)
}

/// Prints the commit at an id, the entries of its tree, and the bytes of its greeting.
fn print_commit(rt: &HostRuntime, repo: &Repository<Memory>, id: ObjectId) -> Result<()> {
    let commit = repo.find_commit(rt.alloc(), id)?;
    println!(rt; "{commit:?}")?;
    print_author(rt, &commit)?;
    let tree = repo.find_tree(rt.alloc(), commit.tree_id()?.detach())?;
    println!(rt; "{tree:?}")?;
    for entry in tree.iter() {
        let entry = entry?;
        println!(rt; "  {} {}", entry.mode().as_str(), entry.filename())?;
    }
    if let Some(entry) = tree.find_entry(objects::GREETING) {
        let blob = entry.object(rt.alloc())?.try_into_blob()?;
        println!(rt; "{blob:?} has {} bytes", blob.bytes.len())?;
    }
    Ok(())
}

fn print_author(rt: &HostRuntime, commit: &Commit<'_, Memory>) -> Result<()> {
    let author = commit.author()?;
    let message = commit.message()?;
    println!(rt;
        "  by {} <{}>: {}",
        author.name, author.email, message.title
    )?;
    Ok(())
}
