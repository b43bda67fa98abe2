//! The form `delete`.

ghost use Rattle.std.specs.Prelude.{◌≡◌, IfOk};
ghost use Rattle.gix.specs.Repository.{held_by};
ghost use Rattle.gx_tool.specs.Call.{Executes};
ghost use Rattle.gx_tool.specs.ReferenceForms.{delete_call, deletion};

use crate::executing::ExecuteError;
use crate::ref_form::{expected, make_edit};
use crate::reply::Reply;
use gix::Repository;
use gx_hash::NoMemory;
use gx_refs::{Change, RefEdit, RefLog};
use gx_rules::FullName;
use gx_script::Expect;
use gx_store::Store;
use std::alloc::Global;

/// The edit that deletes a reference.
fn deletion(name: &FullName, expect: &Expect) -> Result<RefEdit, NoMemory>
    ensures { IfOk result (λ edit. edit ≡ deletion name.now expect.now) }
{
    let expected = expected(expect)?;
    let name = name.try_clone()?;
    Ok(RefEdit {
        change: Change::Delete {
            expected,
            log: RefLog::AndReference,
        },
        name,
        deref: false,
    })
}

/// Deletes the reference that is asked for.
pub(crate) fn delete<S: Store>(
    alloc: Global,
    repo: &mut Repository<S>,
    name: &FullName,
    expect: &Expect,
) -> Result<Reply, ExecuteError>
    ensures { Executes (delete_call name.now expect.now) (held_by S.state repo.old) result (held_by S.state repo.new) }
{
    match deletion(name, expect) {
        Ok(edit) => make_edit(alloc, repo, None, edit),
        Err(_) => Err(ExecuteError::NoMemory),
    }
}
