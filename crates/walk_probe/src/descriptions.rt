//! Rows on descriptions: `describe MOST DIGITS COMMIT .. tips LABEL names LABEL:NAME ..`, with the most candidates and
//! the number of digits of an id. The commits are those of `history.rt`, and the words `shallow` and `first` are those
//! of rows of walks. The word `fallback` asks for the id where there is no name, and `long` for the long text.
//!
//! The answer is the text, and where it is printed in another way also that; `exact` stands after it where the depth
//! is 0. Without a description it is `none`.

use crate::history::{History, fields_after, has_word, history_of, id_of, ids_after, push_error};
use gx_hash::Bytes;
use gx_walk::Graph;
use gx_walk::describe::{NameMap, Options, Outcome, describe};
use probe_rows::ProbeError;
use probe_rows::answers::{push_field, push_word, shown, size_of, word};
use std::alloc::Global;

/// The answer of `describe`.
pub fn answer(alloc: Global, fields: &[Vec<u8>]) -> Result<Vec<u8>, ProbeError> {
    let (Some(most), Some(digits)) = (fields.get(0), fields.get(1)) else {
        return Err(ProbeError::BadLine);
    };
    let most = size_of(most).ok_or(ProbeError::BadLine)?;
    let digits = size_of(digits).ok_or(ProbeError::BadLine)?;
    let Some((_, fields)) = fields.split_at_checked(2) else {
        return Err(ProbeError::BadLine);
    };
    let history = history_of(alloc, fields)?;
    let names = names_in(alloc, &history, fields)?;
    let options = Options {
        names,
        fallback: has_word(fields, b"fallback"),
        first_parent: has_word(fields, b"first"),
        max_candidates: most,
    };
    described(alloc, &history, fields, options, digits)
}

fn described(
    alloc: Global,
    history: &History,
    fields: &[Vec<u8>],
    options: Options,
    digits: usize,
) -> Result<Vec<u8>, ProbeError> {
    let shallow = ids_after(alloc, history, fields, b"shallow")?;
    let tips = fields_after(alloc, fields, b"tips")?;
    let Some(tip) = tips.first() else {
        return Err(ProbeError::BadLine);
    };
    let id = id_of(history, tip);
    let mut graph = Graph::new(alloc);
    let answer = describe(
        alloc,
        &history.store,
        shallow.as_slice(),
        id,
        &mut graph,
        options,
    );
    match answer {
        Ok(Some(outcome)) => text(alloc, outcome, digits, has_word(fields, b"long")),
        Ok(None) => word(alloc, "none"),
        Err(error) => {
            let mut answer = Vec::new(alloc);
            push_error(&mut answer, history, &error)?;
            Ok(answer)
        }
    }
}

/// The names after the word `names`, each after the label of its commit and a colon.
fn names_in(alloc: Global, history: &History, fields: &[Vec<u8>]) -> Result<NameMap, ProbeError> {
    let mut names = NameMap::new(alloc);
    for field in &fields_after(alloc, fields, b"names")? {
        let mut parts = field.splitn(2, |byte| *byte == b':');
        let label = parts.next().unwrap_or(b"");
        let name = Bytes::from_slice(alloc, parts.next().unwrap_or(b""))?;
        names.insert(id_of(history, label), name)?;
    }
    Ok(names)
}

pub(crate) fn text(
    alloc: Global,
    outcome: Outcome,
    digits: usize,
    long: bool,
) -> Result<Vec<u8>, ProbeError> {
    let mut format = outcome.into_format(digits);
    format.long = long;
    let bytes = format.to_bytes(alloc)?;
    let printed = shown(alloc, &format)?;
    let mut answer = Vec::new(alloc);
    push_field(&mut answer, bytes.as_slice())?;
    if printed.as_slice() != bytes.as_slice() {
        push_field(&mut answer, &printed)?;
    }
    if format.is_exact_match() {
        push_word(&mut answer, "exact")?;
    }
    Ok(answer)
}
