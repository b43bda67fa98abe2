//! Rows on dates, personas and mailmaps.

use bstr::BStr;
use gx_actor::{
    Entry, IdentityRef, MailmapEntries, PersonaSettings, Personas, Snapshot, author_of,
    committer_of, parse_ignore_errors, read_time,
};
use gx_hash::{Bytes, NoMemory};
use gx_object::Time;
use probe_rows::ProbeError;
use probe_rows::answers::{push_field, push_shown, shown, word};
use std::alloc::Global;

/// The moment that rows give.
const NOW: Time = Time {
    seconds: 1_000_000_000,
    offset: 3600,
};

/// The answers to rows on dates, personas and mailmaps.
pub fn answer(alloc: Global, call: &str, fields: &[Vec<u8>]) -> Result<Vec<u8>, ProbeError> {
    match call {
        "date" => answer_date(alloc, fields),
        "committer" => committer(alloc, &personas_in(alloc, fields)?),
        "author" => author(alloc, &personas_in(alloc, fields)?),
        "committer_untimed" => committer(alloc, &untimed_in(alloc, fields)?),
        "author_untimed" => author(alloc, &untimed_in(alloc, fields)?),
        _ => answer_on_mailmaps(alloc, call, fields),
    }
}

fn answer_on_mailmaps(
    alloc: Global,
    call: &str,
    fields: &[Vec<u8>],
) -> Result<Vec<u8>, ProbeError> {
    match call {
        "mailmap" => answer_mailmap(alloc, fields),
        "merged" => answer_merged(alloc, fields),
        "mailmap_entries" => answer_entries(alloc, fields),
        _ => Err(ProbeError::UnknownCall),
    }
}

fn answer_date(alloc: Global, fields: &[Vec<u8>]) -> Result<Vec<u8>, ProbeError> {
    let [text] = fields else {
        return Err(ProbeError::BadLine);
    };
    match read_time(text, NOW) {
        Ok(time) => shown_time(alloc, time),
        Err(_) => word(alloc, "bad-date"),
    }
}

fn shown_time(alloc: Global, time: Time) -> Result<Vec<u8>, ProbeError> {
    let mut answer = shown(alloc, &time.seconds)?;
    push_shown(alloc, &mut answer, &time.offset)?;
    Ok(answer)
}

fn committer(alloc: Global, personas: &Personas) -> Result<Vec<u8>, ProbeError> {
    match committer_of(personas) {
        Some(who) => shown_persona(alloc, &who),
        None => word(alloc, "none"),
    }
}

fn author(alloc: Global, personas: &Personas) -> Result<Vec<u8>, ProbeError> {
    match author_of(personas) {
        Some(who) => shown_persona(alloc, &who),
        None => word(alloc, "none"),
    }
}

/// A persona, as its copy has it that owns its texts.
fn shown_persona(alloc: Global, who: &IdentityRef<'_>) -> Result<Vec<u8>, ProbeError> {
    let who = who.to_owned(alloc)?;
    let mut answer = Vec::new(alloc);
    push_field(&mut answer, who.name.as_slice())?;
    push_field(&mut answer, who.email.as_slice())?;
    push_shown(alloc, &mut answer, &who.time.seconds)?;
    push_shown(alloc, &mut answer, &who.time.offset)?;
    Ok(answer)
}

/// The personas of settings whose names and texts stand by turns.
fn personas_in(alloc: Global, fields: &[Vec<u8>]) -> Result<Personas, ProbeError> {
    let mut settings = no_settings();
    set_all(alloc, &mut settings, fields)?;
    Ok(Personas::from_settings(alloc, &settings, NOW)?)
}

/// Such personas, whose times are taken away.
fn untimed_in(alloc: Global, fields: &[Vec<u8>]) -> Result<Personas, ProbeError> {
    let mut personas = personas_in(alloc, fields)?;
    personas.committer.time = None;
    personas.author.time = None;
    Ok(personas)
}

fn set_all(
    alloc: Global,
    settings: &mut PersonaSettings,
    fields: &[Vec<u8>],
) -> Result<(), ProbeError> {
    for pair in fields.chunks(2) {
        let [name, text] = pair else {
            return Err(ProbeError::UnknownCall);
        };
        let Ok(name) = str::from_utf8(name) else {
            return Err(ProbeError::UnknownCall);
        };
        set(settings, name, Bytes::from_slice(alloc, text)?)?;
    }
    Ok(())
}

fn no_settings() -> PersonaSettings {
    PersonaSettings {
        committer_name: None,
        committer_email: None,
        committer_name_fallback: None,
        committer_email_fallback: None,
        committer_date: None,
        author_name: None,
        author_email: None,
        author_name_fallback: None,
        author_email_fallback: None,
        author_date: None,
        user_name: None,
        user_email: None,
        user_email_fallback: None,
    }
}

/// Sets the text of this name.
fn set(settings: &mut PersonaSettings, name: &str, text: Bytes) -> Result<(), ProbeError> {
    if let Some(name) = name.strip_prefix("committer-") {
        return set_of_committer(settings, name, text);
    }
    if let Some(name) = name.strip_prefix("author-") {
        return set_of_author(settings, name, text);
    }
    set_of_user(settings, name, text)
}

fn set_of_committer(
    settings: &mut PersonaSettings,
    name: &str,
    text: Bytes,
) -> Result<(), ProbeError> {
    match name {
        "name" => settings.committer_name = Some(text),
        "email" => settings.committer_email = Some(text),
        "name-fallback" => settings.committer_name_fallback = Some(text),
        "email-fallback" => settings.committer_email_fallback = Some(text),
        "date" => settings.committer_date = Some(text),
        _ => return Err(ProbeError::UnknownCall),
    }
    Ok(())
}

fn set_of_author(
    settings: &mut PersonaSettings,
    name: &str,
    text: Bytes,
) -> Result<(), ProbeError> {
    match name {
        "name" => settings.author_name = Some(text),
        "email" => settings.author_email = Some(text),
        "name-fallback" => settings.author_name_fallback = Some(text),
        "email-fallback" => settings.author_email_fallback = Some(text),
        "date" => settings.author_date = Some(text),
        _ => return Err(ProbeError::UnknownCall),
    }
    Ok(())
}

fn set_of_user(settings: &mut PersonaSettings, name: &str, text: Bytes) -> Result<(), ProbeError> {
    match name {
        "user-name" => settings.user_name = Some(text),
        "user-email" => settings.user_email = Some(text),
        "user-email-fallback" => settings.user_email_fallback = Some(text),
        _ => return Err(ProbeError::UnknownCall),
    }
    Ok(())
}

fn answer_mailmap(alloc: Global, fields: &[Vec<u8>]) -> Result<Vec<u8>, ProbeError> {
    let [name, email, mailmaps @ ..] = fields else {
        return Err(ProbeError::BadLine);
    };
    let mut snapshot = Snapshot::new(alloc);
    for mailmap in mailmaps {
        merge(alloc, &mut snapshot, mailmap)?;
    }
    shown_resolved(alloc, &snapshot, name, email)
}

/// Merges the entries of a mailmap.
pub fn merge(alloc: Global, snapshot: &mut Snapshot, mailmap: &[u8]) -> Result<(), NoMemory> {
    snapshot.merge(parse_ignore_errors(alloc, mailmap)?)
}

fn shown_resolved(
    alloc: Global,
    snapshot: &Snapshot,
    name: &[u8],
    email: &[u8],
) -> Result<Vec<u8>, ProbeError> {
    let found = resolved(snapshot, name, email);
    let mut answer = Vec::new(alloc);
    push_field(&mut answer, found.name.as_bytes())?;
    push_field(&mut answer, found.email.as_bytes())?;
    Ok(answer)
}

/// The name and the email that the mailmap gives for these.
pub fn resolved<'a>(snapshot: &'a Snapshot, name: &'a [u8], email: &'a [u8]) -> IdentityRef<'a> {
    snapshot.resolve(IdentityRef {
        name: BStr::new(name),
        email: BStr::new(email),
        time: NOW,
    })
}

/// The entries of a mailmap, each as its new name, new email, old name and old email.
fn answer_entries(alloc: Global, fields: &[Vec<u8>]) -> Result<Vec<u8>, ProbeError> {
    let [mailmap] = fields else {
        return Err(ProbeError::BadLine);
    };
    let entries = parse_ignore_errors(alloc, mailmap)?;
    if entries.as_slice().is_empty() {
        return word(alloc, "none");
    }
    let mut answer = Vec::new(alloc);
    push_entries(&mut answer, entries.as_slice())?;
    Ok(answer)
}

fn push_entries(answer: &mut Vec<u8>, entries: &[Entry]) -> Result<(), ProbeError> {
    for entry in entries {
        push_text(answer, &entry.new_name)?;
        push_text(answer, &entry.new_email)?;
        push_text(answer, &entry.old_name)?;
        push_field(answer, entry.old_email.as_slice())?;
    }
    Ok(())
}

/// A text, or `-` where there is none.
fn push_text(answer: &mut Vec<u8>, text: &Option<Bytes>) -> Result<(), ProbeError> {
    match text {
        Some(text) => push_field(answer, text.as_slice()),
        None => push_field(answer, b"-"),
    }
}

/// What entries give that are handed in, four texts for each as they are printed. They are merged one by one.
fn answer_merged(alloc: Global, fields: &[Vec<u8>]) -> Result<Vec<u8>, ProbeError> {
    let [name, email, texts @ ..] = fields else {
        return Err(ProbeError::UnknownCall);
    };
    let mut snapshot = Snapshot::new(alloc);
    merge_all(alloc, &mut snapshot, texts)?;
    shown_resolved(alloc, &snapshot, name, email)
}

fn merge_all(alloc: Global, snapshot: &mut Snapshot, texts: &[Vec<u8>]) -> Result<(), ProbeError> {
    snapshot.merge(MailmapEntries::new(alloc))?;
    for entry in texts.chunks(4) {
        snapshot.merge(entries_of(alloc, entry_in(alloc, entry)?)?)?;
    }
    Ok(())
}

fn entry_in(alloc: Global, texts: &[Vec<u8>]) -> Result<Entry, ProbeError> {
    let [new_name, new_email, old_name, old_email] = texts else {
        return Err(ProbeError::UnknownCall);
    };
    let mut entry = entry_of(Bytes::from_slice(alloc, old_email)?);
    entry.new_name = read_text(alloc, new_name)?;
    entry.new_email = read_text(alloc, new_email)?;
    entry.old_name = read_text(alloc, old_name)?;
    Ok(entry)
}

/// The entry of this old email alone.
fn entry_of(old_email: Bytes) -> Entry {
    Entry {
        new_name: None,
        new_email: None,
        old_name: None,
        old_email,
    }
}

fn read_text(alloc: Global, text: &[u8]) -> Result<Option<Bytes>, NoMemory> {
    if text == b"-".as_slice() {
        return Ok(None);
    }
    Ok(Some(Bytes::from_slice(alloc, text)?))
}

fn entries_of(alloc: Global, entry: Entry) -> Result<MailmapEntries, ProbeError> {
    let mut entries = MailmapEntries::new(alloc).into_vec();
    entries.push(entry)?;
    Ok(MailmapEntries::from_vec(entries))
}
