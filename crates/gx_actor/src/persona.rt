//! Who commits and who wrote, as settings say.
ghost use Rattle.std.specs.Prelude.{◌≡◌, [], ◌∷◌, IfOk, option_map};
ghost use Rattle.bstr.specs.BStr.{bstr_bytes};
ghost use Rattle.gx_actor.specs.Identity.{identity};
ghost use Rattle.gx_actor.specs.Persona.{persona, first_set, IsEntity, committer_names, committer_emails, author_names, author_emails, user_names, user_emails, IsTimeBy};

use crate::{IdentityRef, read_time};
use bstr::BStr;
use gx_hash::{Bytes, NoMemory};
use gx_object::Time;
use std::alloc::Global;

/// What is known of one who acts.
#[derive(Debug, Drop)]
pub struct Entity {
    pub name: Option<Bytes>,
    pub email: Option<Bytes>,
    pub time: Option<Time>,
}

/// The committer and the author, and the user whose name and email they have where they lack their own.
///
/// ```
/// let personas = Personas::from_settings(alloc, &settings, now)?;
/// if let Some(committer) = committer_of(&personas) {
///     let who = committer.to_owned(alloc)?;
/// }
/// ```
#[derive(Debug, Drop)]
pub struct Personas {
    pub user: Entity,
    pub committer: Entity,
    pub author: Entity,
}

/// Texts of a configuration or an environment, each of which may be missing.
#[derive(Debug, Drop)]
pub struct PersonaSettings {
    pub committer_name: Option<Bytes>,
    pub committer_email: Option<Bytes>,
    pub committer_name_fallback: Option<Bytes>,
    pub committer_email_fallback: Option<Bytes>,
    /// In any form that `read_time` reads; else it counts as missing.
    pub committer_date: Option<Bytes>,
    pub author_name: Option<Bytes>,
    pub author_email: Option<Bytes>,
    pub author_name_fallback: Option<Bytes>,
    pub author_email_fallback: Option<Bytes>,
    pub author_date: Option<Bytes>,
    pub user_name: Option<Bytes>,
    pub user_email: Option<Bytes>,
    pub user_email_fallback: Option<Bytes>,
}

impl Personas {
    /// Who the settings name, at the given moment.
    pub fn from_settings(
        alloc: Global,
        settings: &PersonaSettings,
        now: Time,
    ) -> Result<Personas, NoMemory>
        ensures user { IfOk result (λ personas. (personas.user.name ≡ first_set (user_names settings.now))
            × (personas.user.email ≡ first_set (user_emails settings.now)) × (personas.user.time ≡ None)) }
        ensures committer { IfOk result (λ personas. IsEntity (committer_names settings.now)
            (committer_emails settings.now) settings.now.committer_date now personas.committer) }
        ensures author { IfOk result (λ personas. IsEntity (author_names settings.now)
            (author_emails settings.now) settings.now.author_date now personas.author) }
    {
        Ok(Personas {
            user: user(alloc, settings)?,
            committer: committer(alloc, settings, now)?,
            author: author(alloc, settings, now)?,
        })
    }
}

/// The committer, where there is one.
pub fn committer_of(personas: &Personas) -> Option<IdentityRef<'_>>
    ensures { option_map identity result ≡ persona personas.now.committer personas.now.user }
{
    persona(&personas.committer, &personas.user)
}

/// The author, where there is one.
pub fn author_of(personas: &Personas) -> Option<IdentityRef<'_>>
    ensures { option_map identity result ≡ persona personas.now.author personas.now.user }
{
    persona(&personas.author, &personas.user)
}

fn persona<'a>(own: &'a Entity, user: &'a Entity) -> Option<IdentityRef<'a>>
    ensures { option_map identity result ≡ persona own.now user.now }
{
    let name = first_of(&own.name, &user.name)?;
    let email = first_of(&own.email, &user.email)?;
    let time = own.time?;
    Some(IdentityRef { name, email, time })
}

fn first_of<'a>(first: &'a Option<Bytes>, second: &'a Option<Bytes>) -> Option<BStr<'a>>
    ensures { option_map bstr_bytes result ≡ first_set (first.now ∷ second.now ∷ []) }
{
    if let Some(text) = first {
        return Some(BStr::new(text.as_slice()));
    }
    match second {
        Some(text) => Some(BStr::new(text.as_slice())),
        None => None,
    }
}

fn user(alloc: Global, settings: &PersonaSettings) -> Result<Entity, NoMemory>
    ensures name { IfOk result (λ entity. entity.name ≡ first_set (user_names settings.now)) }
    ensures email { IfOk result (λ entity. entity.email ≡ first_set (user_emails settings.now)) }
    ensures time { IfOk result (λ entity. entity.time ≡ None) }
{
    Ok(Entity {
        name: copy(alloc, &settings.user_name, &None)?,
        email: copy(alloc, &settings.user_email, &settings.user_email_fallback)?,
        time: None,
    })
}

fn committer(alloc: Global, settings: &PersonaSettings, now: Time) -> Result<Entity, NoMemory>
    ensures { IfOk result (IsEntity (committer_names settings.now) (committer_emails settings.now)
        settings.now.committer_date now) }
{
    Ok(Entity {
        name: copy(
            alloc,
            &settings.committer_name,
            &settings.committer_name_fallback,
        )?,
        email: copy(
            alloc,
            &settings.committer_email,
            &settings.committer_email_fallback,
        )?,
        time: Some(time(&settings.committer_date, now)),
    })
}

fn author(alloc: Global, settings: &PersonaSettings, now: Time) -> Result<Entity, NoMemory>
    ensures { IfOk result (IsEntity (author_names settings.now) (author_emails settings.now)
        settings.now.author_date now) }
{
    Ok(Entity {
        name: copy(alloc, &settings.author_name, &settings.author_name_fallback)?,
        email: copy(
            alloc,
            &settings.author_email,
            &settings.author_email_fallback,
        )?,
        time: Some(time(&settings.author_date, now)),
    })
}

/// A copy of the first of two texts that is there.
fn copy(
    alloc: Global,
    first: &Option<Bytes>,
    second: &Option<Bytes>,
) -> Result<Option<Bytes>, NoMemory>
    ensures { IfOk result (λ copy. copy ≡ first_set (first.now ∷ second.now ∷ [])) }
{
    match first_of(first, second) {
        Some(text) => Ok(Some(Bytes::from_slice(alloc, text.as_bytes())?)),
        None => Ok(None),
    }
}

fn time(date: &Option<Bytes>, now: Time) -> Time
    ensures { IsTimeBy date.now now result }
{
    match date {
        Some(text) => read_time(text.as_slice(), now).unwrap_or(now),
        None => now,
    }
}
