//! Namespaces, which divide the references of one repository into sets.
ghost use Rattle.std.specs.Prelude.{◌≡◌, ◌++◌, ℕ, List, IfOk, IfNone, IfSome, OnOk};
ghost use Rattle.bstr.specs.BStr.{bstr_bytes};
ghost use Rattle.gx_rules.specs.Namespace.{level, namespace_prefix, IsNamespacePrefix, IsWithin};

use crate::{FullName, NameError, PartialName, components};
use bstr::BStr;
use gx_hash::{Bytes, NoMemory};
use std::alloc::{AllocError, Global};
use std::marker::Model;

/// The prefix of the names under which the references of a namespace are stored.
#[derive(Debug, Drop)]
pub struct Namespace {
    prefix: Bytes,
}

impl Model for Namespace {
    ghost use Rattle.std.specs.Prelude.{List, ℕ};

    ghost Value = { List ℕ };

    ghost use Rattle.gx_rules.specs.Namespace.{IsNamespacePrefix};

    ghost view = { λ namespace. namespace.prefix };

    ghost invariant = { λ namespace. IsNamespacePrefix namespace.prefix };
}

impl Namespace {
    pub fn as_slice(&self) -> &[u8]
        ensures { result.now ≡ self.now }
    {
        self.prefix.as_slice()
    }

    /// The prefix as text by convention, to be printed: bytes that are no UTF-8 show as U+FFFD.
    pub fn as_bstr(&self) -> BStr<'_>
        ensures { bstr_bytes result ≡ self.now }
    {
        BStr::new(self.as_slice())
    }

    /// It does nothing. Its contract tells what holds of each namespace.
    pub(crate) fn keeps_rules(&self)
        ensures { IsNamespacePrefix self.now }
    {
        let _ = &self.prefix;
    }

    /// The name under which a reference of the namespace is stored: the prefix, followed by its own name.
    ///
    /// ```
    /// let namespace = expand_namespace(alloc, &PartialName::new(alloc, b"foo")?)?;
    /// let main = FullName::new(alloc, b"refs/heads/main")?;
    /// let stored = namespace.full_name(&main)?; // refs/namespaces/foo/refs/heads/main
    /// let again = namespace.strip(alloc, &stored)?; // Some(refs/heads/main)
    /// ```
    pub fn full_name(&self, name: &FullName) -> Result<FullName, NoMemory>
        ensures { IfOk result (λ full. full ≡ self.now ++ name.now) }
    {
        let mut bytes = self.prefix.try_clone()?.into_vec();
        bytes.extend_from_slice(name.as_slice())?;
        name.keeps_rules();
        Ok(FullName::from_bytes(Bytes::from_vec(bytes)))
    }

    /// The name in the namespace of a reference that is stored under that name. It has none if the stored name does
    /// not begin with the prefix, or goes on with what is no full name, as `refs/namespaces/foo/main` does.
    #[tactic(auto, using(crate::proofs::NamespaceLemmas::stripping))]
    pub fn strip(&self, alloc: Global, stored: &FullName) -> Result<Option<FullName>, NoMemory>
        ensures some { IfOk result (λ name. IfSome name (IsWithin self.now stored.now)) }
        ensures none { IfOk result (λ name. IfNone name ((rest : List ℕ) → ¬ IsWithin self.now stored.now rest)) }
    {
        let Some(rest) = stored.as_slice().strip_prefix(self.as_slice()) else {
            return Ok(None);
        };
        match FullName::new(alloc, rest) {
            Ok(name) => Ok(Some(name)),
            Err(NameError::NoMemory) => Err(NoMemory),
            Err(_) => Ok(None),
        }
    }

    pub fn try_clone(&self) -> Result<Namespace, NoMemory>
        ensures { IfOk result (λ copy. copy ≡ self.now) }
    {
        Ok(Namespace {
            prefix: self.prefix.try_clone()?,
        })
    }
}

/// The namespace of that name: a level of the hierarchy for each of its components.
pub fn expand_namespace(alloc: Global, name: &PartialName) -> Result<Namespace, NoMemory>
    ensures { IfOk result (λ namespace. namespace ≡ namespace_prefix name.now) }
{
    let mut prefix = Vec::new(alloc);
    for component in components(name.as_slice()) {
        push_level(&mut prefix, component)?;
    }
    name.keeps_rules();
    Ok(Namespace {
        prefix: Bytes::from_vec(prefix),
    })
}

#[tactic(auto, using(crate::proofs::NamespaceLemmas::level_pushed))]
fn push_level(prefix: &mut Vec<u8>, component: &[u8]) -> Result<(), AllocError>
    ensures { OnOk result (prefix.new.items ≡ prefix.old.items ++ level component.now) }
{
    prefix.extend_from_slice(b"refs/namespaces/")?;
    prefix.extend_from_slice(component)?;
    prefix.push(b'/')?;
    Ok(())
}
