//! Full names of references.
ghost use Rattle.std.specs.Prelude.{◌≡◌, ◌⊎◌, IfOk, MatchOption, MatchResult};
ghost use Rattle.bstr.specs.BStr.{bstr_bytes};
ghost use Rattle.gx_rules.specs.Category.{category_of, short_name};
ghost use Rattle.gx_rules.specs.Name.{IsFullName, IsFirstBroken};

use crate::category::{category_of, short_name};
use crate::name_rules::check_full_name;
use crate::{Category, NameError, PartialName};
use bstr::BStr;
use gx_hash::{Bytes, NoMemory};
use std::alloc::{AllocError, Global};
use std::cmp::Ordering;
use std::fmt;
use std::marker::Model;

/// The full name of a reference, as `refs/heads/main` or `HEAD`. Names are ordered by their bytes.
///
/// ```
/// let main = FullName::new(alloc, b"refs/heads/main")?;
/// let is_branch = main.category() == Some(Category::LocalBranch);
/// let error = FullName::new(alloc, b"refs/heads/.main").err();
/// ```
#[derive(Debug, Drop)]
pub struct FullName {
    bytes: Bytes,
}

impl Model for FullName {
    ghost use Rattle.std.specs.Prelude.{List, ℕ};

    ghost Value = { List ℕ };

    ghost use Rattle.gx_rules.specs.Name.{IsFullName};

    ghost view = { λ name. name.bytes };

    ghost invariant = { λ name. IsFullName name.bytes };
}

impl FullName {
    /// The name, if it is a full one. The error tells the first rule that it breaks; only a full name is out of
    /// memory.
    pub fn new(alloc: Global, name: &[u8]) -> Result<FullName, NameError>
        ensures { MatchResult result
            (λ full. (full ≡ name.now) × IsFullName name.now)
            (λ error. ((error ≡ NameError.NoMemory) × IsFullName name.now) ⊎ IsFirstBroken name.now error) }
    {
        check_full_name(name)?;
        Ok(FullName {
            bytes: Bytes::from_slice(alloc, name)?,
        })
    }

    /// The bytes of a name that is known to be a full one.
    pub(crate) fn from_bytes(bytes: Bytes) -> FullName
        requires { IsFullName bytes }
        ensures { result ≡ bytes }
    {
        FullName { bytes }
    }

    pub fn as_slice(&self) -> &[u8]
        ensures { result.now ≡ self.now }
    {
        self.bytes.as_slice()
    }

    /// The name as bytes of which a copy can be owned.
    pub fn bytes(&self) -> &Bytes
        ensures { result.now ≡ self.now }
    {
        &self.bytes
    }

    /// It does nothing. Its contract tells what holds of each full name.
    pub(crate) fn keeps_rules(&self)
        ensures { IsFullName self.now }
    {
        let _ = &self.bytes;
    }

    /// The bytes as text by convention, to be printed: bytes that are no UTF-8 show as U+FFFD.
    pub fn as_bstr(&self) -> BStr<'_>
        ensures { bstr_bytes result ≡ self.now }
    {
        BStr::new(self.as_slice())
    }

    /// The same name, where a partial one is taken.
    pub fn to_partial(&self) -> Result<PartialName, NoMemory>
        ensures { IfOk result (λ partial. partial ≡ self.now) }
    {
        Ok(PartialName::from_full(self.bytes.try_clone()?))
    }

    /// The name as people know it: without the directory that its category keeps it in.
    pub fn shorten(&self) -> BStr<'_>
        ensures { bstr_bytes result ≡ short_name self.now }
    {
        BStr::new(short_name(self.as_slice()))
    }

    /// What the reference is for, if its directory says so.
    pub fn category(&self) -> Option<Category>
        ensures { result ≡ category_of self.now }
    {
        category_of(self.as_slice())
    }

    pub fn category_and_short_name(&self) -> Option<(Category, BStr<'_>)>
        ensures { MatchOption result (category_of self.now ≡ None)
            (λ found. (category_of self.now ≡ Some found.0) × (bstr_bytes found.1 ≡ short_name self.now)) }
    {
        let category = self.category()?;
        Some((category, self.shorten()))
    }

    pub fn try_clone(&self) -> Result<FullName, NoMemory>
        ensures { IfOk result (λ copy. copy ≡ self.now) }
    {
        Ok(FullName {
            bytes: self.bytes.try_clone()?,
        })
    }
}

impl fmt::Display for FullName {
    ghost use Rattle.std.specs.Prelude.{Some, encode_utf8_all};
    ghost use Rattle.bstr.specs.Utf8.{lossy_chars};

    ghost output = { λ name. Some (encode_utf8_all (lossy_chars name)) };

    fn fmt<W: fmt::Write>(&self, f: &mut fmt::Formatter<W>) -> fmt::Result {
        fmt::Display::fmt(&self.as_bstr(), f)
    }
}

impl Clone for FullName {
    ghost is_clone = { λ name copy. copy ≡ name };

    fn clone(&self) -> Result<FullName, AllocError> {
        Ok(FullName {
            bytes: self.bytes.clone()?,
        })
    }
}

impl PartialEq for FullName {
    ghost use Rattle.std.specs.Prelude.{nat_eq};
    ghost use Rattle.std.specs.Cmp.Lexicographic.{pointwise, nat_list_eq_equiv};
    ghost use Rattle.std.specs.Cmp.{partial_equiv_from_equiv};

    ghost eq = { pointwise nat_eq };

    ghost laws = { partial_equiv_from_equiv nat_list_eq_equiv };

    fn eq(&self, other: &FullName) -> bool {
        self.as_slice() == other.as_slice()
    }
}

impl Eq for FullName {
    ghost use Rattle.std.specs.Cmp.Lexicographic.{nat_list_eq_equiv};

    ghost laws = { nat_list_eq_equiv };
}

impl Ord for FullName {
    ghost use Rattle.std.specs.Ordering.{nat_cmp};
    ghost use Rattle.std.specs.Cmp.Lexicographic.{slice_cmp, nat_list_cmp_total};
    ghost use Rattle.std.proofs.Common.{rules};
    ghost use Rattle.std.specs.Cmp.Rules.{comparing};

    ghost cmp = { slice_cmp nat_cmp };

    ghost total = { nat_list_cmp_total };

    ghost matches_partial_cmp = { Prim.search (comparing, rules) };

    ghost matches_eq = { Prim.search (comparing, rules) };

    fn cmp(&self, other: &FullName) -> Ordering {
        self.as_slice().cmp(other.as_slice())
    }
}

impl PartialOrd for FullName {
    ghost use Rattle.std.specs.Cmp.Lexicographic.{slice_cmp};
    ghost use Rattle.std.specs.Ordering.{as_partial_cmp, nat_cmp};
    ghost use Rattle.std.specs.Cmp.{partial_order_from_own_ties};
    ghost use Rattle.std.proofs.Common.{rules};
    ghost use Rattle.std.specs.Cmp.Rules.{comparing};

    ghost partial_cmp = { as_partial_cmp (slice_cmp nat_cmp) };

    ghost laws = { partial_order_from_own_ties (Prim.search (comparing, rules)) (Prim.search (comparing, rules)) };

    fn partial_cmp(&self, other: &FullName) -> Option<Ordering> {
        Some(self.cmp(other))
    }
}
