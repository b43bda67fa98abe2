//! Partial names of references.
ghost use Rattle.std.specs.Prelude.{◌≡◌, ◌≢◌, ◌⊎◌, IfOk, MatchResult};
ghost use Rattle.bstr.specs.BStr.{bstr_bytes};
ghost use Rattle.gx_rules.specs.Name.{IsFullName, IsPartialName, IsFirstBroken};

use crate::NameError;
use crate::name_rules::check_partial_name;
use bstr::BStr;
use gx_hash::{Bytes, NoMemory};
use std::alloc::{AllocError, Global};
use std::cmp::Ordering;
use std::fmt;
use std::marker::Model;

/// What people write for the name of a reference, as `main` for `refs/heads/main`: a full name without the
/// directories in front. Each full name is a partial name too. Names are ordered by their bytes.
#[derive(Debug, Drop)]
pub struct PartialName {
    bytes: Bytes,
}

impl Model for PartialName {
    ghost use Rattle.std.specs.Prelude.{List, ℕ};

    ghost Value = { List ℕ };

    ghost use Rattle.gx_rules.specs.Name.{IsPartialName};

    ghost view = { λ name. name.bytes };

    ghost invariant = { λ name. IsPartialName name.bytes };
}

impl PartialName {
    /// The name, if it is a partial one. The error tells the first rule that it breaks; only a partial name is out of
    /// memory.
    pub fn new(alloc: Global, name: &[u8]) -> Result<PartialName, NameError>
        ensures { MatchResult result
            (λ partial. (partial ≡ name.now) × IsPartialName name.now)
            (λ error. ((error ≡ NameError.NoMemory) × IsPartialName name.now)
            ⊎ (IsFirstBroken name.now error × (error ≢ NameError.SomeLowercase))) }
    {
        check_partial_name(name)?;
        Ok(PartialName {
            bytes: Bytes::from_slice(alloc, name)?,
        })
    }

    /// The bytes of a full name.
    #[tactic(auto, using(crate::proofs::NameLaws::full_is_partial))]
    pub(crate) fn from_full(bytes: Bytes) -> PartialName
        requires { IsFullName bytes }
        ensures { result ≡ bytes }
    {
        PartialName { bytes }
    }

    pub fn as_slice(&self) -> &[u8]
        ensures { result.now ≡ self.now }
    {
        self.bytes.as_slice()
    }

    /// It does nothing. Its contract tells what holds of each partial name.
    pub(crate) fn keeps_rules(&self)
        ensures { IsPartialName self.now }
    {
        let _ = &self.bytes;
    }

    /// The bytes as text by convention, to be printed: bytes that are no UTF-8 show as U+FFFD.
    pub fn as_bstr(&self) -> BStr<'_>
        ensures { bstr_bytes result ≡ self.now }
    {
        BStr::new(self.as_slice())
    }

    pub fn try_clone(&self) -> Result<PartialName, NoMemory>
        ensures { IfOk result (λ copy. copy ≡ self.now) }
    {
        Ok(PartialName {
            bytes: self.bytes.try_clone()?,
        })
    }
}

impl fmt::Display for PartialName {
    ghost use Rattle.std.specs.Prelude.{Some, encode_utf8_all};
    ghost use Rattle.bstr.specs.Utf8.{lossy_chars};

    ghost output = { λ name. Some (encode_utf8_all (lossy_chars name)) };

    fn fmt<W: fmt::Write>(&self, f: &mut fmt::Formatter<W>) -> fmt::Result {
        fmt::Display::fmt(&self.as_bstr(), f)
    }
}

impl Clone for PartialName {
    ghost is_clone = { λ name copy. copy ≡ name };

    fn clone(&self) -> Result<PartialName, AllocError> {
        Ok(PartialName {
            bytes: self.bytes.clone()?,
        })
    }
}

impl PartialEq for PartialName {
    ghost use Rattle.std.specs.Prelude.{nat_eq};
    ghost use Rattle.std.specs.Cmp.Lexicographic.{pointwise, nat_list_eq_equiv};
    ghost use Rattle.std.specs.Cmp.{partial_equiv_from_equiv};

    ghost eq = { pointwise nat_eq };

    ghost laws = { partial_equiv_from_equiv nat_list_eq_equiv };

    fn eq(&self, other: &PartialName) -> bool {
        self.as_slice() == other.as_slice()
    }
}

impl Eq for PartialName {
    ghost use Rattle.std.specs.Cmp.Lexicographic.{nat_list_eq_equiv};

    ghost laws = { nat_list_eq_equiv };
}

impl Ord for PartialName {
    ghost use Rattle.std.specs.Ordering.{nat_cmp};
    ghost use Rattle.std.specs.Cmp.Lexicographic.{slice_cmp, nat_list_cmp_total};
    ghost use Rattle.std.proofs.Common.{rules};
    ghost use Rattle.std.specs.Cmp.Rules.{comparing};

    ghost cmp = { slice_cmp nat_cmp };

    ghost total = { nat_list_cmp_total };

    ghost matches_partial_cmp = { Prim.search (comparing, rules) };

    ghost matches_eq = { Prim.search (comparing, rules) };

    fn cmp(&self, other: &PartialName) -> Ordering {
        self.as_slice().cmp(other.as_slice())
    }
}

impl PartialOrd for PartialName {
    ghost use Rattle.std.specs.Cmp.Lexicographic.{slice_cmp};
    ghost use Rattle.std.specs.Ordering.{as_partial_cmp, nat_cmp};
    ghost use Rattle.std.specs.Cmp.{partial_order_from_own_ties};
    ghost use Rattle.std.proofs.Common.{rules};
    ghost use Rattle.std.specs.Cmp.Rules.{comparing};

    ghost partial_cmp = { as_partial_cmp (slice_cmp nat_cmp) };

    ghost laws = { partial_order_from_own_ties (Prim.search (comparing, rules)) (Prim.search (comparing, rules)) };

    fn partial_cmp(&self, other: &PartialName) -> Option<Ordering> {
        Some(self.cmp(other))
    }
}
