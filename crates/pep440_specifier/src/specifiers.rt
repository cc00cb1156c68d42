//! Sets of version specifiers.

ghost use Rattle.std.specs.Prelude.{◌≡◌, IfOk, OnOk, Some, refl};
ghost use Rattle.std.specs.List.{All};
ghost use Rattle.std.specs.List.Sorted.{IsPermutation, IsSortedBy, IsStableBy};
ghost use Rattle.std.specs.Cmp.{eq_by_cmp_equiv, partial_equiv_from_equiv, po};
ghost use Rattle.std.specs.Cmp.Lexicographic.{lists_equiv, lists_per, lists_ties, lists_total, pointwise, slice_cmp};
ghost use Rattle.std.specs.Fmt.{DisplaysOnOk};
ghost use Rattle.std.specs.Hash as fed;
ghost use Rattle.std.specs.Hash.{items_Alike};
ghost use Rattle.std.specs.Ordering.{eq_by_cmp};
ghost use Rattle.pep440_specifier.specs.HashInput.{specifier_writes};
ghost use Rattle.pep440_specifier.specs.Order.{specifier_cmp};
ghost use Rattle.pep440_specifier.specs.OrderLaws.{specifier_alike, specifier_total};
ghost use Rattle.pep440_specifier.specs.Set.{IsSet, is_lower, later_text, set_text};
ghost use Rattle.pep440_specifier.specs.Specifier.{IsWellFormed};

use crate::laws::specifiers_are_well_formed;
use crate::specifier::VersionSpecifier;
use std::alloc::AllocError;
use std::cmp::Ordering;
use std::fmt;
use std::hash::{Hash, Hasher};
use std::marker::Model;

/// Specifiers that must all match, such as `>=3.8, <4`, in the order of their versions.
///
/// ```
/// let below = VersionSpecifier::parse(alloc, "< 3")?;
/// let from = VersionSpecifier::parse(alloc, ">= 2.8")?;
/// let specifiers = VersionSpecifiers::from_list(vec![in alloc; below, from]?)?;
/// println!(rt; "{specifiers}")?;
/// ```
#[derive(Debug, Drop)]
pub struct VersionSpecifiers {
    specifiers: Vec<VersionSpecifier>,
}

impl Model for VersionSpecifiers {
    ghost use Rattle.std.specs.Prelude.{List};
    ghost use Rattle.pep440_specifier.specs.Specifier.{Specifier};
    ghost use Rattle.pep440_specifier.specs.SetView.{list_of};

    ghost Value = { List Specifier };

    ghost use Rattle.pep440_specifier.specs.Set.{IsSet};

    ghost view = { list_of };

    ghost invariant = { λ set. IsSet (list_of set) };
}

impl VersionSpecifiers {
    /// Returns the specifiers sorted by version; those of the same version keep their order.
    pub fn from_list(specifiers: Vec<VersionSpecifier>) -> Result<VersionSpecifiers, AllocError>
        ensures same { IfOk result (λ set. IsPermutation specifiers.items set) }
        ensures sorted { IfOk result (λ set. IsSortedBy is_lower set) }
        ensures stable { IfOk result (λ set. IsStableBy is_lower specifiers.items set) }
    {
        let mut specifiers = specifiers;
        sort(&mut specifiers)?;
        each_is_well_formed(&specifiers);
        Ok(VersionSpecifiers { specifiers })
    }

    /// Returns the specifiers in the order of their versions.
    pub fn as_slice(&self) -> &[VersionSpecifier]
        ensures value { result.now ≡ self.now }
        ensures set { IsSet self.now }
    {
        &self.specifiers
    }
}

// Reading each specifier shows the invariant of all. Does nothing.
fn each_is_well_formed(specifiers: &[VersionSpecifier])
    ensures { All IsWellFormed specifiers.now }
{
    for specifier in specifiers {
        specifiers_are_well_formed(specifier);
    }
}

fn sort(list: &mut Vec<VersionSpecifier>) -> Result<(), AllocError>
    ensures same { IsPermutation list.old.items list.new.items }
    ensures sorted { OnOk result (IsSortedBy is_lower list.new.items) }
    ensures stable { IsStableBy is_lower list.old.items list.new.items }
{
    list.sort_by(|a, b| a.version.cmp(&b.version))
}

fn write_later<W: fmt::Write>(
    specifiers: &[VersionSpecifier],
    f: &mut fmt::Formatter<W>,
) -> fmt::Result
    ensures { DisplaysOnOk W.write_str_gives f.old result (Some (later_text specifiers.now)) f.new }
{
    for specifier in specifiers {
        write!(f, ", {specifier}")?;
    }
    Ok(())
}

/// Writes the specifiers separated by a comma and a space, and nothing for an empty set.
impl fmt::Display for VersionSpecifiers {
    ghost output = { λ set. Some (set_text set) };

    fn fmt<W: fmt::Write>(&self, f: &mut fmt::Formatter<W>) -> fmt::Result {
        match self.specifiers.as_slice() {
            [first, others @ ..] => {
                write!(f, "{first}")?;
                write_later(others, f)
            }
            [] => Ok(()),
        }
    }
}

impl PartialEq for VersionSpecifiers {
    ghost eq = { pointwise (eq_by_cmp specifier_cmp) };

    ghost laws = { lists_per (partial_equiv_from_equiv (eq_by_cmp_equiv specifier_total)) };

    fn eq(&self, other: &VersionSpecifiers) -> bool {
        self.specifiers == other.specifiers
    }
}

impl Eq for VersionSpecifiers {
    ghost laws = { lists_equiv (eq_by_cmp_equiv specifier_total) };
}

/// Compares the first specifiers that differ; a set comes before one that it is the front of.
impl PartialOrd for VersionSpecifiers {
    ghost partial_cmp = { λ a b. Some (slice_cmp specifier_cmp a b) };

    ghost laws = { po (lists_total specifier_total) (lists_ties specifier_cmp (λ a b. refl)) };

    fn partial_cmp(&self, other: &VersionSpecifiers) -> Option<Ordering> {
        Some(self.cmp(other))
    }
}

impl Ord for VersionSpecifiers {
    ghost cmp = { slice_cmp specifier_cmp };

    ghost total = { lists_total specifier_total };

    ghost matches_partial_cmp = { λ a b. refl };

    ghost matches_eq = { lists_ties specifier_cmp (λ a b. refl) };

    fn cmp(&self, other: &VersionSpecifiers) -> Ordering {
        self.specifiers.as_slice().cmp(other.specifiers.as_slice())
    }
}

impl Hash for VersionSpecifiers {
    ghost hash_input = { fed.slice specifier_writes };

    ghost respects_eq = { (items_Alike specifier_alike).fed };

    fn hash<H: Hasher>(&self, state: &mut H) {
        self.specifiers.as_slice().hash(state);
    }
}

/// A clone has the same specifiers, written like the source's.
impl Clone for VersionSpecifiers {
    ghost is_clone = { λ set copy. copy ≡ set };

    fn clone(&self) -> Result<VersionSpecifiers, AllocError> {
        Ok(VersionSpecifiers {
            specifiers: self.specifiers.clone()?,
        })
    }
}
