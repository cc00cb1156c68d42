//! The clauses of a set of versions.

ghost use Rattle.std.specs.Prelude.{IfOk, IfSome, not};
ghost use Rattle.std.specs.Borrow.{Bor};
ghost use Rattle.std.specs.declared.ops.Bound.{Bound};
ghost use Rattle.pep440_version.specs.Parts.{Parts};
ghost use Rattle.marker_terms.specs.Clauses.{clauses_of};
ghost use Rattle.marker_terms.specs.Plain.{AllPrintable, HavePrintableTerms, IsPrintable, IsPrintableSpecifier, HasPrintableSpecifiers, IsPrintableAs};
ghost use Rattle.marker_terms.specs.Outcomes.{ComparesWith, ExcludesVersionsOf, IsNegationOf, IsOutside, MeanVersionRange, MeanVersions, MeanVersionsOutside};

use crate::term::{one_clause, push_large};
use marker_parts::MarkerExpression;
use marker_words::VersionVariable;
use pep440_rs::laws::range_specifiers_raise_nothing;
use pep440_rs::{Operator, Ranges, Version, VersionSpecifier};
use pep440_specifier::laws::specifiers_are_well_formed;
use pep440_version::laws::normal_text_reads_back;
use std::alloc::{AllocError, Global};
use std::ops::Bound;

/// Returns the clauses that are true where the variable's version is in a set.
///
/// A set of all but single versions is one clause, with a `!=` for each of them. A set of all but
/// the versions from M.m up to M.(m+1) is one clause too: `!= 'M.m.*'`. Of another set each
/// interval is a clause: `==`, `== 'M.m.*'`, or the comparisons of its bounds. The contract says
/// what the clauses mean if the bounds of the set are releases. Each term parses back from its
/// text, whatever they are.
pub fn version_clauses(
    alloc: Global,
    variable: VersionVariable,
    set: &Ranges<Version>,
) -> Result<Vec<Vec<MarkerExpression>>, AllocError>
    ensures means { IfOk result (MeanVersions variable set.now) }
    ensures printable { IfOk result (λ clauses. HavePrintableTerms (clauses_of clauses.items)) }
{
    if !is_unbounded(set) {
        return interval_clauses(alloc, variable, set);
    }
    let outside = set.complement(alloc)?;
    match exclusions(alloc, variable, &outside)? {
        Some(terms) => one_clause(alloc, terms),
        None => interval_clauses(alloc, variable, set),
    }
}

// Whether a set has no end in either direction, as sets of all but single values.
fn is_unbounded(set: &Ranges<Version>) -> bool {
    matches!(
        set.bounding_range(),
        Some((Bound::Unbounded, Bound::Unbounded))
    )
}

// A clause for each interval.
fn interval_clauses(
    alloc: Global,
    variable: VersionVariable,
    set: &Ranges<Version>,
) -> Result<Vec<Vec<MarkerExpression>>, AllocError>
    ensures means { IfOk result (MeanVersions variable set.now) }
    ensures printable { IfOk result (λ clauses. HavePrintableTerms (clauses_of clauses.items)) }
{
    let mut clauses = Vec::new(alloc);
    for bounds in set.iter() {
        let terms = version_range_terms(alloc, variable, bounds)?;
        clauses.push(terms)?;
    }
    Ok(clauses)
}

// The terms of the versions that are not in a set, if these are single versions, or the versions of
// one minor release.
fn exclusions(
    alloc: Global,
    variable: VersionVariable,
    outside: &Ranges<Version>,
) -> Result<Option<Vec<MarkerExpression>>, AllocError>
    ensures means { IfOk result (λ found. IfSome found (MeanVersionsOutside variable outside.now)) }
    ensures printable { IfOk result (λ found. IfSome found (λ terms. AllPrintable terms.items)) }
{
    let mut terms = Vec::new(alloc);
    let mut has_star = false;
    for bounds in outside.iter() {
        let Some(specifier) = exclusion(alloc, bounds)? else {
            return Ok(None);
        };
        has_star |= specifier.operator().is_star();
        push_large(&mut terms, comparison(variable, specifier))?;
    }
    // A minor release is excluded only on its own.
    if has_star && terms.len() > 1 {
        return Ok(None);
    }
    Ok(Some(terms))
}

/// Returns the comparison that is true outside of a range of a single version or a minor release,
/// or nothing for another range. The contract says what it means if the bounds are releases.
pub fn version_exclusion(
    alloc: Global,
    variable: VersionVariable,
    bounds: (Bound<&Version>, Bound<&Version>),
) -> Result<Option<MarkerExpression>, AllocError>
    ensures means { IfOk result (λ found. IfSome found (ExcludesVersionsOf variable bounds.entry)) }
    ensures printable { IfOk result (λ found. IfSome found IsPrintable) }
{
    match exclusion(alloc, bounds)? {
        Some(specifier) => Ok(Some(comparison(variable, specifier))),
        None => Ok(None),
    }
}

// The specifier of the versions outside of a range of a single version or a minor release.
fn exclusion(
    alloc: Global,
    bounds: (Bound<&Version>, Bound<&Version>),
) -> Result<Option<VersionSpecifier>, AllocError>
    ensures means { IfOk result (λ found. IfSome found (IsOutside bounds.entry)) }
    ensures printable { IfOk result (λ found. IfSome found IsPrintableSpecifier) }
{
    range_specifiers_are_printable(bounds.1);
    let mut specifiers = VersionSpecifier::from_release_only_bounds(alloc, bounds)?;
    let Some(specifier) = specifiers.next() else {
        return Ok(None);
    };
    if specifiers.next().is_some() {
        return Ok(None);
    }
    Ok(inequality(specifier))
}

// The negation of a specifier that is `==` or has a star.
#[tactic(auto, using(pep440_rs::proofs::Complements::complements))]
fn inequality(specifier: VersionSpecifier) -> Option<VersionSpecifier>
    ensures means { IfSome result (IsNegationOf specifier) }
    ensures printable { IfSome result (IsPrintableAs specifier) }
{
    let (operator, version) = specifier.into_parts();
    let negated = match operator {
        Operator::Equal => Operator::NotEqual,
        Operator::EqualStar => Operator::NotEqualStar,
        _ => return None,
    };
    match VersionSpecifier::from_version(negated, version) {
        Ok(specifier) => Some(specifier),
        Err(_) => unreachable!(),
    }
}

/// The terms that hold where the variable's version lies in a range. What they mean is promised
/// where the bounds are at releases; they are read back as they are printed, whatever these are.
/// Only memory can run out.
pub fn version_range_terms(
    alloc: Global,
    variable: VersionVariable,
    bounds: (Bound<&Version>, Bound<&Version>),
) -> Result<Vec<MarkerExpression>, AllocError>
    ensures means { IfOk result (MeanVersionRange variable bounds.entry) }
    ensures printable { IfOk result (λ terms. AllPrintable terms.items) }
{
    range_specifiers_are_printable(bounds.1);
    let mut terms = Vec::new(alloc);
    for specifier in VersionSpecifier::from_release_only_bounds(alloc, bounds)? {
        push_large(&mut terms, comparison(variable, specifier))?;
    }
    Ok(terms)
}

// The comparison of a variable's key.
fn comparison(variable: VersionVariable, specifier: VersionSpecifier) -> MarkerExpression
    ensures means { ComparesWith variable specifier result }
    ensures printable { IsPrintableSpecifier specifier → IsPrintable result }
{
    specifiers_are_well_formed(&specifier);
    let key = variable.key();
    MarkerExpression::Version { key, specifier }
}

// The specifiers of a range are printable, because the version at its upper bound is valid: the
// number after that of a star exists.
fn range_specifiers_are_printable(upper: Bound<&Version>)
    ensures { (lower : Bound (Bor Parts)) → HasPrintableSpecifiers lower upper.entry }
{
    range_specifiers_raise_nothing();
    match upper {
        Bound::Included(version) => normal_text_reads_back(version),
        Bound::Excluded(version) => normal_text_reads_back(version),
        Bound::Unbounded => {}
    }
}
