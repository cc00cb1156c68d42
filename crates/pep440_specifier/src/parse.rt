//! Parsing specifiers.

ghost use Rattle.std.specs.Prelude.{◌≡◌, ◌≢◌, ◌≤◌, IfErr, IfNone, IfOk, IfSome, List, ℕ, false, length};
ghost use Rattle.std.specs.List.{prefix_len};
ghost use Rattle.refusal.specs.declared.Refusal.TheVariants.{SegmentAtEnd};
ghost use Rattle.refusal.specs.Refused.{IfFault};
ghost use Rattle.pep440_version.specs.Parse.{IsGivenUnlessMemory};
ghost use Rattle.pep440_specifier.specs.Fault.{IsToldOf};
ghost use Rattle.pep440_specifier.specs.Grammar.{IsOperatorBefore, IsSpecifierText, is_operator_byte};
ghost use Rattle.pep440_specifier.specs.Operator.{is_star, operator_text};
ghost use Rattle.pep440_specifier.specs.Specifier.{Specifier};

use crate::error::{SpecifierFault, VersionSpecifierError};
use crate::operator::Operator;
use crate::specifier::VersionSpecifier;
use pep440_version::{Refusal, VersionParseError, VersionPattern};
use std::alloc::{AllocError, Global};

impl VersionSpecifier {
    /// Parses an operator and a version, or an operator and a release with `.*` after it, such as
    /// `>=3.8` and `== 3.9.*` (PEP 440, "Version specifiers"). White space around the operator and
    /// the version is ignored.
    ///
    /// # Errors
    /// - [`Refusal::Fault`] if the text is an invalid specifier: what was expected at which byte.
    /// - [`Refusal::OutOfMemory`] when memory runs out.
    pub fn parse(
        alloc: Global,
        text: &str,
    ) -> Result<VersionSpecifier, Refusal<VersionSpecifierError>>
        // What is returned is what the text denotes.
        ensures found { IfOk result (λ s. IsSpecifierText text.now s) }

        // A valid text is parsed, unless memory runs out.
        ensures only { (s : Specifier) → IsSpecifierText text.now s → IsGivenUnlessMemory result s }
        ensures at_end { IfErr result (λ e. e ≢ SegmentAtEnd) }
        ensures fault { IfErr result (λ e. IfFault e (λ error. IsToldOf error text.now)) }
    {
        let specifier = text.trim();
        let Some((operator, rest)) = operator_before(specifier) else {
            return Err(refusal_before(alloc, text, specifier.len(), SpecifierFault::Operator));
        };
        let pattern = match VersionPattern::parse(alloc, rest) {
            Ok(pattern) => pattern,
            Err(Refusal::Fault(fault)) => return Err(of_pattern(alloc, text, rest, &fault)),
            Err(_) => return Err(Refusal::OutOfMemory),
        };
        match VersionSpecifier::from_pattern(operator, pattern) {
            Ok(specifier) => Ok(specifier),
            Err(error) => Err(of_combination(alloc, text, rest, error.fault())),
        }
    }
}

// How many characters of operators are at the front.
fn run_len(text: &[u8]) -> usize
    ensures value { result ≡ prefix_len is_operator_byte text.now }
    ensures fits { result ≤ length text.now }
{
    text.iter()
        .take_while(|byte| matches!(**byte, b'<' | b'=' | b'>' | b'!' | b'~'))
        .count()
}

// The operator with this text.
fn operator_of(run: &str) -> Option<Operator>
    ensures found { IfSome result (λ operator. run.now ≡ operator_text operator) }
    ensures written { IfSome result (λ operator. is_star operator ≡ false) }
    ensures none { IfNone result ((operator : Operator) → run.now ≢ operator_text operator) }
{
    match run.as_bytes() {
        [b'=', b'='] => Some(Operator::Equal),
        [b'=', b'=', b'='] => Some(Operator::ExactEqual),
        [b'!', b'='] => Some(Operator::NotEqual),
        [b'~', b'='] => Some(Operator::TildeEqual),
        [b'<'] => Some(Operator::LessThan),
        [b'<', b'='] => Some(Operator::LessThanEqual),
        [b'>'] => Some(Operator::GreaterThan),
        [b'>', b'='] => Some(Operator::GreaterThanEqual),
        _ => None,
    }
}

// The operator at the front, and the rest.
#[tactic(auto, using(crate::proofs::Operators::operator_at_front))]
fn operator_before(text: &str) -> Option<(Operator, &str)>
    ensures found { IfSome result (λ x. IsOperatorBefore text.now x.0 x.1.now) }
    ensures only { IfSome result (λ x. (operator : Operator) (rest : List ℕ)
        → IsOperatorBefore text.now operator rest → (x.0 ≡ operator) × (x.1.now ≡ rest)) }
    ensures none { IfNone result ((operator : Operator) (rest : List ℕ)
        → IsOperatorBefore text.now operator rest → ⊥) }
{
    let (run, rest) = text.split_at(run_len(text.as_bytes()));
    let operator = operator_of(run)?;
    Some((operator, rest))
}

// The refusal for a fault `rest` bytes before the end, not counting the white space there.
fn refusal_before(
    alloc: Global,
    text: &str,
    rest: usize,
    fault: SpecifierFault,
) -> Refusal<VersionSpecifierError>
    ensures at_end { result ≢ SegmentAtEnd }
    ensures fault { IfFault result (λ error. IsToldOf error text.now) }
{
    match VersionSpecifierError::before_rest(alloc, text, rest, fault) {
        Ok(error) => Refusal::Fault(error),
        Err(_) => Refusal::OutOfMemory,
    }
}

// The refusal for an invalid pattern after an operator.
fn of_pattern(
    alloc: Global,
    text: &str,
    pattern: &str,
    fault: &VersionParseError,
) -> Refusal<VersionSpecifierError>
    ensures at_end { result ≢ SegmentAtEnd }
    ensures fault { IfFault result (λ error. IsToldOf error text.now) }
{
    let rest = pattern.len().saturating_sub(fault.offset());
    refusal_before(
        alloc,
        text,
        rest,
        SpecifierFault::Version(fault.expectation()),
    )
}

// The refusal for an operator that does not accept the pattern.
fn of_combination(
    alloc: Global,
    text: &str,
    pattern: &str,
    fault: SpecifierFault,
) -> Refusal<VersionSpecifierError>
    ensures at_end { result ≢ SegmentAtEnd }
    ensures fault { IfFault result (λ error. IsToldOf error text.now) }
{
    let rest = match fault {
        SpecifierFault::NoStar(_) => ".*".len(),
        SpecifierFault::NoLocal(_) => match pattern.find('+') {
            Some(place) => pattern.len().saturating_sub(place),
            None => pattern.len(),
        },
        _ => pattern.trim_start().len(),
    };
    refusal_before(alloc, text, rest, fault)
}
