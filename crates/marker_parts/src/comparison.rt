//! The parser of one comparison (PEP 508, "Grammar").

ghost use Rattle.std.specs.Prelude.{◌≡◌, ◌<◌, IfErr, IfOk, OnErr, length};
ghost use Rattle.pep508_text.specs.Suffix.{IsSuffix};
ghost use Rattle.marker_parts.specs.Read.{IsRefusal, ReadsFront};

use crate::expression::MarkerExpression;
use crate::meaning::Outcome;
use marker_words::{Fault, sides};
use pep508_errors::MarkerWarningKind;
use std::alloc::{AllocError, Global};

/// Why a comparison could not be parsed.
#[derive(Clone, Copy, Debug, PartialEq, Eq)]
pub enum ComparisonError<'a> {
    /// Memory ran out.
    OutOfMemory,
    /// The text does not begin with a comparison.
    Fault(Fault<'a>),
}

impl From<AllocError> for ComparisonError<'_> {
    ghost use Rattle.marker_parts.specs.declared.comparison.ComparisonError.TheVariants.{OutOfMemory};

    ghost from_gives = { λ _ error. error ≡ OutOfMemory };

    fn from(_error: AllocError) -> Self {
        ComparisonError::OutOfMemory
    }
}

impl<'a> From<Fault<'a>> for ComparisonError<'a> {
    ghost use Rattle.marker_parts.specs.declared.comparison.ComparisonError.TheVariants.{Fault as AtFault};

    ghost from_gives = { λ fault error. error ≡ AtFault fault };

    fn from(fault: Fault<'a>) -> Self {
        ComparisonError::Fault(fault)
    }
}

/// Parses the comparison at the front of the text. Returns its expression, or `None` if it is
/// dropped, and the rest of the text. The kinds of its warnings are appended to `kinds`; an error
/// leaves that list as it was.
#[tactic(auto, using(crate::proofs::ComparisonLaws::no_comparison))]
pub fn read_comparison<'a>(
    alloc: Global,
    text: &'a str,
    kinds: &mut Vec<MarkerWarningKind>,
) -> Result<(Option<MarkerExpression>, &'a str), ComparisonError<'a>>
    ensures found { IfOk result (ReadsFront text.now kinds.old.items kinds.new.items) }
    ensures suffix { IfOk result (λ read. IsSuffix text.now read.1.now) }
    ensures shorter { IfOk result (λ read. length read.1.now < length text.now) }

    ensures refused { IfErr result (IsRefusal text.now) }
    ensures unchanged { OnErr result (kinds.new.items ≡ kinds.old.items) }
{
    let (comparison, rest) = sides(text)?;
    let mut outcome = Outcome::of(alloc, comparison)?;
    kinds.append(&mut outcome.kinds)?;
    Ok((outcome.expression, rest))
}
