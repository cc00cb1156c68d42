//! The meaning of a comparison: its expression, or nothing if it is dropped, and its warnings.

ghost use Rattle.std.specs.Prelude.{◌≡◌};
ghost use Rattle.marker_words.specs.Key.{is_deprecated};

use crate::expression::MarkerExpression;
use crate::extra::MarkerValueExtra;
use crate::version_comparison::{asked_before, asked_behind};
use crate::version_operator::VersionOperator;
use marker_words::{
    ComparisonRef, ExtraOperator, MarkerOperator, MarkerValueRef, MarkerValueString,
    MarkerValueVersion,
};
use pep508_errors::MarkerWarningKind;
use pep508_names::ExtraName;
use refusal::unless_fault;
use std::alloc::{AllocError, Global};

// The meaning of a comparison: its expression, or nothing if it is dropped, and the kinds of its
// warnings in order.
#[derive(Debug, Drop)]
pub(crate) struct Outcome {
    pub(crate) expression: Option<MarkerExpression>,
    pub(crate) kinds: Vec<MarkerWarningKind>,
}

impl Outcome {
    ghost use Rattle.std.specs.Prelude.{◌++◌, ◌∷◌, [], IfOk, OnOk};
    ghost use Rattle.pep508_errors.specs.declared.warning.MarkerWarningKind.{MarkerWarningKind};
    ghost use Rattle.marker_parts.specs.Comparison.{key_kinds, dropped_with, text_meaning, MeansExtra, MeansBehind, MeansBefore};
    ghost use Rattle.marker_parts.specs.Read.{meaning_of, IsMeaningOf, HasMeaning, IsExtraOf};

    // The meaning of two sides and the operator between them.
    #[tactic(auto, using(crate::proofs::MeaningLaws::sides_mean))]
    pub(crate) fn of(alloc: Global, comparison: ComparisonRef<'_>) -> Result<Outcome, AllocError>
        ensures { IfOk result (λ outcome. IsMeaningOf comparison.entry (meaning_of outcome)) }
    {
        let operator = comparison.operator;
        match (comparison.left, comparison.right) {
            (MarkerValueRef::MarkerEnvVersion(key), MarkerValueRef::QuotedString(text)) => {
                Outcome::of_version(alloc, key, operator, text)
            }
            (MarkerValueRef::QuotedString(text), MarkerValueRef::MarkerEnvVersion(key)) => {
                Outcome::of_turned_version(alloc, key, operator.invert(), text)
            }
            (MarkerValueRef::MarkerEnvString(key), MarkerValueRef::QuotedString(text)) => {
                Outcome::of_text(alloc, key, operator, text)
            }
            (MarkerValueRef::QuotedString(text), MarkerValueRef::MarkerEnvString(key)) => {
                Outcome::of_text(alloc, key, operator.invert(), text)
            }
            (MarkerValueRef::Extra, MarkerValueRef::QuotedString(text)) => {
                Outcome::of_extra(alloc, operator, text)
            }
            (MarkerValueRef::QuotedString(text), MarkerValueRef::Extra) => {
                Outcome::of_extra(alloc, operator, text)
            }
            (MarkerValueRef::MarkerEnvString(left), MarkerValueRef::MarkerEnvString(right)) => {
                let mut kinds = Outcome::kinds_of(alloc, left)?;
                Outcome::warn_of(&mut kinds, right)?;
                let reason = MarkerWarningKind::MarkerMarkerComparison;
                Outcome::dropped_with(kinds, reason)
            }
            (MarkerValueRef::MarkerEnvString(key), MarkerValueRef::Extra) => {
                Outcome::dropped_key(alloc, key, MarkerWarningKind::MarkerMarkerComparison)
            }
            (MarkerValueRef::MarkerEnvString(key), MarkerValueRef::MarkerEnvVersion(_)) => {
                Outcome::dropped_key(alloc, key, MarkerWarningKind::MarkerMarkerComparison)
            }
            (MarkerValueRef::MarkerEnvVersion(_), MarkerValueRef::MarkerEnvString(key)) => {
                Outcome::dropped_key(alloc, key, MarkerWarningKind::Pep440Error)
            }
            (MarkerValueRef::Extra, MarkerValueRef::MarkerEnvString(key)) => {
                Outcome::dropped_key(alloc, key, MarkerWarningKind::ExtraInvalidComparison)
            }
            (
                MarkerValueRef::MarkerEnvVersion(_),
                MarkerValueRef::Extra | MarkerValueRef::MarkerEnvVersion(_),
            ) => {
                let reason = MarkerWarningKind::Pep440Error;
                Outcome::dropped_with(Vec::new(alloc), reason)
            }
            (MarkerValueRef::Extra, MarkerValueRef::Extra | MarkerValueRef::MarkerEnvVersion(_)) =>
                {
                    let reason = MarkerWarningKind::ExtraInvalidComparison;
                    Outcome::dropped_with(Vec::new(alloc), reason)
                }
            (MarkerValueRef::QuotedString(_), MarkerValueRef::QuotedString(_)) => {
                let reason = MarkerWarningKind::StringStringComparison;
                Outcome::dropped_with(Vec::new(alloc), reason)
            }
        }
    }

    // Adds a warning for a deprecated spelling.
    fn warn_of(kinds: &mut Vec<MarkerWarningKind>, key: MarkerValueString) -> Result<(), AllocError>
        ensures { OnOk result (kinds.new.items ≡ kinds.old.items ++ key_kinds key) }
    {
        if is_deprecated(key) {
            kinds.push(MarkerWarningKind::DeprecatedMarkerName)?;
        }
        Ok(())
    }

    fn kinds_of(alloc: Global, key: MarkerValueString) -> Result<Vec<MarkerWarningKind>, AllocError>
        ensures { IfOk result (λ kinds. kinds.items ≡ key_kinds key) }
    {
        let mut kinds = Vec::new(alloc);
        Outcome::warn_of(&mut kinds, key)?;
        Ok(kinds)
    }

    // A comparison that is dropped with a further warning.
    fn dropped_with(
        mut kinds: Vec<MarkerWarningKind>,
        reason: MarkerWarningKind,
    ) -> Result<Outcome, AllocError>
        ensures { IfOk result (HasMeaning (dropped_with (kinds.items ++ (reason ∷ [])))) }
    {
        kinds.push(reason)?;
        Ok(Outcome {
            expression: None,
            kinds,
        })
    }

    // A text key compared with something that is not quoted.
    fn dropped_key(
        alloc: Global,
        key: MarkerValueString,
        reason: MarkerWarningKind,
    ) -> Result<Outcome, AllocError>
        ensures { IfOk result (HasMeaning (dropped_with (key_kinds key ++ (reason ∷ [])))) }
    {
        Outcome::dropped_with(Outcome::kinds_of(alloc, key)?, reason)
    }

    // A version key compared with a quoted text. A list has two warnings.
    #[tactic(auto, using(crate::proofs::MeaningLaws::meant_behind))]
    fn of_version(
        alloc: Global,
        key: MarkerValueVersion,
        operator: MarkerOperator,
        text: &str,
    ) -> Result<Outcome, AllocError>
        ensures { IfOk result (λ outcome. MeansBehind key operator text.now (meaning_of outcome)) }
    {
        let operator = VersionOperator::of(operator);
        let mut kinds = Vec::new(alloc);
        let expression = asked_behind(alloc, key, operator, text)?;
        if expression.is_none() {
            if let VersionOperator::Among { negated: _ } = operator {
                kinds.push(MarkerWarningKind::Pep440Error)?;
            }
            return Outcome::dropped_with(kinds, MarkerWarningKind::Pep440Error);
        }
        Ok(Outcome { expression, kinds })
    }

    // A quoted text compared with a version key: the operator is turned around.
    #[tactic(auto, using(crate::proofs::MeaningLaws::meant_before))]
    fn of_turned_version(
        alloc: Global,
        key: MarkerValueVersion,
        operator: MarkerOperator,
        text: &str,
    ) -> Result<Outcome, AllocError>
        ensures { IfOk result (λ outcome. MeansBefore key operator text.now (meaning_of outcome)) }
    {
        let expression = asked_before(alloc, key, VersionOperator::of(operator), text)?;
        let kinds = Vec::new(alloc);
        if expression.is_none() {
            return Outcome::dropped_with(kinds, MarkerWarningKind::Pep440Error);
        }
        Ok(Outcome { expression, kinds })
    }

    // A text key and a quoted text.
    fn of_text(
        alloc: Global,
        key: MarkerValueString,
        operator: MarkerOperator,
        text: &str,
    ) -> Result<Outcome, AllocError>
        ensures { IfOk result (HasMeaning (text_meaning key operator text.now)) }
    {
        let kinds = Outcome::kinds_of(alloc, key)?;
        if operator == MarkerOperator::TildeEqual {
            return Outcome::dropped_with(kinds, MarkerWarningKind::LexicographicComparison);
        }
        let value = String::from_str(alloc, text)?;
        Ok(Outcome {
            expression: Some(MarkerExpression::String {
                key,
                operator,
                value,
            }),
            kinds,
        })
    }

    // A text that is an invalid name is an arbitrary extra.
    #[tactic(auto, using(crate::proofs::MeaningLaws::extra_of_text))]
    fn extra(alloc: Global, text: &str) -> Result<MarkerValueExtra, AllocError>
        ensures { IfOk result (IsExtraOf text.now) }
    {
        match unless_fault(ExtraName::parse(alloc, text))? {
            Some(name) => Ok(MarkerValueExtra::Extra(name)),
            None => Ok(MarkerValueExtra::Arbitrary(String::from_str(alloc, text)?)),
        }
    }

    // `extra` and a quoted text.
    fn of_extra(alloc: Global, operator: MarkerOperator, text: &str) -> Result<Outcome, AllocError>
        ensures { IfOk result (λ outcome. MeansExtra text.now operator (meaning_of outcome)) }
    {
        let name = Outcome::extra(alloc, text)?;
        let mut kinds = Vec::new(alloc);
        if let MarkerValueExtra::Arbitrary(_) = name {
            kinds.push(MarkerWarningKind::ExtraInvalidComparison)?;
        }
        let operator = match operator {
            MarkerOperator::Equal => ExtraOperator::Equal,
            MarkerOperator::NotEqual => ExtraOperator::NotEqual,
            _ => return Outcome::dropped_with(kinds, MarkerWarningKind::ExtraInvalidComparison),
        };
        Ok(Outcome {
            expression: Some(MarkerExpression::Extra { operator, name }),
            kinds,
        })
    }
}

fn is_deprecated(key: MarkerValueString) -> bool
    ensures { result ≡ is_deprecated key }
{
    matches!(
        key,
        MarkerValueString::OsNameDeprecated
            | MarkerValueString::PlatformMachineDeprecated
            | MarkerValueString::PlatformPythonImplementationDeprecated
            | MarkerValueString::PythonImplementationDeprecated
            | MarkerValueString::PlatformVersionDeprecated
            | MarkerValueString::SysPlatformDeprecated
    )
}
