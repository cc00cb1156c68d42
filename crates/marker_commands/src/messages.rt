//! What standard error shows of a marker.

use crate::outcome::Outcome;
use pep508_errors::{MarkerWarningKind, Pep508Error};
use pep508_program::{Format, Notice, Page, Span, Style, Weight, visible, write_notice};
use refusal::Refusal;
use requirement_findings::FindingName;
use requirement_lines::Positions;
use std::alloc::{AllocError, Global};
use std::fmt::Write;
use url::Url;

/// A marker of the command line, as messages show it.
#[derive(Clone, Copy, Debug)]
pub struct GivenMarker<'t> {
    /// What stands in place of the name of a file.
    pub name: &'t str,
    pub text: &'t str,
    pub has_colors: bool,
}

// The name of a warning.
fn warning_name(kind: MarkerWarningKind) -> FindingName {
    match kind {
        MarkerWarningKind::DeprecatedMarkerName => FindingName::DeprecatedMarkerName,
        MarkerWarningKind::ExtraInvalidComparison => FindingName::InvalidExtraComparison,
        MarkerWarningKind::LexicographicComparison => FindingName::LexicographicComparison,
        MarkerWarningKind::MarkerMarkerComparison => FindingName::MarkerMarkerComparison,
        MarkerWarningKind::Pep440Error => FindingName::InvalidVersionComparison,
        MarkerWarningKind::StringStringComparison => FindingName::StringStringComparison,
    }
}

impl GivenMarker<'_> {
    // Appends a message about the bytes of the marker from `start` to `end`.
    fn add(
        &self,
        alloc: Global,
        messages: &mut String,
        weight: Weight,
        name: &str,
        message: &str,
        start: usize,
        end: usize,
    ) -> Result<(), AllocError> {
        let shown = visible(alloc, message)?;
        let page = Page {
            name: self.name,
            text: self.text,
            hidden: &[],
        };
        let to_end = self.text.len().saturating_sub(start);
        let span = Span {
            start,
            end,
            position: Positions::new(self.text).position_of(to_end),
        };
        let notice = Notice {
            weight,
            name,
            message: shown.as_str(),
            span,
        };
        let style = Style {
            format: Format::Text,
            has_colors: self.has_colors,
        };
        write_notice(alloc, messages, style, &page, &notice)
    }

    // Appends an error about the whole marker.
    fn add_error(
        &self,
        alloc: Global,
        messages: &mut String,
        name: FindingName,
        message: &str,
    ) -> Result<(), AllocError> {
        let end = self.text.len();
        self.add(alloc, messages, Weight::Error, name.name(), message, 0, end)
    }

    /// Appends the warnings of the marker.
    pub fn add_warnings(
        &self,
        alloc: Global,
        messages: &mut String,
        warnings: &[(MarkerWarningKind, String)],
    ) -> Result<(), AllocError> {
        let end = self.text.len();
        for (kind, warning) in warnings {
            let name = warning_name(*kind).name();
            let message = warning.as_str();
            self.add(alloc, messages, Weight::Warning, name, message, 0, end)?;
        }
        Ok(())
    }

    /// Appends that the marker is invalid.
    pub fn add_fault(
        &self,
        alloc: Global,
        messages: &mut String,
        error: &Pep508Error<Url>,
    ) -> Result<(), AllocError> {
        let mut message = String::new(alloc);
        write!(message, "{}", error.message)?;
        let end = error.start.saturating_add(error.len);
        self.add(
            alloc,
            messages,
            Weight::Error,
            "invalid-marker",
            message.as_str(),
            error.start,
            end,
        )
    }

    /// Appends that a comparison of the marker has a bound above 2^64 - 1.
    pub fn add_too_large(&self, alloc: Global, messages: &mut String) -> Result<(), AllocError> {
        let message = "18446744073709551615 is the largest number of a version";
        self.add_error(alloc, messages, FindingName::NumberTooLarge, message)
    }

    /// Appends that the marker needs more room than there is.
    pub fn add_too_complex(&self, alloc: Global, messages: &mut String) -> Result<(), AllocError> {
        let message = "The marker is too complex";
        self.add_error(alloc, messages, FindingName::TooComplex, message)
    }
}
