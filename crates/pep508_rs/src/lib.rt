//! Python dependency specifiers (PEP 508): requirements, their markers, versions and version
//! specifiers (PEP 440), and URLs.
//!
//! This is the crate that programs use. It re-exports the names of the Rust crate `pep508_rs`, and
//! the additions that docs/DIFFERENCES.md lists.
//!
//! | Module | Contents |
//! |---|---|
//! | this one | everything that a program needs |
//! | [`marker`] | markers alone: their parts, trees and texts |
//! | `pep440_rs` | versions, specifiers, and sets of versions |
//! | [`laws`] | proved statements, as functions that do nothing |
//! | [`internal`] | items that the crates of this repository share |
//!
//! ```
//! let dev = [ExtraName::parse(rt.alloc(), "dev")?];
//! let requirement = Requirement::<VerbatimUrl>::parse(text, surroundings, interner)?;
//! let with_dev = requirement.evaluate_markers(interner, linux, &dev);
//! let without = requirement.evaluate_markers(interner, linux, &[]);
//! ```
//!
//! # Every call
//! - A call that allocates returns an error when memory runs out: `AllocError`, or
//!   [`Refusal::OutOfMemory`] if it has other errors too. Every existing value keeps its meaning.
//! - A marker is an id in an [`Interner`]. A call that takes a [`MarkerTree`] and an interner
//!   requires that the interner holds the marker. A text that is refused leaves the nodes of the
//!   interner as they were.
//! - Evaluating and comparing markers and requirements allocates nothing, except for warnings that
//!   are reported.
//! - [`Refusal::SegmentAtEnd`] is returned if the set of versions of a comparison has a bound above
//!   2^64 - 1, as that of `python_version > '3.18446744073709551615'`.
#![tactic(auto)]

pub mod internal;
pub mod laws;
pub mod marker;

pub use crate::marker::{
    BooleanEdges, Command, ContainsMarkerTree, ExtraMarkerTree, ExtraName, ExtraOperator,
    InMarkerTree, Interner, InvalidExpression, InvalidNameError, Mark, MarkerEnvironment,
    MarkerEnvironmentBuilder, MarkerExpression, MarkerOperator, MarkerOperatorBounds,
    MarkerRelation, MarkerText, MarkerTree, MarkerTreeContents, MarkerTreeKind, MarkerTreeView,
    MarkerValue, MarkerValueExtra, MarkerValueExtraRef, MarkerValueString, MarkerValueVersion,
    MarkerWarningKind, PackageName, Pep508Error, Pep508ErrorSource, Pep508Url, Reason, Refusal,
    Reply, ReportTo, Reporter, Session, StringEdges, StringMarkerTree, StringVersion, Surroundings,
    TextVariable, TracingReporter, TruthVariable, Version, VersionEdges, VersionMarkerTree,
    VersionSpecifier, VersionVariable, has_room_for_text, ser,
};
pub use pep440_rs;
pub use pep508_requirements::{
    Extras, Requirement, RequirementOrigin, RequirementView, UnnamedRequirement,
    UnnamedRequirementView, VersionOrUrl, VersionOrUrlRef,
};
pub use pep508_urls::{
    Scheme, UnnamedRequirementUrl, VerbatimUrl, VerbatimUrlError, expand_env_vars,
    normalize_absolute_path, normalize_url_path, split_extras, split_scheme, strip_host,
};
pub use url::Url;
