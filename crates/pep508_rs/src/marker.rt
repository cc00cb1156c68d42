//! Markers: their parts, their trees, and their texts.

pub use marker_graph::{
    BooleanEdges, ContainsMarkerTree, ExtraMarkerTree, InMarkerTree, Interner, InvalidExpression,
    Mark, MarkerRelation, MarkerTree, MarkerTreeContents, MarkerTreeKind, MarkerValueExtraRef,
    StringEdges, StringMarkerTree, TruthVariable, VersionEdges, VersionMarkerTree,
};
pub use marker_parts::{
    ExtraName, ExtraOperator, InvalidNameError, MarkerEnvironment, MarkerEnvironmentBuilder,
    MarkerExpression, MarkerOperator, MarkerOperatorBounds, MarkerValue, MarkerValueExtra,
    MarkerValueString, MarkerValueVersion, MarkerWarningKind, PackageName, Pep508Error,
    Pep508ErrorSource, Pep508Url, Refusal, ReportTo, Reporter, StringVersion, Surroundings,
    TextVariable, TracingReporter, Version, VersionSpecifier, VersionVariable,
};
pub use marker_view::has_room_for_text;
pub use pep508_markers::{Command, MarkerText, MarkerTreeView, Reason, Reply, Session, ser};
