//! Evaluating the markers of requirements, and changing requirements.

ghost use Rattle.std.specs.Prelude.{◌≡◌, ◌&&◌, false, true, IfOk, OnErr, OnOk, Some};
ghost use Rattle.marker_environment.specs.Valuation.{Valuation};
ghost use Rattle.marker_graph.specs.Contents.{IsHeld, truth};
ghost use Rattle.marker_graph.specs.Evaluation.{AreComparisons, Evaluates};
ghost use Rattle.marker_walks.specs.Possible.{IsImpossibleAt, IsPossibleAt};
ghost use Rattle.pep508_markers.specs.Text.{OnlyGrows};
ghost use Rattle.pep508_requirements.specs.Changed.{without_url};

use crate::origin::RequirementOrigin;
use crate::requirement::Requirement;
use crate::version_or_url::VersionOrUrl;
use marker_environment::MarkerEnvironment;
use marker_graph::{Interner, MarkerTree, TruthVariable};
use pep440_version::Version;
use pep508_errors::{MarkerWarningKind, Pep508Url};
use pep508_names::ExtraName;
use std::alloc::AllocError;

impl<T: Pep508Url> Requirement<T> {
    /// Removes the URL, if there is one. Specifiers stay.
    pub fn clear_url(&mut self)
        ensures { self.new
            ≡ record self.old { version_or_url = without_url self.old.version_or_url } }
    {
        if let Some(VersionOrUrl::Url(_)) = &self.version_or_url {
            self.version_or_url = None;
        }
    }

    /// Returns the requirement with this origin.
    pub fn with_origin(mut self, origin: RequirementOrigin) -> Requirement<T>
        ensures { result ≡ record self { origin = Some origin } }
    {
        self.origin = Some(origin);
        self
    }

    /// Restricts the requirement to an extra: the new marker is the old one `and extra == '..'`.
    ///
    /// # Errors
    /// - `AllocError` when memory runs out. The requirement stays as it was.
    pub fn with_extra_marker(
        &mut self,
        interner: &mut Interner,
        extra: &ExtraName,
    ) -> Result<(), AllocError>
        requires { IsHeld interner.old self.old.marker }
        ensures kept { OnlyGrows interner.old interner.new }
        ensures held { IsHeld interner.new self.new.marker }
        ensures means { OnOk result ((v : Valuation) → truth interner.new self.new.marker v
            ≡ (truth interner.old self.old.marker v && v.extra extra.now)) }
        ensures others { self.new ≡ record self.old { marker = self.new.marker } }
        ensures refused { OnErr result (self.new ≡ self.old) }
    {
        let asked = MarkerTree::asks(interner, TruthVariable::Extra(extra.clone()?))?;
        self.marker.and(interner, asked)?;
        Ok(())
    }

    /// Returns whether the marker is true in the environment with these extras.
    pub fn evaluate_markers(
        &self,
        interner: &Interner,
        environment: &MarkerEnvironment,
        extras: &[ExtraName],
    ) -> bool
        requires { IsHeld interner.now self.now.marker }
        ensures { Evaluates interner.now self.now.marker environment.now extras.now result }
    {
        self.marker.evaluate(interner, environment, extras)
    }

    /// Returns whether the marker can be true with exactly these extras and one of these Python
    /// versions. As in [`Requirement::evaluate_markers`] an invalid name is no extra; the other
    /// keys and substring tests may have any values, each independently of the others. `false` if
    /// `python_versions` is empty.
    pub fn evaluate_extras_and_python_version(
        &self,
        interner: &Interner,
        extras: &[ExtraName],
        python_versions: &[Version],
    ) -> bool
        requires { IsHeld interner.now self.now.marker }
        ensures possible { result ≡ true → IsPossibleAt extras.now python_versions.now
            (truth interner.now self.now.marker) }
        ensures impossible { result ≡ false → IsImpossibleAt extras.now python_versions.now
            (truth interner.now self.now.marker) }
    {
        self.marker
            .evaluate_extras_and_python_version(interner, extras, python_versions)
    }

    /// As [`Requirement::evaluate_markers`], with the warnings for texts that are compared by
    /// order, as in `os_name < 'b'`.
    pub fn evaluate_markers_and_report(
        &self,
        interner: &Interner,
        environment: &MarkerEnvironment,
        extras: &[ExtraName],
    ) -> Result<(bool, Vec<(MarkerWarningKind, String)>), AllocError>
        requires { IsHeld interner.now self.now.marker }
        ensures answer { IfOk result (λ r.
            Evaluates interner.now self.now.marker environment.now extras.now r.0) }
        ensures warnings { IfOk result (λ r. AreComparisons r.1.items) }
    {
        self.marker
            .evaluate_collect_warnings(interner, environment, extras)
    }
}
