//! Reporters, which take the warnings of marker parsers.

ghost use Rattle.std.specs.Prelude.{⊤, ◌≡◌, ◌∷◌, ◌++◌, [], List, Option, None, Some, OnErr, OnOk, IsOk, map};
ghost use Rattle.pep508_errors.specs.Kinds.{Adds, Keeps};
ghost use Rattle.pep508_errors.specs.declared.warning.MarkerWarningKind.{MarkerWarningKind};

use crate::warning::MarkerWarningKind;
use log::{Log, warn};
use std::alloc::AllocError;

/// Takes the warnings of marker parsers, in order. A `Vec<(MarkerWarningKind, String)>` is one: it
/// gets the kind and the message of each warning.
///
/// ```
/// let mut warnings = Vec::new(rt.alloc());
/// let text = "'posix' == 'nt'";
/// let marker = MarkerTree::parse_reporter::<VerbatimUrl, _>(text, &mut warnings, interner)?;
/// ```
pub trait Reporter {
    /// The kinds of the warnings taken so far, or `None` if the reporter does not show them.
    ghost kinds: { Self → Option (List MarkerWarningKind) };

    /// The reporter can take a warning. That is always so, unless it passes warnings to a function
    /// with requirements of its own.
    ghost can_report: { Self → Type 0 } = { λ _. ⊤ };

    /// Takes a warning. If memory runs out, the warning is lost and earlier ones are kept.
    fn report(&mut self, kind: MarkerWarningKind, warning: String) -> Result<(), AllocError>
        requires { can_report self.old }
        ensures again { can_report self.new }

        ensures taken { OnOk result (Adds (kinds self.old) (kinds self.new) (kind ∷ [])) }
        ensures kept { OnErr result (Keeps (kinds self.old) (kinds self.new)) };
}

/// Appends the kind and the message of each warning, in order, and shows the kinds.
impl Reporter for Vec<(MarkerWarningKind, String)> {
    ghost kinds = { λ warnings. Some (map (λ warning. warning.0) warnings.items) };

    fn report(&mut self, kind: MarkerWarningKind, warning: String) -> Result<(), AllocError>
        ensures taken { OnOk result (self.new.items ≡ self.old.items ++ (kind, warning) ∷ []) }
        ensures kept { OnErr result (self.new.items ≡ self.old.items) }
    {
        self.push((kind, warning))?;
        Ok(())
    }
}

/// Passes each warning to a function, which returns whether there was memory for it. It shows no
/// kinds.
#[derive(Drop)]
pub struct ReportTo<F>(pub F);

impl<F: FnMut(MarkerWarningKind, String) -> Result<(), AllocError>> Reporter for ReportTo<F> {
    ghost kinds = { λ _. None };

    ghost can_report = { λ reporter. F.IsAlwaysCallable reporter.0 };

    fn report(&mut self, kind: MarkerWarningKind, warning: String) -> Result<(), AllocError>
        requires { F.IsAlwaysCallable self.old.0 }
        ensures again { F.IsAlwaysCallable self.new.0 }

        // The function is called once with the warning, and its result is returned.
        ensures told { F.step self.old.0 kind warning result self.new.0 }
    {
        (self.0)(kind, warning)
    }
}

/// Logs each warning through a `log` handle, at the level `Warn`. It shows no kinds and returns no
/// error.
#[derive(Drop)]
pub struct TracingReporter<L>(pub L);

impl<L: Log> Reporter for TracingReporter<L> {
    ghost kinds = { λ _. None };

    fn report(&mut self, _kind: MarkerWarningKind, warning: String) -> Result<(), AllocError>
        ensures { IsOk result }
    {
        warn!(self.0; "{warning}");
        Ok(())
    }
}
