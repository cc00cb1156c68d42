//! The end of a requirement: its marker as a tree.

ghost use Rattle.std.specs.Prelude.{◌++◌, IfErr, IfOk, Some};
ghost use Rattle.std.specs.Str.{chars};
ghost use Rattle.pep508_text.specs.Suffix.{IsSuffix};
ghost use Rattle.requirement_words.specs.Tail.{IsTail};
ghost use Rattle.pep508_markers.specs.Text.{IsRefusalIn, KeepsInterner};
ghost use Rattle.pep508_requirements.specs.Requirement.{IsTreeOfEnd};
ghost use Rattle.pep508_requirements.specs.Refused.{IsEndRefusal};

use crate::error::refusal_of_fault;
use marker_graph::{Interner, MarkerTree};
use pep508_errors::{MarkerWarningKind, Pep508Error, Pep508Url};
use pep508_markers::internal::read_behind;
use refusal::Refusal;
use requirement_words::read_tail;

// Parses the marker after the `;` of `rest`. Returns its tree and the kinds of its warnings.
fn read_marker<T: Pep508Url>(
    text: &str,
    rest: &str,
    marker: &str,
    interner: &mut Interner,
) -> Result<(MarkerTree, Vec<MarkerWarningKind>), Refusal<Pep508Error<T>>>
    requires suffix { IsSuffix text.now marker.now }
    requires tail { IsTail (chars rest.now) (Some (chars marker.now)) }
    ensures kept { KeepsInterner result interner.old interner.new }
    ensures means { IfOk result (λ r. IsTreeOfEnd interner.new (chars rest.now) r.0 r.1.items) }
    ensures refused { IfErr result (IsRefusalIn text.now marker.now) }
{
    match read_behind(text, marker, interner) {
        Ok((tree, kinds)) => Ok((tree, kinds)),
        Err(refusal) => Err(refusal),
    }
}

// Parses the end of a text. Returns the tree of its marker and the kinds of the marker's warnings;
// without a marker, `TRUE` and none. `url` is the URL before the end as it is written, or empty if
// there is none.
pub(crate) fn read_end<T: Pep508Url>(
    text: &str,
    url: &str,
    rest: &str,
    interner: &mut Interner,
) -> Result<(MarkerTree, Vec<MarkerWarningKind>), Refusal<Pep508Error<T>>>
    requires suffix { IsSuffix text.now rest.now }
    requires placed { IsSuffix text.now (url.now ++ rest.now) }
    ensures kept { KeepsInterner result interner.old interner.new }
    ensures means { IfOk result (λ r. IsTreeOfEnd interner.new (chars rest.now) r.0 r.1.items) }
    ensures refused { IfErr result (IsEndRefusal text.now url.now rest.now) }
{
    match read_tail(url, rest) {
        Ok(Some(marker)) => read_marker(text, rest, marker, interner),
        Ok(None) => Ok((MarkerTree::TRUE, Vec::new(interner.allocator()))),
        Err(fault) => Err(refusal_of_fault(interner.allocator(), text, fault)),
    }
}
