//! How requirements are parsed for other languages.

ghost use Rattle.std.specs.Prelude.{IfErr, IfOk};
ghost use Rattle.marker_graph.specs.Contents.{IsHeld};
ghost use Rattle.foreign_calls.specs.Reading.{IsReadFrom, IsRefused, IsRequirementRefusal};

use crate::Answer;
use crate::marker::answer_to;
use crate::options::folder_or_none;
use marker_graph::Interner;
use pep508_errors::{Pep508Error, Surroundings};
use pep508_requirements::Requirement;
use pep508_urls::VerbatimUrl;
use refusal::Refusal;
use std::collections::BTreeMap;

/// Parses a requirement. No variable is known, and relative paths start from the folder, if that is
/// not empty.
pub(crate) fn parse(
    text: &str,
    folder: &str,
    interner: &mut Interner,
) -> Result<Requirement<VerbatimUrl>, Refusal<Pep508Error<VerbatimUrl>>>
    ensures held { IfOk result (λ r. IsHeld interner.new r.marker) }
    ensures read { IfOk result (IsReadFrom interner.new folder.now text.now) }
    ensures refused { IfErr result (IsRefused folder.now text.now) }
{
    let vars = BTreeMap::new(interner.allocator());
    let surroundings = Surroundings {
        vars: &vars,
        project_root: folder,
        working_dir: folder_or_none(folder),
    };
    Requirement::parse(text, &surroundings, interner)
}

/// Parses a requirement as [`parse`] does, with the answer to a text that is refused.
pub(crate) fn parse_or_answer(
    text: &str,
    folder: &str,
    interner: &mut Interner,
) -> Result<Requirement<VerbatimUrl>, Answer>
    ensures held { IfOk result (λ r. IsHeld interner.new r.marker) }
    ensures read { IfOk result (IsReadFrom interner.new folder.now text.now) }
    ensures refused { IfErr result (IsRequirementRefusal folder.now text.now) }
{
    match parse(text, folder, interner) {
        Ok(requirement) => Ok(requirement),
        Err(refusal) => Err(answer_to(interner, &refusal)),
    }
}
