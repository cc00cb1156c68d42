//! A rewriter that answers normal texts.

ghost use Rattle.std.specs.Prelude.{◌≡◌};
ghost use Rattle.formatting_commands.specs.Formatting.{IsAnswer};

use crate::Rewriter;
use crate::formatting::FormatSettings;
use crate::normal::normal_text;
use marker_graph::Interner;
use pep508_errors::Surroundings;
use requirement_lines::is_break;
use std::alloc::{AllocError, Global};
use std::collections::BTreeMap;

/// Replaces each byte of a file that is not UTF-8 in its text: U+001A, the substitute.
pub const SUBSTITUTE: char = '\u{1a}';

/// Answers the normal texts of the requirements of a file.
#[derive(Clone, Copy)]
pub struct Formatter<'s> {
    /// The text of the file.
    pub file: &'s str,
    pub settings: FormatSettings<'s>,
}

impl Formatter<'_> {
    // Whether a byte of the physical line around this byte is not UTF-8.
    fn is_spoiled(&self, at: usize) -> bool {
        let (front, back) = self.file.split_at_checked(at).unwrap_or((self.file, ""));
        let before = match front.rsplit_once(|c: char| is_break(c)) {
            Some((_, line)) => line,
            None => front,
        };
        let after = match back.split_once(|c: char| is_break(c)) {
            Some((line, _)) => line,
            None => back,
        };
        before.contains(SUBSTITUTE) || after.contains(SUBSTITUTE)
    }
}

impl Rewriter for Formatter<'_> {
    ghost answers = { IsAnswer };

    fn rewrite(
        &mut self,
        alloc: Global,
        requirement: &str,
        start: usize,
    ) -> Result<Option<String>, AllocError> {
        if self.is_spoiled(start) {
            return Ok(None);
        }
        let settings = self.settings;
        let none = BTreeMap::new(alloc);
        let surroundings = Surroundings {
            vars: &none,
            project_root: settings.folder,
            working_dir: Some(settings.folder),
        };
        let mut interner = Interner::with_key_and_room(alloc, settings.key, settings.room);
        normal_text(requirement, &surroundings, &mut interner)
    }
}
