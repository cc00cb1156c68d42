//! What a URL depends on besides its text.

use std::collections::BTreeMap;

/// What a URL's text may refer to: variables, and the folders that its paths start from.
#[derive(Clone, Copy, Debug)]
pub struct Surroundings<'a> {
    /// The values of variables, by their names, as `HOME` for `${HOME}`.
    pub vars: &'a BTreeMap<String, String>,
    /// The value of `${PROJECT_ROOT}`, unless `vars` has it.
    pub project_root: &'a str,
    /// The folder that a relative path starts from, if there is one.
    pub working_dir: Option<&'a str>,
}
