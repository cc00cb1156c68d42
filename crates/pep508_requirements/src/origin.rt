//! Origins of requirements.

ghost use Rattle.std.specs.Prelude.{◌≡◌};
ghost use Rattle.pep508_requirements.specs.Origin.{path_of};

use pep508_names::PackageName;
use serde::{Deserialize, Serialize};

/// Where a requirement comes from. In JSON the variants are in kebab-case.
#[derive(Clone, Debug, PartialEq, Eq, PartialOrd, Ord, Hash, Serialize, Deserialize, Drop)]
#[serde(rename_all = "kebab-case")]
pub enum RequirementOrigin {
    /// A requirements file, by its path.
    File(String),
    /// A project, by the path of its file and its name.
    Project(String, PackageName),
    /// A workspace.
    Workspace,
}

impl RequirementOrigin {
    /// Returns the path of the file that the requirement comes from, or `(workspace)`.
    pub fn path(&self) -> &str
        ensures { result.now ≡ path_of self.now }
    {
        match self {
            RequirementOrigin::File(path) => path.as_str(),
            RequirementOrigin::Project(path, _) => path.as_str(),
            RequirementOrigin::Workspace => "(workspace)",
        }
    }
}
