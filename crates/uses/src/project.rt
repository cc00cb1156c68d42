//! A type of one's own: a project that owns its requirements, and one interner for all of them.

use anyhow::Result;
use pep508_rs::{
    ExtraName, Interner, MarkerEnvironment, PackageName, Requirement, Surroundings, VerbatimUrl,
};
use std::alloc::Global;

// What a project requires. Dropping it gives back the memory of all markers.
#[derive(Drop)]
pub struct Project {
    name: PackageName,
    requirements: Vec<Requirement<VerbatimUrl>>,
    interner: Interner,
}

impl Project {
    pub fn new(alloc: Global, name: PackageName) -> Project {
        Project {
            name,
            requirements: Vec::new(alloc),
            interner: Interner::new(alloc),
        }
    }

    pub fn require(&mut self, text: &str, surroundings: &Surroundings<'_>) -> Result<()> {
        let requirement = Requirement::parse(text, surroundings, &mut self.interner)?;
        self.requirements.push(requirement)?;
        Ok(())
    }

    // Prints the names of what is required in the environment.
    pub fn show(
        &self,
        rt: &HostRuntime,
        environment: &MarkerEnvironment,
        extras: &[ExtraName],
    ) -> Result<()> {
        println!(rt; "{} requires", self.name)?;
        for requirement in &self.requirements {
            // The interner has the marker, since it parsed it. The proof only sees this test.
            if self.interner.holds(&requirement.marker)
                && requirement.evaluate_markers(&self.interner, environment, extras)
            {
                println!(rt; "  {}", requirement.name)?;
            }
        }
        Ok(())
    }
}

fn fill(project: &mut Project, surroundings: &Surroundings<'_>) -> Result<()> {
    project.require("click >= 8", surroundings)?;
    project.require("colorama ; sys_platform == 'win32'", surroundings)?;
    project.require("pytest ; extra == 'dev'", surroundings)
}

fn fill_and_show(
    rt: &HostRuntime,
    project: &mut Project,
    linux: &MarkerEnvironment,
    dev: &[ExtraName],
    surroundings: &Surroundings<'_>,
) -> Result<()> {
    fill(project, surroundings)?;
    project.show(rt, linux, dev)
}

pub fn run(
    rt: &HostRuntime,
    linux: &MarkerEnvironment,
    dev: &[ExtraName],
    surroundings: &Surroundings<'_>,
) -> Result<()> {
    let name = PackageName::parse(rt.alloc(), "Flask")?;
    let mut project = Project::new(rt.alloc(), name);
    fill_and_show(rt, &mut project, linux, dev, surroundings)
}
