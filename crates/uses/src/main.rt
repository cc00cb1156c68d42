//! How the library is used, a module for each theme.
#![tactic(auto)]

mod compare;
mod diagram;
mod errors;
mod evaluate;
mod extras;
mod first;
mod open;
mod parse;
mod paths;
mod plain_url;
mod print;
mod project;
mod requirement;
mod simplify;
mod versions;

use anyhow::Result;
use pep508_rs::{ExtraName, Interner, MarkerEnvironment, Surroundings};
use std::collections::BTreeMap;

// Requirements, whose markers are all in one interner.
fn with_requirements(
    rt: &HostRuntime,
    surroundings: &Surroundings<'_>,
    interner: &mut Interner,
) -> Result<()> {
    first::run(rt, surroundings, interner)?;
    requirement::run(rt, surroundings, interner)?;
    open::run(rt, surroundings, interner)?;
    errors::run(rt, surroundings, interner)?;
    extras::run(rt, surroundings, interner)?;
    plain_url::run(rt, surroundings, interner)
}

fn with_project(rt: &HostRuntime, surroundings: &Surroundings<'_>) -> Result<()> {
    let dev = [ExtraName::parse(rt.alloc(), "dev")?];
    let linux = MarkerEnvironment::try_from(rt.alloc(), evaluate::LINUX)?;
    project::run(rt, &linux, &dev, surroundings)
}

fn with_surroundings(rt: &HostRuntime, vars: &BTreeMap<String, String>) -> Result<()> {
    let surroundings = Surroundings {
        vars,
        project_root: "/srv",
        working_dir: Some("/srv"),
    };
    let mut interner = Interner::new(rt.alloc());
    with_requirements(rt, &surroundings, &mut interner)?;
    with_project(rt, &surroundings)
}

fn main(rt: HostRuntime) -> Result<()> {
    parse::run(&rt)?;
    evaluate::run(&rt)?;
    compare::run(&rt)?;
    simplify::run(&rt)?;
    print::run(&rt)?;
    diagram::run(&rt)?;
    versions::run(&rt)?;
    paths::run(&rt)?;
    let vars = BTreeMap::new(rt.alloc());
    with_surroundings(&rt, &vars)
}
