//! Reads requirements, one a line, and prints those that are needed on Linux with the extra `dev`.
#![tactic(auto)]

use anyhow::Result;
use pep508_rs::{
    ExtraName, Interner, MarkerEnvironment, MarkerEnvironmentBuilder, Requirement, Surroundings,
    VerbatimUrl,
};
use std::collections::BTreeMap;

const LINUX: MarkerEnvironmentBuilder<'static> = MarkerEnvironmentBuilder {
    implementation_name: "cpython",
    implementation_version: "3.12.1",
    os_name: "posix",
    platform_machine: "x86_64",
    platform_python_implementation: "CPython",
    platform_release: "6.1",
    platform_system: "Linux",
    platform_version: "#1",
    python_full_version: "3.12.1",
    python_version: "3.12",
    sys_platform: "linux",
};

// What markers are evaluated in, and what URLs may refer to.
#[derive(Drop)]
struct Setting<'a> {
    linux: &'a MarkerEnvironment,
    extras: &'a [ExtraName],
    surroundings: &'a Surroundings<'a>,
}

// Prints the requirement of a line if it is needed, and an error if the line is invalid.
fn answer(
    rt: &HostRuntime,
    line: &str,
    setting: &Setting<'_>,
    interner: &mut Interner,
) -> Result<()> {
    match Requirement::<VerbatimUrl>::parse(line, setting.surroundings, interner) {
        Ok(requirement) => {
            if requirement.evaluate_markers(interner, setting.linux, setting.extras) {
                println!(rt; "{}", requirement.try_to_string(interner)?)?;
            }
        }
        Err(refusal) => println!(rt; "{refusal}")?,
    }
    Ok(())
}

fn answer_lines(rt: &HostRuntime, setting: &Setting<'_>, interner: &mut Interner) -> Result<()> {
    for line in rt.lines(rt.alloc()) {
        answer(rt, &line?, setting, interner)?;
    }
    Ok(())
}

// The interner and its memory are given back at the end.
fn run(rt: &HostRuntime, linux: &MarkerEnvironment, extras: &[ExtraName]) -> Result<()> {
    let vars = BTreeMap::new(rt.alloc());
    let surroundings = Surroundings {
        vars: &vars,
        project_root: "/srv",
        working_dir: Some("/srv"),
    };
    let setting = Setting {
        linux,
        extras,
        surroundings: &surroundings,
    };
    let mut interner = Interner::new(rt.alloc());
    answer_lines(rt, &setting, &mut interner)
}

fn main(rt: HostRuntime) -> Result<()> {
    let dev = [ExtraName::parse(rt.alloc(), "dev")?];
    let linux = MarkerEnvironment::try_from(rt.alloc(), LINUX)?;
    run(&rt, &linux, &dev)
}
