//! Markers are evaluated, in an environment and without one.

use anyhow::Result;
use pep508_rs::{
    ExtraName, Interner, MarkerEnvironment, MarkerEnvironmentBuilder, MarkerText, MarkerTree,
    VerbatimUrl,
};

pub const LINUX: MarkerEnvironmentBuilder<'static> = MarkerEnvironmentBuilder {
    implementation_name: "cpython",
    implementation_version: "3.12.1",
    os_name: "posix",
    platform_machine: "x86_64",
    platform_python_implementation: "CPython",
    platform_release: "6.1",
    platform_system: "Linux",
    platform_version: "#1",
    python_full_version: "3.12.1",
    python_version: "3.12",
    sys_platform: "linux",
};

const TEXT: &str = "sys_platform == 'linux' and extra == 'dev'";

// A marker in an environment.
fn in_environment(
    rt: &HostRuntime,
    environment: &MarkerEnvironment,
    dev: &[ExtraName],
    interner: &mut Interner,
) -> Result<()> {
    let marker = MarkerTree::parse_str::<VerbatimUrl>(TEXT, interner)?;
    let with_dev = marker.evaluate(interner, environment, dev);
    let without = marker.evaluate(interner, environment, &[]);
    let platform = environment.sys_platform();
    println!(rt; "on {platform} with dev: {with_dev}, without: {without}")?;
    Ok(())
}

// The marker in two environments; the second is the first with another value.
fn in_environments(rt: &HostRuntime, dev: &[ExtraName], interner: &mut Interner) -> Result<()> {
    let alloc = rt.alloc();
    let win32 = String::from_str(alloc, "win32")?;
    let linux = MarkerEnvironment::try_from(alloc, LINUX)?;
    in_environment(rt, &linux, dev, interner)?;
    let windows = linux.with_sys_platform(win32);
    in_environment(rt, &windows, dev, interner)
}

// The marker without an environment: whether there is one in which it is true.
fn somewhere(rt: &HostRuntime, dev: &[ExtraName], interner: &mut Interner) -> Result<()> {
    let marker = MarkerTree::parse_str::<VerbatimUrl>(TEXT, interner)?;
    let with_dev = marker.evaluate_extras(interner, dev);
    let without = marker.evaluate_extras(interner, &[]);
    println!(rt; "somewhere with dev: {with_dev}, without: {without}")?;
    Ok(())
}

pub fn run(rt: &HostRuntime) -> Result<()> {
    let alloc = rt.alloc();
    let dev = [ExtraName::parse(alloc, "dev")?];
    let mut interner = Interner::new(alloc);
    in_environments(rt, &dev, &mut interner)?;
    somewhere(rt, &dev, &mut interner)
}
