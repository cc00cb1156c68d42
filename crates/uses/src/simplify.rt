//! Markers are simplified by what is known.

use anyhow::Result;
use pep508_rs::{ExtraName, Interner, MarkerText, MarkerTree, VerbatimUrl, Version};
use std::ops::Bound;

const TEXT: &str = "python_version >= '3.8' and extra == 'dev' and os_name == 'nt'";

// What is left of a marker from a version of Python on.
fn from_version(rt: &HostRuntime, version: &Version, interner: &mut Interner) -> Result<()> {
    let marker = MarkerTree::parse_str::<VerbatimUrl>(TEXT, interner)?;
    let (lower, upper) = (Bound::Included(version), Bound::Unbounded);
    let left = marker.simplify_python_versions(interner, lower, upper)?;
    println!(rt; "from {version} on: {}", left.view(interner))?;
    Ok(())
}

// What is left of it with an extra.
fn with_extra(rt: &HostRuntime, interner: &mut Interner) -> Result<()> {
    let dev = [ExtraName::parse(rt.alloc(), "dev")?];
    let marker = MarkerTree::parse_str::<VerbatimUrl>(TEXT, interner)?;
    let left = marker.simplify_extras(interner, &dev)?;
    println!(rt; "with dev: {}", left.view(interner))?;
    Ok(())
}

pub fn run(rt: &HostRuntime) -> Result<()> {
    let alloc = rt.alloc();
    let version = Version::parse(alloc, "3.9")?;
    let mut interner = Interner::new(alloc);
    from_version(rt, &version, &mut interner)?;
    with_extra(rt, &mut interner)
}
