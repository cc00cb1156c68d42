//! Versions, specifiers, and the versions that these stand for.

use anyhow::Result;
use pep508_rs::pep440_rs::{VersionSpecifiers, release_specifier_to_range};
use pep508_rs::{PackageName, Version, VersionSpecifier};

// Versions and a name, which have a normal form.
fn normal(rt: &HostRuntime) -> Result<()> {
    let alloc = rt.alloc();
    let version = Version::parse(alloc, "v1.0-Beta.2")?;
    let release = Version::parse(alloc, "1.0")?;
    println!(rt; "{version} before {release}: {}", version < release)?;

    let name = PackageName::parse(alloc, "Flask_Login")?;
    println!(rt; "{name}")?;
    Ok(())
}

// Specifiers as a set, in the order of their versions.
fn specifiers(rt: &HostRuntime) -> Result<()> {
    let alloc = rt.alloc();
    let below = VersionSpecifier::parse(alloc, "< 3")?;
    let from = VersionSpecifier::parse(alloc, ">= 2.8")?;
    let specifiers = VersionSpecifiers::from_list(vec![in alloc; below, from]?)?;
    println!(rt; "{specifiers}")?;
    Ok(())
}

// Whether a version is one of those that a specifier stands for.
fn contains(rt: &HostRuntime) -> Result<()> {
    let alloc = rt.alloc();
    let specifier = VersionSpecifier::parse(alloc, "~= 2.8")?;
    let versions = release_specifier_to_range(alloc, &specifier)?;
    let version = Version::parse(alloc, "2.31.0")?;
    let found = versions.contains(&version);
    println!(rt; "{specifier} has {version}: {found}")?;
    Ok(())
}

pub fn run(rt: &HostRuntime) -> Result<()> {
    normal(rt)?;
    specifiers(rt)?;
    contains(rt)
}
