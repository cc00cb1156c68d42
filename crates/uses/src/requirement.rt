//! Requirements with a name and without one, and their JSON.

use anyhow::Result;
use pep508_rs::{Interner, Requirement, Surroundings, UnnamedRequirement, VerbatimUrl};

const TEXT: &str = "Flask_Login[Dev] >= 2.0, < 3 ; os_name == 'nt'";

// A requirement with a name.
fn read_named(
    rt: &HostRuntime,
    surroundings: &Surroundings<'_>,
    interner: &mut Interner,
) -> Result<()> {
    let requirement = Requirement::<VerbatimUrl>::parse(TEXT, surroundings, interner)?;
    let count = requirement.extras.len();
    println!(rt; "{} with {count} extra", requirement.name)?;
    Ok(())
}

// A requirement as JSON, and parsed from it.
fn write(rt: &HostRuntime, surroundings: &Surroundings<'_>, interner: &mut Interner) -> Result<()> {
    let requirement = Requirement::<VerbatimUrl>::parse(TEXT, surroundings, interner)?;
    let json = requirement.to_json(interner)?;
    println!(rt; "{json}")?;
    let again = Requirement::<VerbatimUrl>::from_json(&json, surroundings, interner)?;
    println!(rt; "the same: {}", again == requirement)?;
    Ok(())
}

// A requirement without a name.
fn read_unnamed(
    rt: &HostRuntime,
    surroundings: &Surroundings<'_>,
    interner: &mut Interner,
) -> Result<()> {
    let mut warnings = Vec::new(rt.alloc());
    let requirement = UnnamedRequirement::<VerbatimUrl>::parse(
        "./a.whl[dev] ; os_name == 'nt'",
        surroundings,
        &mut warnings,
        interner,
    )?;
    println!(rt; "{}", requirement.try_to_string(interner)?)?;
    Ok(())
}

// A URL that keeps the text that it was given as.
fn url(rt: &HostRuntime) -> Result<()> {
    let url = VerbatimUrl::parse(rt.alloc(), "https://Example.org/a b")?;
    let given = url.given().unwrap_or("no text");
    println!(rt; "{url}, given as {given}")?;
    Ok(())
}

pub fn run(
    rt: &HostRuntime,
    surroundings: &Surroundings<'_>,
    interner: &mut Interner,
) -> Result<()> {
    url(rt)?;
    read_named(rt, surroundings, interner)?;
    write(rt, surroundings, interner)?;
    read_unnamed(rt, surroundings, interner)
}
