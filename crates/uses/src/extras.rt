//! A requirement of an optional group is one with an extra in its marker.

use anyhow::Result;
use pep508_rs::{ExtraName, Interner, Requirement, Surroundings, VerbatimUrl};

pub fn run(
    rt: &HostRuntime,
    surroundings: &Surroundings<'_>,
    interner: &mut Interner,
) -> Result<()> {
    let tests = ExtraName::parse(rt.alloc(), "tests")?;
    let text = "pytest ; python_version >= '3.8'";
    let mut requirement = Requirement::<VerbatimUrl>::parse(text, surroundings, interner)?;
    requirement.with_extra_marker(interner, &tests)?;
    println!(rt; "{}", requirement.try_to_string(interner)?)?;
    Ok(())
}
