//! A first use: a requirement is parsed, evaluated and printed; and the error of an invalid one.

use crate::evaluate::LINUX;
use anyhow::Result;
use pep508_rs::{ExtraName, Interner, MarkerEnvironment, Requirement, Surroundings, VerbatimUrl};

// Prints whether a requirement applies, and its text.
fn show(
    rt: &HostRuntime,
    text: &str,
    linux: &MarkerEnvironment,
    surroundings: &Surroundings<'_>,
    interner: &mut Interner,
) -> Result<()> {
    let dev = [ExtraName::parse(rt.alloc(), "dev")?];
    let requirement = Requirement::<VerbatimUrl>::parse(text, surroundings, interner)?;
    let with_dev = requirement.evaluate_markers(interner, linux, &dev);
    let without = requirement.evaluate_markers(interner, linux, &[]);
    println!(rt; "required with dev: {with_dev}, without: {without}")?;
    println!(rt; "{}", requirement.try_to_string(interner)?)?;
    Ok(())
}

// Prints the error of an invalid requirement.
fn show_fault(
    rt: &HostRuntime,
    text: &str,
    surroundings: &Surroundings<'_>,
    interner: &mut Interner,
) -> Result<()> {
    if let Err(refusal) = Requirement::<VerbatimUrl>::parse(text, surroundings, interner) {
        println!(rt; "{refusal}")?;
    }
    Ok(())
}

const TEXT: &str = "requests[security,tests] >= 2.8.1 ; python_version >= '3.8' and extra == 'dev'";

const NO_REQUIREMENT: &str = "requests >= 2.8.1 ; python_version is '3.8'";

pub fn run(
    rt: &HostRuntime,
    surroundings: &Surroundings<'_>,
    interner: &mut Interner,
) -> Result<()> {
    let linux = MarkerEnvironment::try_from(rt.alloc(), LINUX)?;
    show(rt, TEXT, &linux, surroundings, interner)?;
    show_fault(rt, NO_REQUIREMENT, surroundings, interner)
}
