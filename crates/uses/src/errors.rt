//! What is wrong with a text is one of three kinds, and has a place.

use anyhow::Result;
use pep508_rs::{
    Interner, Pep508Error, Pep508ErrorSource, Refusal, Requirement, Surroundings, VerbatimUrl,
};

// The kind of an error, and the part of the text that it is about.
fn show_error(rt: &HostRuntime, error: &Pep508Error<VerbatimUrl>) -> Result<()> {
    match &error.message {
        Pep508ErrorSource::String(message) => println!(rt; "invalid: {message}")?,
        Pep508ErrorSource::UrlError(fault) => println!(rt; "URL rejected: {fault}")?,
        Pep508ErrorSource::UnsupportedRequirement(message) => println!(rt; "no name: {message}")?,
    }
    println!(rt;
        "  {} bytes from byte {} of {}",
        error.len, error.start, error.input
    )?;
    Ok(())
}

fn show(
    rt: &HostRuntime,
    text: &str,
    surroundings: &Surroundings<'_>,
    interner: &mut Interner,
) -> Result<()> {
    match Requirement::<VerbatimUrl>::parse(text, surroundings, interner) {
        Ok(requirement) => Ok(println!(rt; "valid: {}", requirement.name)?),
        Err(Refusal::Fault(error)) => show_error(rt, &error),
        // Memory ran out, or a version number is too large to count up.
        Err(refusal) => Err(refusal.into()),
    }
}

pub fn run(
    rt: &HostRuntime,
    surroundings: &Surroundings<'_>,
    interner: &mut Interner,
) -> Result<()> {
    show(rt, "requests = 2.8.1", surroundings, interner)?;
    show(
        rt,
        "requests @ https://exa mple.org",
        surroundings,
        interner,
    )?;
    show(rt, "./requests.whl", surroundings, interner)
}
