//! A requirement is opened: its name, its extras, its specifiers or its URL, and its marker.

use anyhow::Result;
use pep508_rs::pep440_rs::VersionSpecifiers;
use pep508_rs::{ExtraName, Interner, Requirement, Surroundings, VerbatimUrl, VersionOrUrl};

const WITH_SPECIFIERS: &str = "Requests[Security,tests] >= 2.8.1, == 2.* ; os_name == 'nt'";

const WITH_URL: &str = "pip @ https://Example.org/pip 23.zip";

// The extras, in their normal form.
fn show_extras(rt: &HostRuntime, extras: &[ExtraName]) -> Result<()> {
    for extra in extras {
        println!(rt; "  extra {extra}")?;
    }
    Ok(())
}

// The specifiers, sorted by their versions.
fn show_specifiers(rt: &HostRuntime, specifiers: &VersionSpecifiers) -> Result<()> {
    for specifier in specifiers.as_slice() {
        let (operator, version) = (specifier.operator(), specifier.version());
        println!(rt; "  operator {operator}, version {version}")?;
    }
    Ok(())
}

// A URL in its normal form, and as it was written.
fn show_url(rt: &HostRuntime, url: &VerbatimUrl) -> Result<()> {
    println!(rt; "  URL {url}, written {}", url.given().unwrap_or("nowhere"))?;
    Ok(())
}

fn show_parts(rt: &HostRuntime, requirement: &Requirement<VerbatimUrl>) -> Result<()> {
    println!(rt; "name {}", requirement.name)?;
    show_extras(rt, &requirement.extras)?;
    match &requirement.version_or_url {
        Some(VersionOrUrl::VersionSpecifier(specifiers)) => show_specifiers(rt, specifiers),
        Some(VersionOrUrl::Url(url)) => show_url(rt, url),
        None => Ok(println!(rt; "  any version")?),
    }
}

fn open(
    rt: &HostRuntime,
    text: &str,
    surroundings: &Surroundings<'_>,
    interner: &mut Interner,
) -> Result<()> {
    let requirement = Requirement::<VerbatimUrl>::parse(text, surroundings, interner)?;
    show_parts(rt, &requirement)?;
    println!(rt; "  marker for everyone: {}", requirement.marker.is_true())?;
    Ok(())
}

pub fn run(
    rt: &HostRuntime,
    surroundings: &Surroundings<'_>,
    interner: &mut Interner,
) -> Result<()> {
    open(rt, WITH_SPECIFIERS, surroundings, interner)?;
    open(rt, WITH_URL, surroundings, interner)?;
    open(rt, "flask", surroundings, interner)
}
