//! Requirements whose URLs are of the type `Url`, which keeps no text.

use anyhow::Result;
use pep508_rs::{Interner, Requirement, Surroundings, Url, VersionOrUrl};

const TEXT: &str = "pip @ https://example.org:8080/pip.zip";

pub fn run(
    rt: &HostRuntime,
    surroundings: &Surroundings<'_>,
    interner: &mut Interner,
) -> Result<()> {
    let requirement = Requirement::<Url>::parse(TEXT, surroundings, interner)?;
    if let Some(VersionOrUrl::Url(url)) = &requirement.version_or_url {
        println!(rt; "{}: path {}", url.scheme(), url.path())?;
    }
    Ok(())
}
