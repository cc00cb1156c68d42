//! Paths become URLs, and URLs of files become paths.

use anyhow::Result;
use pep508_rs::VerbatimUrl;

pub fn run(rt: &HostRuntime) -> Result<()> {
    let alloc = rt.alloc();
    let url = VerbatimUrl::from_path(alloc, "../wheels/a b.whl", "/srv/app")?;
    println!(rt; "{url}")?;
    println!(rt; "{}", url.as_path(alloc)?)?;
    Ok(())
}
