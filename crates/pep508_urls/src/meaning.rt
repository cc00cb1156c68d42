//! What a text denotes after its variables are expanded: a URL or a path.

ghost use Rattle.std.specs.Prelude.{IfOk};
ghost use Rattle.pep508_urls.specs.Meaning.{meaning_of, StandsFor};

use crate::path::normalize_url_path;
use crate::scheme::{Scheme, split_scheme, strip_host};
use std::alloc::{AllocError, Global};
use std::borrow::CowStr;

/// A URL as it is written, or a path.
#[derive(Drop)]
pub enum Target<'a> {
    /// A URL with a scheme that is not `file`.
    Url(&'a str),
    /// The path of a `file` URL, or a text without a known scheme.
    Path(CowStr<'a>),
}

impl<'a> Target<'a> {
    /// Returns whether a text without variables is a URL or a path, with the path.
    pub fn of(alloc: Global, text: &'a str) -> Result<Target<'a>, AllocError>
        ensures { IfOk result (λ target. StandsFor text.now (meaning_of target)) }
    {
        let Some((scheme, rest)) = split_scheme(text) else {
            return Ok(Target::Path(CowStr::Borrowed(text)));
        };
        match Scheme::parse(scheme) {
            Some(scheme) if scheme.is_file() => {
                Ok(Target::Path(normalize_url_path(alloc, strip_host(rest))?))
            }
            Some(_) => Ok(Target::Url(text)),
            None => Ok(Target::Path(CowStr::Borrowed(text))),
        }
    }
}
