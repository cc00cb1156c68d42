//! URLs that keep the text that they were parsed from.

ghost use Rattle.std.specs.Prelude.{◌≡◌, ◌≢◌, IfErr, IfOk, None, Ok, Some, option_copied, string_bytes};
ghost use Rattle.refusal.specs.Refused.{FaultIs};
ghost use Rattle.refusal.specs.declared.Refusal.TheVariants.{SegmentAtEnd};
ghost use Rattle.url.specs.Parser.{parse_url};
ghost use Rattle.url.specs.Parts.{serialize};
ghost use Rattle.pep508_urls.specs.Fault as spec;
ghost use Rattle.pep508_urls.specs.Verbatim.{given_as};

mod order;
mod paths;
mod reading;

use crate::error::VerbatimUrlError;
use refusal::Refusal;
use std::alloc::{AllocError, Global};
use std::fmt;
use std::marker::Model;
use url::{ParseError, Url};

/// A URL, with the text that it was parsed from if it is known.
///
/// Comparison, order, hash and text are those of the URL alone.
///
/// ```
/// let url = VerbatimUrl::parse(rt.alloc(), "https://Example.org/a b")?;
/// let given = url.given().unwrap_or("no text");
/// println!(rt; "{url}, given as {given}")?;
/// ```
#[derive(Debug, Drop)]
pub struct VerbatimUrl {
    url: Url,
    given: Option<String>,
}

impl Model for VerbatimUrl {
    ghost use Rattle.std.specs.Prelude.{option_map, string_bytes};
    ghost use Rattle.pep508_urls.specs.Verbatim.{Verbatim, verbatim_code};

    ghost Value = { Verbatim };

    ghost coded = { verbatim_code };

    ghost view = { λ v. record { url = v.url; given = option_map string_bytes v.given } };
}

impl VerbatimUrl {
    /// Returns the URL, without a given text.
    pub fn from_url(url: Url) -> VerbatimUrl
        ensures url { result.url ≡ url }
        ensures given { result.given ≡ None }
    {
        VerbatimUrl { url, given: None }
    }

    /// Parses a URL by the URL Standard, without expanding variables, and does not keep the text.
    ///
    /// # Errors
    /// - [`VerbatimUrlError::Url`] if the text is an invalid URL, or its URL is too large.
    pub fn parse_url(alloc: Global, given: &str) -> Result<VerbatimUrl, Refusal<VerbatimUrlError>>
        ensures value { IfOk result (λ url. parse_url None given.now ≡ Ok url.url) }
        ensures given { IfOk result (λ url. url.given ≡ None) }
        ensures fault { FaultIs result (spec.IsParseFault given.now) }
        ensures no_end { IfErr result (λ refusal. refusal ≢ SegmentAtEnd) }
    {
        match Url::parse(alloc, given) {
            Ok(url) => Ok(VerbatimUrl::from_url(url)),
            Err(ParseError::OutOfMemory) => Err(Refusal::OutOfMemory),
            Err(fault) => Err(Refusal::Fault(VerbatimUrlError::Url(fault))),
        }
    }

    /// Parses a URL by the URL Standard, without expanding variables, and keeps a copy of the text.
    ///
    /// # Errors
    /// - [`VerbatimUrlError::Url`] if the text is an invalid URL, or its URL is too large.
    pub fn parse(alloc: Global, given: &str) -> Result<VerbatimUrl, Refusal<VerbatimUrlError>>
        ensures value { IfOk result (λ url. parse_url None given.now ≡ Ok url.url) }
        ensures given { IfOk result (λ url. url.given ≡ Some given.now) }
        ensures fault { FaultIs result (spec.IsParseFault given.now) }
        ensures no_end { IfErr result (λ refusal. refusal ≢ SegmentAtEnd) }
    {
        let url = VerbatimUrl::parse_url(alloc, given)?;
        Ok(url.with_given(String::from_str(alloc, given)?))
    }

    /// Returns the URL, given as this text. It prints, compares and hashes as before.
    pub fn with_given(self, given: String) -> VerbatimUrl
        ensures value { result ≡ given_as self (string_bytes given) }
        ensures given { result.given ≡ Some (string_bytes given) }
        ensures url { result.url ≡ self.url }
    {
        let VerbatimUrl { url, given: _ } = self;
        VerbatimUrl {
            url,
            given: Some(given),
        }
    }

    /// Returns the given text, if it is known.
    pub fn given(&self) -> Option<&str>
        ensures { option_copied result ≡ self.now.given }
    {
        match &self.given {
            Some(given) => Some(given.as_str()),
            None => None,
        }
    }

    /// Returns the URL.
    pub fn raw(&self) -> &Url
        ensures { result.now ≡ self.now.url }
    {
        &self.url
    }

    /// Returns a clone of the URL.
    pub fn to_url(&self, _alloc: Global) -> Result<Url, AllocError>
        ensures { IfOk result (λ url. url ≡ self.now.url) }
    {
        // A URL has its own allocator: the parameter shows that this call allocates.
        self.url.clone()
    }

    /// Returns the URL, without the given text.
    pub fn into_url(self) -> Url
        ensures { result ≡ self.url }
    {
        let VerbatimUrl { url, given: _ } = self;
        url
    }
}

impl Clone for VerbatimUrl {
    ghost is_clone = { λ url copy. copy ≡ url };

    fn clone(&self) -> Result<VerbatimUrl, AllocError> {
        Ok(VerbatimUrl {
            url: self.url.clone()?,
            given: self.given.clone()?,
        })
    }
}

impl fmt::Display for VerbatimUrl {
    ghost output = { λ v. Some (serialize v.url) };

    fn fmt<W: fmt::Write>(&self, f: &mut fmt::Formatter<W>) -> fmt::Result {
        fmt::Display::fmt(&self.url, f)
    }
}
