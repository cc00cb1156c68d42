//! The URLs of paths, and the paths of URLs.

ghost use Rattle.std.specs.Prelude.{◌≡◌, ◌≢◌, IfErr, IfOk, List, None, Ok, Some, option_copied, string_bytes, ℕ};
ghost use Rattle.refusal.specs.Refused.{FaultIs};
ghost use Rattle.refusal.specs.declared.Refusal.TheVariants.{SegmentAtEnd};
ghost use Rattle.url.specs.Input.{split_once};
ghost use Rattle.url.specs.Parser.{Gives, parse_url};
ghost use Rattle.url.specs.Parts.{serialize};
ghost use Rattle.pep508_errors.specs.Url.{HasNone};
ghost use Rattle.pep508_urls.specs.Fault as spec;
ghost use Rattle.pep508_urls.specs.Path.{file_text};
ghost use Rattle.pep508_urls.specs.PathUrl.{IsPathOf, IsPathUrl, path_url, with_fragment};

use crate::error::{VerbatimUrlError, fault_with};
use crate::path::{file_text, is_absolute, normalize_absolute_path};
use crate::verbatim_url::VerbatimUrl;
use percent_encoding::{DecodeError, percent_decode_str};
use refusal::Refusal;
use std::alloc::Global;
use url::{ParseError, ParseResult, Url};

impl VerbatimUrl {
    /// Returns the `file` URL of a path, without a given text. A relative path starts from the
    /// folder `base`, which must be absolute even if the path is.
    ///
    /// # Errors
    /// - [`VerbatimUrlError::WorkingDirectory`] with the base if that is not absolute.
    /// - [`VerbatimUrlError::Normalization`] with the path after its base if a `..` leaves the
    ///   root.
    /// - [`VerbatimUrlError::UrlConversion`] with that path, or [`VerbatimUrlError::Url`], if the
    ///   URL is too large.
    pub fn from_path(
        alloc: Global,
        path: &str,
        base: &str,
    ) -> Result<VerbatimUrl, Refusal<VerbatimUrlError>>
        ensures value { IfOk result (λ url. IsPathUrl (Some base.now) path.now url.url) }
        ensures given { IfOk result (λ url. url.given ≡ None) }
        ensures fault { FaultIs result (spec.IsPathFault (Some base.now) path.now) }
        ensures no_end { IfErr result (λ refusal. refusal ≢ SegmentAtEnd) }
    {
        if !is_absolute(base) {
            let fault = fault_with(alloc, VerbatimUrlError::WorkingDirectory, base)?;
            return Err(Refusal::Fault(fault));
        }
        if is_absolute(path) {
            return from_whole_path(alloc, path);
        }
        let mut whole = String::from_str(alloc, base)?;
        whole.push('/')?;
        whole.push_str(path)?;
        from_whole_path(alloc, whole.as_str())
    }

    /// Returns the `file` URL of an absolute path, without a given text.
    ///
    /// # Errors
    /// - [`VerbatimUrlError::WorkingDirectory`] with the path if that is not absolute.
    /// - The other errors of [`VerbatimUrl::from_path`].
    pub fn from_absolute_path(
        alloc: Global,
        path: &str,
    ) -> Result<VerbatimUrl, Refusal<VerbatimUrlError>>
        ensures value { IfOk result (λ url. IsPathUrl None path.now url.url) }
        ensures given { IfOk result (λ url. url.given ≡ None) }
        ensures fault { FaultIs result (spec.IsPathFault None path.now) }
        ensures no_end { IfErr result (λ refusal. refusal ≢ SegmentAtEnd) }
    {
        if !is_absolute(path) {
            let fault = fault_with(alloc, VerbatimUrlError::WorkingDirectory, path)?;
            return Err(Refusal::Fault(fault));
        }
        from_whole_path(alloc, path)
    }

    /// Returns the path of a `file` URL without a host, with its percent-escapes decoded.
    ///
    /// # Errors
    /// - [`VerbatimUrlError::UrlConversion`] with the URL's text for any other URL, and if the
    ///   escapes do not decode to UTF-8.
    pub fn as_path(&self, alloc: Global) -> Result<String, Refusal<VerbatimUrlError>>
        ensures value { IfOk result (λ path. IsPathOf self.now.url (string_bytes path)) }
        ensures none { FaultIs result (λ _. HasNone (IsPathOf self.now.url)) }
        ensures fault { FaultIs result (spec.IsConversion (serialize self.now.url)) }
        ensures no_end { IfErr result (λ refusal. refusal ≢ SegmentAtEnd) }
    {
        if self.url.scheme() == "file" && !self.url.has_host() {
            match percent_decode_str(self.url.path()).decode_utf8(alloc) {
                Ok(path) => return Ok(path.into_owned(alloc)?),
                Err(DecodeError::OutOfMemory) => return Err(Refusal::OutOfMemory),
                Err(DecodeError::Utf8(_)) => {}
            }
        }
        let fault = fault_with(alloc, VerbatimUrlError::UrlConversion, self.url.as_str())?;
        Err(Refusal::Fault(fault))
    }
}

// The URL of a path that begins with a slash.
fn from_whole_path(alloc: Global, path: &str) -> Result<VerbatimUrl, Refusal<VerbatimUrlError>>
    ensures value { IfOk result (λ url. path_url path.now ≡ Some (Ok url.url)) }
    ensures given { IfOk result (λ url. url.given ≡ None) }
    ensures fault { FaultIs result (spec.IsWholePathFault path.now) }
    ensures no_end { IfErr result (λ refusal. refusal ≢ SegmentAtEnd) }
{
    let normal = normalize_absolute_path(alloc, path)?;
    let (before, fragment) = split_fragment(normal.as_str());
    let url = match file_url(alloc, before) {
        Ok(url) => url,
        Err(ParseError::OutOfMemory) => return Err(Refusal::OutOfMemory),
        Err(_) => {
            let fault = fault_with(alloc, VerbatimUrlError::UrlConversion, path)?;
            return Err(Refusal::Fault(fault));
        }
    };
    match with_fragment(url, fragment) {
        Ok(url) => Ok(VerbatimUrl::from_url(url)),
        Err(ParseError::OutOfMemory) => Err(Refusal::OutOfMemory),
        Err(fault) => Err(Refusal::Fault(VerbatimUrlError::Url(fault))),
    }
}

// The URL of a path without a fragment.
fn file_url(alloc: Global, path: &str) -> ParseResult<Url>
    ensures { Gives result (parse_url None (file_text path.now)) }
{
    let text = file_text(alloc, path)?;
    Url::parse(alloc, text.as_str())
}

// The URL with a fragment, if there is one to set.
fn with_fragment(mut url: Url, fragment: Option<&str>) -> ParseResult<Url>
    ensures { Gives result (Ok (with_fragment url (option_copied fragment.entry))) }
{
    if fragment.is_some() {
        url.set_fragment(fragment)?;
    }
    Ok(url)
}

// The text up to its first `#`, and what follows that.
fn split_fragment(text: &str) -> (&str, Option<&str>)
    ensures { (result.0.now, option_copied result.1) ≡ split_once 35 text.now }
{
    match text.split_once('#') {
        Some((before, fragment)) => (before, Some(fragment)),
        None => (text, None),
    }
}
