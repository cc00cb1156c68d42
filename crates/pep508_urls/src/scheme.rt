//! Schemes of URLs.

ghost use Rattle.std.specs.Prelude.{◌≡◌, ◌≢◌, IfNone, IfSome, IsTrue, ◌↔◌, List, ℕ, Some};
ghost use Rattle.url.specs.Input.{trim_c0_control_and_space};
ghost use Rattle.url.specs.Scheme.{is_scheme_byte};
ghost use Rattle.pep508_urls.specs.Scheme.{scheme_text, IsScheme, SplitsScheme, without_host};
ghost use Rattle.pep508_urls.specs.declared.scheme.Scheme.TheVariants as schemes;

use std::fmt;
use std::fmt::Display;

/// A URL scheme that a requirement may use.
#[derive(Clone, Copy, Debug, PartialEq, Eq)]
pub enum Scheme {
    /// `file`
    File,
    /// `git+git`
    GitGit,
    /// `git+http`
    GitHttp,
    /// `git+file`
    GitFile,
    /// `git+ssh`
    GitSsh,
    /// `git+https`
    GitHttps,
    /// `bzr+http`
    BzrHttp,
    /// `bzr+https`
    BzrHttps,
    /// `bzr+ssh`
    BzrSsh,
    /// `bzr+sftp`
    BzrSftp,
    /// `bzr+ftp`
    BzrFtp,
    /// `bzr+lp`
    BzrLp,
    /// `bzr+file`
    BzrFile,
    /// `hg+file`
    HgFile,
    /// `hg+http`
    HgHttp,
    /// `hg+https`
    HgHttps,
    /// `hg+ssh`
    HgSsh,
    /// `hg+static-http`
    HgStaticHttp,
    /// `svn+ssh`
    SvnSsh,
    /// `svn+http`
    SvnHttp,
    /// `svn+https`
    SvnHttps,
    /// `svn+svn`
    SvnSvn,
    /// `svn+file`
    SvnFile,
    /// `http`
    Http,
    /// `https`
    Https,
}

impl Scheme {
    /// Returns the scheme with this text, in lower case. `None` for any other text.
    pub fn parse(text: &str) -> Option<Scheme>
        ensures found { IfSome result (λ scheme. scheme_text scheme ≡ text.now) }
        ensures none { IfNone result ((scheme : Scheme) → scheme_text scheme ≢ text.now) }
    {
        let scheme = match text {
            "file" => Scheme::File,
            "git+git" => Scheme::GitGit,
            "git+http" => Scheme::GitHttp,
            "git+file" => Scheme::GitFile,
            "git+ssh" => Scheme::GitSsh,
            "git+https" => Scheme::GitHttps,
            "bzr+http" => Scheme::BzrHttp,
            "bzr+https" => Scheme::BzrHttps,
            "bzr+ssh" => Scheme::BzrSsh,
            "bzr+sftp" => Scheme::BzrSftp,
            "bzr+ftp" => Scheme::BzrFtp,
            "bzr+lp" => Scheme::BzrLp,
            "bzr+file" => Scheme::BzrFile,
            "hg+file" => Scheme::HgFile,
            "hg+http" => Scheme::HgHttp,
            "hg+https" => Scheme::HgHttps,
            "hg+ssh" => Scheme::HgSsh,
            "hg+static-http" => Scheme::HgStaticHttp,
            "svn+ssh" => Scheme::SvnSsh,
            "svn+http" => Scheme::SvnHttp,
            "svn+https" => Scheme::SvnHttps,
            "svn+svn" => Scheme::SvnSvn,
            "svn+file" => Scheme::SvnFile,
            "http" => Scheme::Http,
            "https" => Scheme::Https,
            _ => return None,
        };
        Some(scheme)
    }

    /// Returns whether the scheme is `file`.
    pub fn is_file(self) -> bool
        ensures { IsTrue result ↔ (self ≡ schemes.File) }
    {
        matches!(self, Scheme::File)
    }
}

impl Display for Scheme {
    ghost output = { λ scheme. Some (scheme_text scheme) };

    fn fmt<W: fmt::Write>(&self, f: &mut fmt::Formatter<W>) -> fmt::Result {
        f.write_str(match self {
            Scheme::File => "file",
            Scheme::GitGit => "git+git",
            Scheme::GitHttp => "git+http",
            Scheme::GitFile => "git+file",
            Scheme::GitSsh => "git+ssh",
            Scheme::GitHttps => "git+https",
            Scheme::BzrHttp => "bzr+http",
            Scheme::BzrHttps => "bzr+https",
            Scheme::BzrSsh => "bzr+ssh",
            Scheme::BzrSftp => "bzr+sftp",
            Scheme::BzrFtp => "bzr+ftp",
            Scheme::BzrLp => "bzr+lp",
            Scheme::BzrFile => "bzr+file",
            Scheme::HgFile => "hg+file",
            Scheme::HgHttp => "hg+http",
            Scheme::HgHttps => "hg+https",
            Scheme::HgSsh => "hg+ssh",
            Scheme::HgStaticHttp => "hg+static-http",
            Scheme::SvnSsh => "svn+ssh",
            Scheme::SvnHttp => "svn+http",
            Scheme::SvnHttps => "svn+https",
            Scheme::SvnSvn => "svn+svn",
            Scheme::SvnFile => "svn+file",
            Scheme::Http => "http",
            Scheme::Https => "https",
        })
    }
}

/// Splits a URL after its scheme: the scheme as it is written, and what follows the `:`. C0
/// controls and spaces at both ends of the text are ignored. `None` if the text does not begin with
/// a scheme and `:`.
pub fn split_scheme(text: &str) -> Option<(&str, &str)>
    ensures found { IfSome result (λ parts. SplitsScheme text.now parts.0.now parts.1.now) }
    ensures none { IfNone result ((scheme rest : List ℕ) → ¬ SplitsScheme text.now scheme rest) }
{
    let Some((scheme, rest)) = trim_url(text).split_once(':') else {
        return None;
    };
    if is_scheme(scheme) {
        Some((scheme, rest))
    } else {
        None
    }
}

// The text without C0 controls and spaces at its ends.
fn trim_url(text: &str) -> &str
    ensures { result.now ≡ trim_c0_control_and_space text.now }
{
    let front = text.as_bytes().iter().take_while(|&&b| b <= b' ').count();
    let (_, rest) = text.split_at(front);
    let back = rest
        .as_bytes()
        .iter()
        .rev()
        .take_while(|&&b| b <= b' ')
        .count();
    let (kept, _) = rest.split_at(rest.len() - back);
    kept
}

fn is_scheme(text: &str) -> bool
    ensures yes { IsTrue result → IsScheme text.now }
    ensures no { IsScheme text.now → IsTrue result }
{
    let bytes = text.as_bytes();
    match bytes.first() {
        Some(first) => first.is_ascii_alphabetic() && bytes.iter().all(|&b| is_scheme_byte(b)),
        None => false,
    }
}

fn is_scheme_byte(b: u8) -> bool
    ensures { result ≡ is_scheme_byte b }
{
    b.is_ascii_alphanumeric() || b == b'+' || b == b'-' || b == b'.'
}

/// Returns the text after the host of a `file` URL, if the host is empty or `localhost`:
/// `//localhost/a` and `///a` give `/a`. A text that does not begin with `//` is returned as it is.
pub fn strip_host(path: &str) -> &str
    ensures { result.now ≡ without_host path.now }
{
    match path.strip_prefix("//localhost") {
        Some(rest) if rest.starts_with('/') => rest,
        _ => path.strip_prefix("//").unwrap_or(path),
    }
}
