//! Paths, URLs and archives instead of a name.

ghost use Rattle.std.specs.Prelude.{◌≡◌, ◌↔◌, codes, IfNone, IfOk, IfSome, IsTrue, List, ℕ};
ghost use Rattle.pep508_urls.specs.Variables.{value_of};
ghost use Rattle.requirement_words.specs.Archive.{HasExtension, IsArchive, is_archive_extension, is_compressed_extension};
ghost use Rattle.requirement_words.specs.Nameless.{NamesNoPackage, IsPathOrUrl, WithoutExtras};

use pep508_errors::Surroundings;
use pep508_urls::{expand_env_vars, split_extras, split_scheme};
use std::alloc::{AllocError, Global};

// The part of a file's name before its last dot, and the extension after it. `None` if nothing is
// before the dot.
fn split_extension(name: &str) -> Option<(&str, &str)>
    ensures found { IfSome result (λ x. HasExtension name.now x.0.now x.1.now) }
    ensures none { IfNone result ((before extension : List ℕ)
        → ¬ HasExtension name.now before extension) }
{
    let Some(dot) = name.rfind('.') else {
        return None;
    };
    if dot == 0 {
        return None;
    }
    Some((name.split_at(dot).0, name.split_at(dot + 1).1))
}

fn is_archive_extension(extension: &str) -> bool
    ensures { result ≡ is_archive_extension extension.now }
{
    matches!(
        extension,
        "whl" | "tbz" | "txz" | "tlz" | "zip" | "tgz" | "tar"
    )
}

fn is_compressed_extension(extension: &str) -> bool
    ensures { result ≡ is_compressed_extension extension.now }
{
    matches!(extension, "bz2" | "xz" | "lz" | "lzma" | "gz")
}

fn is_tar(extension: &str) -> bool
    ensures { IsTrue result ↔ (extension.now ≡ codes "tar") }
{
    extension == "tar"
}

/// Returns whether this is the name of an archive: by its extension, such as `whl`, `zip` or `tar`,
/// or `gz` after the extension `tar`.
pub fn is_archive(name: &str) -> bool
    ensures yes { IsTrue result → IsArchive name.now }
    ensures no { IsArchive name.now → IsTrue result }
{
    let Some((before, extension)) = split_extension(name) else {
        return false;
    };
    if is_archive_extension(extension) {
        return true;
    }
    if !is_compressed_extension(extension) {
        return false;
    }
    match split_extension(before) {
        Some((_, inner)) => is_tar(inner),
        None => false,
    }
}

// The text without the extras at its end.
fn without_extras(text: &str) -> &str
    ensures { WithoutExtras text.now result.now }
{
    match split_extras(text) {
        Some((before, _)) => before,
        None => text,
    }
}

fn is_path_or_url(text: &str) -> bool
    ensures yes { IsTrue result → IsPathOrUrl text.now }
    ensures no { IsPathOrUrl text.now → IsTrue result }
{
    if text.starts_with('.') {
        return true;
    }
    if text.contains('/') {
        return true;
    }
    if text.contains('\\') {
        return true;
    }
    match split_scheme(text) {
        Some(_) => true,
        None => is_archive(text),
    }
}

/// Returns whether a run without white space is a path, a URL or an archive instead of a name. Its
/// variables are expanded and the extras at its end are removed first.
pub fn is_nameless(
    alloc: Global,
    run: &str,
    surroundings: &Surroundings<'_>,
) -> Result<bool, AllocError>
    ensures yes { IfOk result (λ is.
        IsTrue is → NamesNoPackage (value_of surroundings.now) run.now) }
    ensures no { IfOk result (λ is.
        NamesNoPackage (value_of surroundings.now) run.now → IsTrue is) }
{
    let expanded = expand_env_vars(alloc, run, surroundings)?;
    Ok(is_path_or_url(without_extras(expanded.as_str())))
}
