//! Parsers of the parts of a version. Each parses the front of a slice of bytes and returns the
//! result and the rest. Those of suffixes expect lower case.

ghost use Rattle.std.specs.Prelude.{◌≡◌, ◌≤◌, ◌<◌, ◌+◌, ◌-◌, ◌*◌, ◌^◌, ◌++◌, length, IfNone, IfSome, IfOk, OnOk, IsAscii, Some, take};
ghost use Rattle.std.specs.Char.{is_ascii_digit, is_ascii_uppercase};
ghost use Rattle.std.specs.List.{list_all, list_any};
ghost use Rattle.pep440_version.specs.Grammar.{starred_parts};
ghost use Rattle.pep440_version.specs.Reading as Spec;
ghost use Rattle.pep440_version.specs.Valid.{AreNumbers};

use crate::local::Local;
use crate::pattern::VersionPattern;
use crate::slot::PrereleaseSlot;
use crate::version::{LocalSegment, Prerelease, PrereleaseKind, Version};
use smallvec::SmallVec;
use std::alloc::{AllocError, Global};
use std::str;

pub(crate) fn is_separator(byte: u8) -> bool
    ensures { result ≡ Spec.is_separator byte }
{
    byte == b'-' || byte == b'.' || byte == b'_'
}

pub(crate) fn starts_digit(text: &[u8]) -> bool
    ensures { result ≡ Spec.starts_digit text.now }
{
    match text {
        [byte, ..] => byte.is_ascii_digit(),
        [] => false,
    }
}

// The number `value` with one digit more, if that fits.
fn next_value(value: u64, digit: u8) -> Option<u64>
    requires { 48 ≤ digit }
    ensures none { IfNone result (2 ^ 64 ≤ value * 10 + (digit - 48)) }
    ensures some { IfSome result (λ sum. (sum ≡ value * 10 + (digit - 48)) × (sum < 2 ^ 64)) }
{
    let tens = value.checked_mul(10)?;
    tens.checked_add(u64::from(digit - b'0'))
}

pub(crate) fn number(text: &[u8]) -> Option<(u64, &[u8])>
    ensures { Spec.read_view result ≡ Spec.number_at text.now }
{
    if !starts_digit(text) {
        return None;
    }
    let mut value = 0u64;
    'digits: for i in 0..text.len() {
        let digit = text[i];
        if !digit.is_ascii_digit() {
            return Some((value, &text[i..]));
        }
        let Some(sum) = next_value(value, digit) else {
            return None;
        };
        value = sum;
    }
    Some((value, &text[text.len()..]))
}

pub(crate) fn after_separator(text: &[u8]) -> &[u8]
    ensures { result.now ≡ Spec.after_separator text.now }
{
    match text {
        [byte, rest @ ..] if is_separator(*byte) => rest,
        _ => text,
    }
}

// The number after a word, which may be left out.
#[tactic(auto, unfolding(crate::specs::Reading::numbered_at))]
fn optional_number(text: &[u8]) -> (u64, &[u8])
    ensures { Spec.pair_view result ≡ Spec.numbered_at text.now }
{
    match number(after_separator(text)) {
        Some(found) => found,
        None => (0, text),
    }
}

// A number after this byte.
fn number_after(mark: u8, text: &[u8]) -> Option<(u64, &[u8])>
    ensures { Spec.read_view result ≡ Spec.number_after mark text.now }
{
    match text {
        [byte, rest @ ..] if *byte == mark => number(rest),
        _ => None,
    }
}

fn strip<'a>(text: &'a [u8], word: &[u8]) -> Option<&'a [u8]>
    ensures { Spec.text_view result ≡ Spec.strip word.now text.now }
{
    text.strip_prefix(word)
}

fn either<'a>(text: &'a [u8], long: &[u8], short: &[u8]) -> Option<&'a [u8]>
    ensures { Spec.text_view result ≡ Spec.either long.now short.now text.now }
{
    if let Some(rest) = strip(text, long) {
        return Some(rest);
    }
    strip(text, short)
}

#[tactic(auto, unfolding(crate::specs::Reading::pre_word_at))]
fn pre_word(text: &[u8]) -> Option<(PrereleaseKind, &[u8])>
    ensures { Spec.read_view result ≡ Spec.pre_word_at text.now }
{
    if let Some(rest) = either(text, b"alpha", b"a") {
        return Some((PrereleaseKind::Alpha, rest));
    }
    if let Some(rest) = either(text, b"beta", b"b") {
        return Some((PrereleaseKind::Beta, rest));
    }
    if let Some(rest) = either(text, b"rc", b"c") {
        return Some((PrereleaseKind::Rc, rest));
    }
    if let Some(rest) = either(text, b"preview", b"pre") {
        return Some((PrereleaseKind::Rc, rest));
    }
    None
}

#[tactic(auto, unfolding(crate::specs::Reading::post_word_at))]
fn post_word(text: &[u8]) -> Option<&[u8]>
    ensures { Spec.text_view result ≡ Spec.post_word_at text.now }
{
    if let Some(rest) = strip(text, b"post") {
        return Some(rest);
    }
    either(text, b"rev", b"r")
}

#[tactic(auto, unfolding(crate::specs::Reading::pre_at))]
pub(crate) fn pre(text: &[u8]) -> (Option<Prerelease>, &[u8])
    ensures { Spec.pair_view result ≡ Spec.pre_at text.now }
{
    let Some((kind, rest)) = pre_word(after_separator(text)) else {
        return (None, text);
    };
    let (number, rest) = optional_number(rest);
    (Some(Prerelease { kind, number }), rest)
}

#[tactic(auto, unfolding(crate::specs::Reading::post_at))]
pub(crate) fn post(text: &[u8]) -> (Option<u64>, &[u8])
    ensures { Spec.pair_view result ≡ Spec.post_at text.now }
{
    if let Some(rest) = post_word(after_separator(text)) {
        let (number, rest) = optional_number(rest);
        return (Some(number), rest);
    }
    match number_after(b'-', text) {
        Some((number, rest)) => (Some(number), rest),
        None => (None, text),
    }
}

#[tactic(auto, unfolding(crate::specs::Reading::dev_at))]
pub(crate) fn dev(text: &[u8]) -> (Option<u64>, &[u8])
    ensures { Spec.pair_view result ≡ Spec.dev_at text.now }
{
    let Some(rest) = strip(after_separator(text), b"dev") else {
        return (None, text);
    };
    let (number, rest) = optional_number(rest);
    (Some(number), rest)
}

// Adds the further numbers of a release, and gives the text after them.
fn more<'a>(numbers: &mut SmallVec<u64, 4>, text: &'a [u8]) -> Result<&'a [u8], AllocError>
    ensures numbers { OnOk result (numbers.new.items ≡ numbers.old.items ++ Spec.others text.now) }
    ensures rest { IfOk result (λ rest. rest.now ≡ (Spec.more_at (length text.now) text.now).1) }
{
    let mut rest = text;
    'numbers: for step in 0..text.len() {
        let Some((number, after)) = number_after(b'.', rest) else {
            return Ok(rest);
        };
        numbers.push(number)?;
        rest = after;
    }
    Ok(rest)
}

// The numbers of a release after its first one, all of them together, and the text after them.
fn numbers_from(
    alloc: Global,
    first: u64,
    text: &[u8],
) -> Result<(SmallVec<u64, 4>, &[u8]), AllocError>
    ensures { IfOk result (λ r. Some (r.0.items, r.1.now) ≡ Spec.release_from first text.now) }
{
    let mut numbers = SmallVec::new(alloc);
    numbers.push(first)?;
    let rest = more(&mut numbers, text)?;
    Ok((numbers, rest))
}

// The epoch and the release at the front, and the text after them.
fn head(alloc: Global, text: &[u8]) -> Result<Option<(u64, SmallVec<u64, 4>, &[u8])>, AllocError>
    ensures value { IfOk result (λ found. Spec.head_view found ≡ Spec.head_at text.now) }
    ensures numbers { IfOk result (λ found. IfSome found (λ x. AreNumbers x.1.items)) }
{
    let Some((front, after)) = number(text) else {
        return Ok(None);
    };
    let Some(release) = strip(after, b"!") else {
        let (release, rest) = numbers_from(alloc, front, after)?;
        return Ok(Some((0, release, rest)));
    };
    let Some((first, after)) = number(release) else {
        return Ok(None);
    };
    let (release, rest) = numbers_from(alloc, first, after)?;
    Ok(Some((front, release, rest)))
}

// How many letters and digits are at the front.
pub(crate) fn run_len(text: &[u8]) -> usize
    ensures value { result ≡ Spec.run_len text.now }
    ensures fits { result ≤ length text.now }
    ensures ascii { IsAscii (take result text.now) }
{
    text.iter()
        .take_while(|byte| byte.is_ascii_lowercase() || byte.is_ascii_digit())
        .count()
}

pub(crate) fn is_numeric(run: &[u8]) -> bool
    ensures { result ≡ list_all is_ascii_digit run.now }
{
    run.iter().all(|byte| byte.is_ascii_digit())
}

#[tactic(auto, unfolding(crate::specs::Reading::segment_of_run))]
fn run_segment(alloc: Global, run: &[u8]) -> Result<Option<LocalSegment>, AllocError>
    requires { IsAscii run.now }
    ensures { IfOk result (λ found. Spec.run_view found ≡ Spec.segment_of_run run.now) }
{
    if run.is_empty() {
        return Ok(None);
    }
    if is_numeric(run) {
        return match number(run) {
            Some((number, _)) => Ok(Some(LocalSegment::Number(number))),
            None => Ok(None),
        };
    }
    // A run is ASCII, as the `requires` says.
    let text = unsafe { str::from_utf8_unchecked(run) };
    Ok(Some(LocalSegment::String(String::from_str(alloc, text)?)))
}

#[tactic(auto, unfolding(crate::specs::Reading::segment_at))]
fn segment(alloc: Global, text: &[u8]) -> Result<Option<(LocalSegment, &[u8])>, AllocError>
    ensures { IfOk result (λ found. Spec.segment_view found ≡ Spec.segment_at text.now) }
{
    let len = run_len(text);
    match run_segment(alloc, &text[..len])? {
        Some(segment) => Ok(Some((segment, &text[len..]))),
        None => Ok(None),
    }
}

fn segments(alloc: Global, text: &[u8]) -> Result<Option<Vec<LocalSegment>>, AllocError>
    ensures { IfOk result (λ found. Spec.segments_view found ≡ Spec.local_segments text.now) }
{
    let mut segments = Vec::new(alloc);
    let mut rest = text;
    'segments: for step in 0..text.len() {
        let Some((next, after)) = segment(alloc, rest)? else {
            return Ok(None);
        };
        segments.push(next)?;
        match after {
            [] => return Ok(Some(segments)),
            [byte, others @ ..] if is_separator(*byte) => rest = others,
            _ => return Ok(None),
        }
    }
    Ok(None)
}

pub(crate) fn locals(alloc: Global, text: &[u8]) -> Result<Option<Vec<LocalSegment>>, AllocError>
    ensures { IfOk result (λ found. Spec.segments_view found ≡ Spec.locals_at text.now) }
{
    match text {
        [] => Ok(Some(Vec::new(alloc))),
        [b'+', rest @ ..] => segments(alloc, rest),
        _ => Ok(None),
    }
}

// The text after a `v` in either case.
pub(crate) fn after_mark(text: &[u8]) -> &[u8]
    ensures { Spec.lower result.now ≡ Spec.after_mark (Spec.lower text.now) }
{
    match text {
        [b'v' | b'V', rest @ ..] => rest,
        _ => text,
    }
}

// The version of an epoch and a release alone.
pub(crate) fn released(alloc: Global, epoch: u64, release: SmallVec<u64, 4>) -> Version
    requires { AreNumbers release.items }
    ensures { result ≡ starred_parts epoch release.items }
{
    Version {
        epoch,
        release,
        pre: PrereleaseSlot::new(None),
        post: None,
        dev: None,
        local: Local::NONE,
    }
}

// The version of an epoch, a release and the text after it, in lower case.
fn with_suffixes(
    alloc: Global,
    epoch: u64,
    release: SmallVec<u64, 4>,
    text: &[u8],
) -> Result<Option<Version>, AllocError>
    requires { AreNumbers release.items }
    ensures { IfOk result (λ found. found ≡ Spec.after_numbers epoch release.items text.now) }
{
    let (pre, text) = pre(text);
    let (post, text) = post(text);
    let (dev, text) = dev(text);
    let Some(local) = locals(alloc, text)? else {
        return Ok(None);
    };
    let local = Local::new(local)?;
    let pre = PrereleaseSlot::new(pre);
    Ok(Some(Version {
        epoch,
        release,
        pre,
        post,
        dev,
        local,
    }))
}

fn has_capitals(text: &[u8]) -> bool
    ensures { result ≡ list_any is_ascii_uppercase text.now }
{
    text.iter().any(|byte| byte.is_ascii_uppercase())
}

// The version of an epoch, a release and the text after it, in either case. A text with capitals
// alone is copied.
pub(crate) fn version_from(
    alloc: Global,
    epoch: u64,
    release: SmallVec<u64, 4>,
    text: &[u8],
) -> Result<Option<Version>, AllocError>
    requires { AreNumbers release.items }
    ensures { IfOk result (λ found. found ≡ Spec.version_after epoch release.items text.now) }
{
    if text.is_empty() {
        return Ok(Some(released(alloc, epoch, release)));
    }
    if has_capitals(text) {
        return with_suffixes(alloc, epoch, release, &text.to_ascii_lowercase(alloc)?);
    }
    with_suffixes(alloc, epoch, release, text)
}

// The version of a whole text.
pub(crate) fn version(alloc: Global, text: &[u8]) -> Result<Option<Version>, AllocError>
    ensures { IfOk result (λ found. found ≡ Spec.version_at (Spec.lower text.now)) }
{
    match head(alloc, after_mark(text))? {
        Some((epoch, release, rest)) => version_from(alloc, epoch, release, rest),
        None => Ok(None),
    }
}

fn is_star(text: &[u8]) -> bool
    ensures { result ≡ Spec.is_star (Spec.lower text.now) }
{
    matches!(text, [b'.', b'*'])
}

// The pattern of a whole text.
pub(crate) fn pattern(alloc: Global, text: &[u8]) -> Result<Option<VersionPattern>, AllocError>
    ensures { IfOk result (λ found. Spec.pattern_view found ≡ Spec.pattern_of text.now) }
{
    let Some((epoch, release, rest)) = head(alloc, after_mark(text))? else {
        return Ok(None);
    };
    // Most patterns are releases, which are not moved through the parsers of suffixes.
    if rest.is_empty() {
        return Ok(Some(VersionPattern {
            version: released(alloc, epoch, release),
            wildcard: false,
        }));
    }
    if is_star(rest) {
        return Ok(Some(VersionPattern {
            version: released(alloc, epoch, release),
            wildcard: true,
        }));
    }
    match version_from(alloc, epoch, release, rest)? {
        Some(version) => Ok(Some(VersionPattern {
            version,
            wildcard: false,
        })),
        None => Ok(None),
    }
}
