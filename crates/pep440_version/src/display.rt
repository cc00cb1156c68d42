//! The normal text of a version (PEP 440, "Normalization").

ghost use Rattle.std.specs.Prelude.{Some};
ghost use Rattle.std.specs.Fmt.{DisplaysOnOk};
ghost use Rattle.pep440_version.specs.Text.{dotted, epoch_text, kind_text, release_text, segment_text, suffix_text, version_text};
ghost use Rattle.pep440_version.specs.View.{segment_of};
ghost use Rattle.pep440_version.specs.Local.{after_dots, local_part};

use crate::version::{LocalSegment, Prerelease, PrereleaseKind, Version};
use std::fmt;

impl fmt::Display for PrereleaseKind {
    ghost output = { λ k. Some (kind_text k) };

    fn fmt<W: fmt::Write>(&self, f: &mut fmt::Formatter<W>) -> fmt::Result {
        match self {
            PrereleaseKind::Alpha => f.write_str("a"),
            PrereleaseKind::Beta => f.write_str("b"),
            PrereleaseKind::Rc => f.write_str("rc"),
        }
    }
}

impl fmt::Display for LocalSegment {
    ghost output = { λ s. Some (segment_text (segment_of s)) };

    fn fmt<W: fmt::Write>(&self, f: &mut fmt::Formatter<W>) -> fmt::Result {
        match self {
            LocalSegment::String(text) => f.write_str(text.as_str()),
            LocalSegment::Number(number) => write!(f, "{number}"),
        }
    }
}

fn write_dotted<W: fmt::Write>(numbers: &[u64], f: &mut fmt::Formatter<W>) -> fmt::Result
    ensures { DisplaysOnOk W.write_str_gives f.old result (Some (dotted numbers.now)) f.new }
{
    for number in numbers {
        write!(f, ".{number}")?;
    }
    Ok(())
}

fn write_segments<W: fmt::Write>(
    segments: &[LocalSegment],
    f: &mut fmt::Formatter<W>,
) -> fmt::Result
    ensures { DisplaysOnOk W.write_str_gives f.old result (Some (after_dots segments.now)) f.new }
{
    for segment in segments {
        write!(f, ".{segment}")?;
    }
    Ok(())
}

fn write_epoch<W: fmt::Write>(epoch: u64, f: &mut fmt::Formatter<W>) -> fmt::Result
    ensures { DisplaysOnOk W.write_str_gives f.old result (Some (epoch_text epoch)) f.new }
{
    if epoch == 0 {
        return Ok(());
    }
    write!(f, "{epoch}!")
}

fn write_release<W: fmt::Write>(release: &[u64], f: &mut fmt::Formatter<W>) -> fmt::Result
    ensures { DisplaysOnOk W.write_str_gives f.old result (Some (release_text release.now)) f.new }
{
    match release {
        [first, others @ ..] => {
            write!(f, "{first}")?;
            write_dotted(others, f)
        }
        [] => Ok(()),
    }
}

fn write_suffix<W: fmt::Write>(
    pre: Option<Prerelease>,
    post: Option<u64>,
    dev: Option<u64>,
    f: &mut fmt::Formatter<W>,
) -> fmt::Result
    ensures { DisplaysOnOk W.write_str_gives f.old result (Some (suffix_text pre post dev)) f.new }
{
    if let Some(pre) = pre {
        let (kind, number) = (pre.kind, pre.number);
        write!(f, "{kind}{number}")?;
    }
    if let Some(post) = post {
        write!(f, ".post{post}")?;
    }
    if let Some(dev) = dev {
        write!(f, ".dev{dev}")?;
    }
    Ok(())
}

fn write_local<W: fmt::Write>(segments: &[LocalSegment], f: &mut fmt::Formatter<W>) -> fmt::Result
    ensures { DisplaysOnOk W.write_str_gives f.old result (Some (local_part segments.now)) f.new }
{
    match segments {
        [first, others @ ..] => {
            write!(f, "+{first}")?;
            write_segments(others, f)
        }
        [] => Ok(()),
    }
}

impl fmt::Display for Version {
    ghost output = { λ v. Some (version_text v) };

    #[tactic(auto, unfolding(crate::specs::Text::version_text))]
    fn fmt<W: fmt::Write>(&self, f: &mut fmt::Formatter<W>) -> fmt::Result {
        write_epoch(self.epoch, f)?;
        write_release(&self.release, f)?;
        write_suffix(self.pre(), self.post, self.dev, f)?;
        write_local(self.local.as_slice(), f)
    }
}
