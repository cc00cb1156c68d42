//! The texts of extras and of specifiers in a requirement.

ghost use Rattle.std.specs.Prelude.{Some};
ghost use Rattle.std.specs.Fmt.{DisplaysOnOk};
ghost use Rattle.requirement_words.specs.Text.{extras_text, joined_text, later_names, later_specifiers};

use pep440_specifier::{VersionSpecifier, VersionSpecifiers};
use pep508_names::ExtraName;
use std::fmt;

fn write_later_names<W: fmt::Write>(names: &[ExtraName], f: &mut fmt::Formatter<W>) -> fmt::Result
    ensures { DisplaysOnOk W.write_str_gives f.old result (Some (later_names names.now)) f.new }
{
    for name in names {
        write!(f, ",{name}")?;
    }
    Ok(())
}

/// Writes extras as `[dev,test]`, and nothing if there are none.
pub fn write_extras<W: fmt::Write>(extras: &[ExtraName], f: &mut fmt::Formatter<W>) -> fmt::Result
    ensures { DisplaysOnOk W.write_str_gives f.old result (Some (extras_text extras.now)) f.new }
{
    match extras {
        [first, others @ ..] => {
            write!(f, "[{first}")?;
            write_later_names(others, f)?;
            f.write_str("]")
        }
        [] => Ok(()),
    }
}

fn write_later_specifiers<W: fmt::Write>(
    specifiers: &[VersionSpecifier],
    f: &mut fmt::Formatter<W>,
) -> fmt::Result
    ensures { DisplaysOnOk W.write_str_gives f.old result
        (Some (later_specifiers specifiers.now)) f.new }
{
    for specifier in specifiers {
        write!(f, ",{specifier}")?;
    }
    Ok(())
}

/// Writes specifiers as `>=3.8,<4`, with only a comma between them, and nothing if there are none.
pub fn write_specifiers<W: fmt::Write>(
    set: &VersionSpecifiers,
    f: &mut fmt::Formatter<W>,
) -> fmt::Result
    ensures { DisplaysOnOk W.write_str_gives f.old result (Some (joined_text set.now)) f.new }
{
    match set.as_slice() {
        [first, others @ ..] => {
            write!(f, "{first}")?;
            write_later_specifiers(others, f)
        }
        [] => Ok(()),
    }
}
