//! How expressions are printed.

ghost use Rattle.std.specs.Prelude.{◌≡◌, Some};
ghost use Rattle.std.specs.Fmt.{DisplaysOnOk};
ghost use Rattle.marker_parts.specs.Print.{expression_text, in_text, list_text, pattern_text, others_text};

use crate::expression::MarkerExpression;
use marker_words::{MarkerOperator, Quoted};
use pep440_specifier::VersionSpecifier;
use pep440_version::Version;
use std::fmt;

fn in_text(negated: bool) -> &'static str
    ensures { result.now ≡ in_text negated }
{
    if negated { "not in" } else { "in" }
}

// The version of a specifier, with `.*` for a star.
fn write_pattern<W: fmt::Write>(
    specifier: &VersionSpecifier,
    f: &mut fmt::Formatter<W>,
) -> fmt::Result
    ensures { DisplaysOnOk W.write_str_gives f.old result
        (Some (pattern_text specifier.now)) f.new }
{
    let version = specifier.version();
    write!(f, "{version}")?;
    if specifier.operator().is_star() {
        f.write_str(".*")?;
    }
    Ok(())
}

fn write_others<W: fmt::Write>(versions: &[Version], f: &mut fmt::Formatter<W>) -> fmt::Result
    ensures { DisplaysOnOk W.write_str_gives f.old result (Some (others_text versions.now)) f.new }
{
    for version in versions {
        write!(f, " {version}")?;
    }
    Ok(())
}

// The versions, separated by spaces.
fn write_list<W: fmt::Write>(versions: &[Version], f: &mut fmt::Formatter<W>) -> fmt::Result
    ensures { DisplaysOnOk W.write_str_gives f.old result (Some (list_text versions.now)) f.new }
{
    match versions {
        [first, others @ ..] => {
            write!(f, "{first}")?;
            write_others(others, f)
        }
        [] => Ok(()),
    }
}

/// Writes the key by its modern name, the operator, and the value in `'`, or in `"` if it contains
/// a `'`: `os_name == 'posix'`. `Contains` and `NotContains` have the value first. A star is
/// written as `.*` inside the quotes, and the versions of a list are separated by one space.
impl fmt::Display for MarkerExpression {
    ghost output = { λ expression. Some (expression_text expression) };

    fn fmt<W: fmt::Write>(&self, f: &mut fmt::Formatter<W>) -> fmt::Result {
        match self {
            MarkerExpression::Version { key, specifier } => {
                let operator = specifier.operator();
                write!(f, "{key} {operator} '")?;
                write_pattern(specifier, f)?;
                f.write_str("'")
            }
            MarkerExpression::VersionIn {
                key,
                versions,
                negated,
            } => {
                let operator = in_text(*negated);
                write!(f, "{key} {operator} '")?;
                write_list(versions, f)?;
                f.write_str("'")
            }
            MarkerExpression::String {
                key,
                operator,
                value,
            } => {
                let value = Quoted(value);
                match operator {
                    MarkerOperator::Contains | MarkerOperator::NotContains => {
                        write!(f, "{value} {operator} {key}")
                    }
                    _ => write!(f, "{key} {operator} {value}"),
                }
            }
            MarkerExpression::Extra { operator, name } => {
                let value = Quoted(name.text());
                write!(f, "extra {operator} {value}")
            }
        }
    }
}
