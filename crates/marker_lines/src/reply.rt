//! Writing the replies of a session for the program `markers`.

ghost use Rattle.std.specs.Prelude.{◌≡◌, IfSome, OnOk};
ghost use Rattle.std.specs.List.{flat_map};
ghost use Rattle.pep508_markers.specs.Session.{answer_of, reason_of};
ghost use Rattle.marker_lines.specs.Reply.{GrowsBy, kind_name, kind_text, reason_text, reply_text};

use pep508_errors::MarkerWarningKind;
use pep508_markers::{Reason, Reply};
use std::alloc::AllocError;
use std::fmt::Display;
use std::io::Write;

// Appends a text to the replies.
pub(crate) fn put(replies: &mut Vec<u8>, text: &str) -> Result<(), AllocError>
    ensures { OnOk result (GrowsBy replies.old replies.new text.now) }
{
    replies.extend_from_slice(text.as_bytes())
}

// Appends a printed value.
fn put_printed<D: Display + Drop>(replies: &mut Vec<u8>, value: D) -> Result<(), AllocError>
    ensures { OnOk result (IfSome (D.output value) (GrowsBy replies.old replies.new)) }
{
    match replies.write_fmt(value) {
        Ok(()) => Ok(()),
        // A list has no other error than an allocation failure.
        Err(_) => Err(AllocError),
    }
}

// The name of a kind of warnings.
fn name_of_kind(kind: MarkerWarningKind) -> &'static str
    ensures { result.now ≡ kind_name kind }
{
    match kind {
        MarkerWarningKind::DeprecatedMarkerName => "DeprecatedMarkerName",
        MarkerWarningKind::ExtraInvalidComparison => "ExtraInvalidComparison",
        MarkerWarningKind::LexicographicComparison => "LexicographicComparison",
        MarkerWarningKind::MarkerMarkerComparison => "MarkerMarkerComparison",
        MarkerWarningKind::Pep440Error => "Pep440Error",
        MarkerWarningKind::StringStringComparison => "StringStringComparison",
    }
}

// Appends a space and the name of each kind.
fn put_kinds(replies: &mut Vec<u8>, kinds: &[MarkerWarningKind]) -> Result<(), AllocError>
    ensures { OnOk result (GrowsBy replies.old replies.new (flat_map kind_text kinds.now)) }
{
    for kind in kinds {
        put(replies, " ")?;
        put(replies, name_of_kind(*kind))?;
    }
    Ok(())
}

// Appends a reply to the replies, without the line feed that ends it.
pub(crate) fn put_reply(replies: &mut Vec<u8>, reply: &Reply) -> Result<(), AllocError>
    ensures { OnOk result (GrowsBy replies.old replies.new (reply_text (answer_of reply.now))) }
{
    match reply {
        Reply::Cell(index, kinds) => {
            put(replies, "cell ")?;
            put_printed(replies, *index)?;
            put_kinds(replies, kinds)
        }
        Reply::Truth(true) => put(replies, "true"),
        Reply::Truth(false) => put(replies, "false"),
        Reply::Text(Some(text)) => {
            put(replies, "text ")?;
            put(replies, text)
        }
        Reply::Text(None) => put(replies, "text"),
        Reply::Refused(reason) => put_reason(replies, reason),
    }
}

// Appends the reply to a refused command.
fn put_reason(replies: &mut Vec<u8>, reason: &Reason) -> Result<(), AllocError>
    ensures { OnOk result (GrowsBy replies.old replies.new (reason_text (reason_of reason.now))) }
{
    match reason {
        Reason::NoSuchCell => put(replies, "error cell"),
        Reason::OutOfMemory => put(replies, "error memory"),
        Reason::SegmentAtEnd => put(replies, "error segment"),
        Reason::InvalidExpression => put(replies, "error expression"),
        Reason::Marker {
            start,
            len,
            message,
        } => put_printed(
            replies,
            format_args!("error marker {start} {len} {message}"),
        ),
    }
}
