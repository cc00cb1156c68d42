//! Calls about markers.

ghost use Rattle.std.specs.Prelude.{◌≡◌, ◌≢◌, ◌⊎◌, codes};
ghost use Rattle.marker_grammar.specs.Refused.{IsNoMarker};
ghost use Rattle.marker_graph.specs.declared.relation.MarkerRelation.{MarkerRelation};
ghost use Rattle.pep508_markers.specs.Text.{TextOverflows};
ghost use Rattle.foreign_calls.specs.Answer.{done, invalid, too_large, too_small};
ghost use Rattle.foreign_calls.specs.Buffer.{Fits, IsTooSmall, WouldWrite, Writes};
ghost use Rattle.foreign_calls.specs.Environment.{bytes_of};
ghost use Rattle.foreign_calls.specs.Marker as marker;
ghost use Rattle.foreign_calls.specs.Relation.{AreRelated, code_of as relation_code};
ghost use Rattle.foreign_calls.specs.Simplified.{IsSimplified};

use foreign_calls::{BoundText, Environment, Options};
use std::alloc::Global;

/// Writes the version of the library.
#[unsafe(no_mangle)]
pub extern "C" fn pep508_version(buffer: &mut [u8], needed: &mut usize) -> i32
    ensures done { result ≡ done → Fits (codes "0.9.2") buffer.old buffer.new needed.new }
    ensures too_small { result ≢ done
        → IsTooSmall (codes "0.9.2") buffer.old buffer.new needed.new }
{
    foreign_calls::write_version(buffer, needed).code()
}

/// The normal text of a marker.
#[unsafe(no_mangle)]
pub extern "C" fn pep508_marker_normalize(
    alloc: Global,
    text: &[u8],
    options: &[Options<'_>],
    buffer: &mut [u8],
    needed: &mut usize,
) -> i32
    ensures done { result ≡ done
        → Writes (marker.IsNormal text.now) buffer.old buffer.new needed.new }
    ensures too_small { result ≡ too_small
        → WouldWrite (marker.IsNormal text.now) buffer.old buffer.new needed.new }
    ensures invalid { result ≡ invalid → IsNoMarker text.now }
    ensures too_large { result ≡ too_large → TextOverflows text.now }

    ensures kept { result ≢ done → buffer.new ≡ buffer.old }
    ensures none { result ≢ done → result ≢ too_small → needed.new ≡ 0 }
{
    foreign_calls::normalize_marker(alloc, text, options, buffer, needed).code()
}

/// Whether a marker is true in an environment with these extras.
#[unsafe(no_mangle)]
pub extern "C" fn pep508_marker_evaluate(
    alloc: Global,
    text: &[u8],
    environment: &Environment<'_>,
    extras: &[&[u8]],
    options: &[Options<'_>],
    value: &mut bool,
) -> i32
    ensures done { result ≡ done
        → marker.IsTrueIn text.now environment.now (bytes_of extras.now) value.new }
    ensures invalid { result ≡ invalid → IsNoMarker text.now }
    ensures too_large { result ≡ too_large → TextOverflows text.now }
    ensures kept { result ≢ done → value.new ≡ value.old }
{
    foreign_calls::evaluate_marker(alloc, text, environment, extras, options, value).code()
}

/// How two markers relate.
#[unsafe(no_mangle)]
pub extern "C" fn pep508_markers_compare(
    alloc: Global,
    first: &[u8],
    second: &[u8],
    options: &[Options<'_>],
    relation: &mut i32,
) -> i32
    ensures done { result ≡ done → (found : MarkerRelation) × AreRelated first.now second.now found
        × (relation.new ≡ relation_code found) }
    ensures invalid { result ≡ invalid → IsNoMarker first.now ⊎ IsNoMarker second.now }
    ensures too_large { result ≡ too_large → TextOverflows first.now ⊎ TextOverflows second.now }
    ensures kept { result ≢ done → relation.new ≡ relation.old }
{
    foreign_calls::compare_markers(alloc, first, second, options, relation).code()
}

/// The normal text of a marker for Python in a range and with these extras.
#[unsafe(no_mangle)]
pub extern "C" fn pep508_marker_simplify(
    alloc: Global,
    text: &[u8],
    lower: &BoundText<'_>,
    upper: &BoundText<'_>,
    extras: &[&[u8]],
    options: &[Options<'_>],
    buffer: &mut [u8],
    needed: &mut usize,
) -> i32
    ensures done { result ≡ done → Writes (IsSimplified text.now lower.now upper.now extras.now)
        buffer.old buffer.new needed.new }
    ensures too_small { result ≡ too_small → WouldWrite (IsSimplified text.now lower.now upper.now
        extras.now) buffer.old buffer.new needed.new }
    ensures invalid { result ≡ invalid → IsNoMarker text.now }
    ensures too_large { result ≡ too_large → TextOverflows text.now }

    ensures kept { result ≢ done → buffer.new ≡ buffer.old }
    ensures none { result ≢ done → result ≢ too_small → needed.new ≡ 0 }
{
    foreign_calls::simplify_marker(
        alloc, text, lower, upper, extras, options, buffer, needed,
    ).code()
}
