//! Calls on a handle with markers by number.

ghost use Rattle.std.specs.Prelude.{◌≡◌, ◌≢◌, ◌∷◌, [], Some, None};
ghost use Rattle.marker_grammar.specs.Refused.{IsNoMarker};
ghost use Rattle.pep508_markers.specs.Machine as machine;
ghost use Rattle.pep508_markers.specs.Machine.{conjunction, disjunction, negation};
ghost use Rattle.pep508_markers.specs.Text.{TextOverflows};
ghost use Rattle.foreign_calls.specs.Answer.{done, invalid, shut, too_large, too_small};
ghost use Rattle.foreign_markers.specs.Interner.{empty_state, state};
ghost use Rattle.foreign_markers.specs.Made.{HasFirst, HasMarkerOf, HasOneMore, SetsEnvironment};
ghost use Rattle.foreign_markers.specs.Refused.{Always, RefusesBy, TakesArguments, TakesEnvironment, TakesLooks, TakesMemory};
ghost use Rattle.foreign_markers.specs.Told.{HasAnswer, HasCount, HasValueIn, IsTrueThere, WouldWriteText, WritesText};

use foreign_calls::{Environment, Options};
use foreign_markers::Handle;
use std::alloc::Global;

/// Opens the handle with an interner without markers. An open handle loses the markers it had.
#[unsafe(no_mangle)]
pub extern "C" fn pep508_interner_new(
    alloc: Global,
    handle: &mut Handle,
    options: &[Options<'_>],
) -> i32
    ensures done { result ≡ done → state handle.new.value ≡ Some empty_state }
    ensures kept { result ≢ done → state handle.new.value ≡ state handle.old.value }
{
    handle.begin(alloc, options).code()
}

/// Frees the interner with its markers, and shuts the handle. A shut handle stays shut.
#[unsafe(no_mangle)]
pub extern "C" fn pep508_interner_free(alloc: Global, handle: &mut Handle)
    ensures { handle.new.value ≡ None }
{
    handle.end(alloc);
}

/// Writes how many markers have a number.
#[unsafe(no_mangle)]
pub extern "C" fn pep508_interner_mark(handle: &mut Handle, count: &mut usize) -> i32
    ensures done { result ≡ done → HasCount count.new handle.old }
    ensures same { state handle.new.value ≡ state handle.old.value }
    ensures kept { result ≢ done → count.new ≡ count.old }
    ensures refused { result ≢ done → (result ≡ shut) × (handle.old.value ≡ None) }
{
    handle.mark(count).code()
}

/// Removes the markers from this number on, with their nodes.
#[unsafe(no_mangle)]
pub extern "C" fn pep508_interner_release(handle: &mut Handle, count: usize) -> i32
    ensures done { result ≡ done → HasFirst count handle.old handle.new }
    ensures kept { result ≢ done → handle.new.value ≡ None }
    ensures refused { result ≢ done → (result ≡ shut) × (handle.old.value ≡ None) }
{
    handle.release(count).code()
}

/// Parses a marker, and writes its number.
#[unsafe(no_mangle)]
pub extern "C" fn pep508_marker_parse(handle: &mut Handle, text: &[u8], number: &mut usize) -> i32
    ensures done { result ≡ done → HasMarkerOf text.now number.new handle.old handle.new }
    ensures kept { result ≢ done → state handle.new.value ≡ state handle.old.value }
    ensures number { result ≢ done → number.new ≡ number.old }
    ensures invalid { result ≡ invalid → IsNoMarker text.now }
    ensures too_large { result ≡ too_large → TextOverflows text.now }
    ensures shut { handle.old.value ≡ None → result ≡ shut }
{
    handle.parse(text, number).code()
}

/// Writes the number of a new marker that is true where both are.
#[unsafe(no_mangle)]
pub extern "C" fn pep508_marker_and(
    handle: &mut Handle,
    a: usize,
    b: usize,
    number: &mut usize,
) -> i32
    ensures done { result ≡ done → HasOneMore (conjunction a b) number.new handle.old handle.new }
    ensures kept { result ≢ done → state handle.new.value ≡ state handle.old.value }
    ensures number { result ≢ done → number.new ≡ number.old }
    ensures refused { result ≢ done → RefusesBy TakesMemory (a ∷ b ∷ []) handle.old result }
{
    handle.and(a, b, number).code()
}

/// Writes the number of a new marker that is true where one of two is.
#[unsafe(no_mangle)]
pub extern "C" fn pep508_marker_or(
    handle: &mut Handle,
    a: usize,
    b: usize,
    number: &mut usize,
) -> i32
    ensures done { result ≡ done → HasOneMore (disjunction a b) number.new handle.old handle.new }
    ensures kept { result ≢ done → state handle.new.value ≡ state handle.old.value }
    ensures number { result ≢ done → number.new ≡ number.old }
    ensures refused { result ≢ done → RefusesBy TakesMemory (a ∷ b ∷ []) handle.old result }
{
    handle.or(a, b, number).code()
}

/// Writes the number of a new marker that is true where the given one is not.
#[unsafe(no_mangle)]
pub extern "C" fn pep508_marker_not(handle: &mut Handle, a: usize, number: &mut usize) -> i32
    ensures done { result ≡ done → HasOneMore (negation a) number.new handle.old handle.new }
    ensures kept { result ≢ done → state handle.new.value ≡ state handle.old.value }
    ensures number { result ≢ done → number.new ≡ number.old }
    ensures refused { result ≢ done → RefusesBy TakesMemory (a ∷ []) handle.old result }
{
    handle.not(a, number).code()
}

/// Writes whether two markers agree at every valuation.
#[unsafe(no_mangle)]
pub extern "C" fn pep508_marker_equal(
    handle: &mut Handle,
    a: usize,
    b: usize,
    value: &mut bool,
) -> i32
    ensures done { result ≡ done → HasAnswer (machine.equal a b) value.new handle.old }
    ensures same { state handle.new.value ≡ state handle.old.value }
    ensures kept { result ≢ done → value.new ≡ value.old }
    ensures refused { result ≢ done → RefusesBy Always (a ∷ b ∷ []) handle.old result }
{
    handle.equal(a, b, value).code()
}

/// Writes whether two markers are disjoint: no valuation satisfies both.
#[unsafe(no_mangle)]
pub extern "C" fn pep508_marker_disjoint(
    handle: &mut Handle,
    a: usize,
    b: usize,
    value: &mut bool,
) -> i32
    ensures done { result ≡ done → HasAnswer (machine.disjoint a b) value.new handle.old }
    ensures same { state handle.new.value ≡ state handle.old.value }
    ensures kept { result ≢ done → value.new ≡ value.old }
    ensures refused { result ≢ done → RefusesBy TakesLooks (a ∷ b ∷ []) handle.old result }
{
    handle.disjoint(a, b, value).code()
}

/// Writes whether a marker is true in an environment with these extras.
#[unsafe(no_mangle)]
pub extern "C" fn pep508_marker_evaluate_number(
    alloc: Global,
    handle: &mut Handle,
    number: usize,
    environment: &Environment<'_>,
    extras: &[&[u8]],
    value: &mut bool,
) -> i32
    ensures done { result ≡ done
        → HasValueIn number environment.now extras.now value.new handle.old }
    ensures same { state handle.new.value ≡ state handle.old.value }
    ensures kept { result ≢ done → value.new ≡ value.old }
    ensures refused { result ≢ done → RefusesBy TakesArguments (number ∷ []) handle.old result }
{
    handle
        .evaluate(alloc, number, environment, extras, value)
        .code()
}

/// Sets the environment, with extras, in which `pep508_marker_is_true` evaluates, instead of the
/// one before.
#[unsafe(no_mangle)]
pub extern "C" fn pep508_interner_set_environment(
    alloc: Global,
    handle: &mut Handle,
    environment: &Environment<'_>,
    extras: &[&[u8]],
) -> i32
    ensures done { result ≡ done → SetsEnvironment environment.now extras.now
        handle.old handle.new }
    ensures kept { result ≢ done → state handle.new.value ≡ state handle.old.value }
    ensures refused { result ≢ done → RefusesBy TakesArguments [] handle.old result }
{
    handle.set_environment(alloc, environment, extras).code()
}

/// Writes whether a marker is true in the environment that was set.
#[unsafe(no_mangle)]
pub extern "C" fn pep508_marker_is_true(handle: &mut Handle, number: usize, value: &mut bool) -> i32
    ensures done { result ≡ done → IsTrueThere number value.new handle.old }
    ensures same { state handle.new.value ≡ state handle.old.value }
    ensures kept { result ≢ done → value.new ≡ value.old }
    ensures refused { result ≢ done → RefusesBy TakesEnvironment (number ∷ []) handle.old result }
{
    handle.is_true(number, value).code()
}

/// Writes the text of a marker, which is empty if it is true everywhere.
#[unsafe(no_mangle)]
pub extern "C" fn pep508_marker_text(
    handle: &mut Handle,
    number: usize,
    buffer: &mut [u8],
    needed: &mut usize,
) -> i32
    ensures done { result ≡ done → WritesText number buffer.old buffer.new needed.new handle.old }
    ensures too_small { result ≡ too_small
        → WouldWriteText number buffer.old buffer.new needed.new handle.old }
    ensures same { state handle.new.value ≡ state handle.old.value }
    ensures kept { result ≢ done → buffer.new ≡ buffer.old }
    ensures none { result ≢ done → result ≢ too_small → needed.new ≡ 0 }
    ensures refused { result ≢ done → result ≢ too_small
        → RefusesBy TakesMemory (number ∷ []) handle.old result }
{
    handle.text(number, buffer, needed).code()
}
