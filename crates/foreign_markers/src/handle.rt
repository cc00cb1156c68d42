//! The handle: a struct of the caller that owns the markers, or nothing.

ghost use Rattle.std.specs.Prelude.{◌≡◌, Some, None, Option, option_map};
ghost use Rattle.foreign_markers.specs.declared.markers.Markers.{Markers};

use crate::loose::Loose;
use crate::markers::Markers;
use std::alloc::Global;
use std::marker::Model;

/// Shut it has nothing, and open it owns markers. It begins as `{false, null}`.
#[repr(C)]
pub struct Handle {
    is_open: bool,
    at: *mut u8,
    pub ghost value: { Option Markers },
}

impl Model for Handle {
    ghost use Rattle.foreign_markers.specs.Handle.{holds};
    ghost use Rattle.foreign_markers.specs.contracts.markers.Markers.{the_row};

    ghost also_owns = { λ h. holds the_row h.is_open h.at h.value };
}

// Frees markers.
#[inline(never)]
fn free(markers: Box<Markers>) {
    drop(markers);
}

impl Handle {
    ghost use Rattle.std.specs.Prelude.{MatchOption};
    ghost use types.Logic.{sem};
    ghost use Rattle.foreign_markers.specs.Lending.{LendsMarkers};

    // The markers, if it is open.
    #[inline(always)]
    pub(crate) fn markers(&mut self) -> Option<&mut Markers>
        ensures* writes_back { sem 𝓛 (LendsMarkers self.entry result) }
        ensures value { MatchOption result (self.old.value ≡ None)
            (λ markers. Some markers.now ≡ self.old.value) }
    {
        if !self.is_open {
            return None;
        }
        Some(unsafe { &mut *(self.at as *mut Markers) })
    }

    // Puts another handle in its place, and frees what it had.
    #[inline(always)]
    pub(crate) fn put(&mut self, alloc: Global, new: Handle)
        ensures { self.new.value ≡ new.value }
    {
        let old = std::mem::replace(self, new);
        if let Some(markers) = old.into_box(alloc) {
            free(markers);
        }
    }

    // The open handle of markers.
    pub(crate) fn of(b: Box<Markers>) -> Handle
        ensures { result.value ≡ Some b.value }
    {
        Handle::of_loose(Loose::of(b))
    }

    /// Returns the markers if the handle is open.
    pub fn into_box(self, alloc: Global) -> Option<Box<Markers>>
        ensures { option_map (λ b. b.value) result ≡ self.value }
    {
        match self.into_loose(alloc) {
            Some(loose) => Some(loose.into_box()),
            None => None,
        }
    }

    // The open handle of a pointer.
    fn of_loose(loose: Loose<Markers, Global>) -> Handle
        ensures { result.value ≡ Some loose.value }
    {
        let Loose { at, alloc: _ } = loose;
        Handle {
            is_open: true,
            at: at as *mut u8,
        }
    }

    /// Returns a shut handle.
    pub fn shut() -> Handle
        ensures { result.value ≡ None }
    {
        Handle {
            is_open: false,
            at: std::ptr::null_mut(),
        }
    }

    // The pointer, if it is open.
    fn into_loose(self, alloc: Global) -> Option<Loose<Markers, Global>>
        ensures { option_map (λ l. l.value) result ≡ self.value }
    {
        let Handle { is_open, at } = self;
        if is_open {
            Some(Loose {
                at: at as *mut Markers,
                alloc,
            })
        } else {
            None
        }
    }
}
