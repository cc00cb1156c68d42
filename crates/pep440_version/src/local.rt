//! The local part of a version.

ghost use Rattle.std.specs.Prelude.{◌≡◌, [], IfOk, IsOk, map};
ghost use Rattle.pep440_version.specs.View.{HaveSameSegments, segment_of};

use crate::version::LocalSegment;
use std::alloc::AllocError;
use std::fmt;
use std::marker::Model;

// The segments of a local part. Few versions have any, so they are behind a box, and a version is a
// word smaller.
#[derive(Drop)]
pub(crate) struct Local {
    segments: Option<Box<Vec<LocalSegment>>>,
}

impl Model for Local {
    ghost use Rattle.pep440_version.specs.Segments.{Segments, segments_in};

    ghost Value = { Segments };

    ghost view = { segments_in };
}

impl Local {
    // No local part.
    pub(crate) const NONE: Local = Local { segments: None };

    // The local part of these segments.
    pub(crate) fn new(segments: Vec<LocalSegment>) -> Result<Local, AllocError>
        ensures { IfOk result (λ local. local.items ≡ segments.items) }
    {
        if segments.is_empty() {
            return Ok(Local::NONE);
        }
        let alloc = *segments.allocator();
        Ok(Local {
            segments: Some(Box::new(alloc, segments)?),
        })
    }

    pub(crate) fn as_slice(&self) -> &[LocalSegment]
        ensures { result.now ≡ self.now.items }
    {
        match &self.segments {
            Some(segments) => segments.as_slice(),
            None => &[],
        }
    }

    // A copy of it. Without segments, nothing is allocated.
    pub(crate) fn copy(&self) -> Result<Local, AllocError>
        ensures value { IfOk result (λ copy. HaveSameSegments copy.items self.now.items) }
        ensures none { map segment_of self.now.items ≡ [] → IsOk result }
    {
        match &self.segments {
            Some(segments) if !segments.is_empty() => Local::new(clone_segments(segments)?),
            _ => Ok(Local::NONE),
        }
    }
}

fn clone_segments(segments: &Vec<LocalSegment>) -> Result<Vec<LocalSegment>, AllocError>
    ensures { IfOk result (λ copy. HaveSameSegments copy.items segments.now.items) }
{
    segments.clone()
}

impl fmt::Debug for Local {
    fn fmt<W: fmt::Write>(&self, f: &mut fmt::Formatter<W>) -> fmt::Result {
        self.as_slice().fmt(f)
    }
}
