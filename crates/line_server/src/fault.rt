//! Why serving ended early.

ghost use Rattle.std.specs.Prelude.{◌≡◌, Some};
ghost use Rattle.line_server.specs.Fault.{line_of, status_of};

use std::error::Error;
use std::fmt;

/// Why the program `markers` ends without having answered every line.
#[derive(Clone, Copy, Debug, PartialEq, Eq, Hash)]
pub enum ServeFault {
    /// A read failed.
    Input,
    /// A write failed.
    Output,
    /// Memory for a line, its words or its reply ran out.
    Memory,
    /// The program was given an argument. Only `main` returns this.
    Usage,
}

impl ServeFault {
    /// Returns the line that the program writes to standard error, without a line feed.
    pub fn line(self) -> &'static str
        ensures { result.now ≡ line_of self }
    {
        match self {
            ServeFault::Input => "markers: input failed",
            ServeFault::Output => "markers: output failed",
            ServeFault::Memory => "markers: out of memory",
            ServeFault::Usage => "usage: markers",
        }
    }

    /// Returns the exit status: 2 for a wrong call, otherwise 1.
    pub fn status(self) -> u8
        ensures { result ≡ status_of self }
    {
        match self {
            ServeFault::Input | ServeFault::Output | ServeFault::Memory => 1,
            ServeFault::Usage => 2,
        }
    }
}

impl fmt::Display for ServeFault {
    ghost output = { λ fault. Some (line_of fault) };

    fn fmt<W: fmt::Write>(&self, f: &mut fmt::Formatter<W>) -> fmt::Result {
        f.write_str(self.line())
    }
}

impl Error for ServeFault {}
