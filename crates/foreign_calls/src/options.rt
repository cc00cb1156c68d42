//! What a caller may choose: the key of tables, limits, and a folder.

ghost use Rattle.std.specs.Prelude.{◌≡◌, IfErr, IfOk};
ghost use Rattle.std.specs.Option.{option_map};
ghost use Rattle.std.specs.Str.{IsUtf8};
ghost use Rattle.marker_conjunctions.specs.Contents.{nothing};
ghost use Rattle.foreign_calls.specs.Options.{folder_of, working_folder};
ghost use Rattle.foreign_calls.specs.Refused.{IsOfArguments};

use crate::answer::Answer;
use marker_graph::Interner;
use std::alloc::Global;

// How many pieces of nodes an interner has room for, if the options do not say.
const PIECES: usize = 1_000_000;

// How many looks at pairs of nodes a question may take, if the options do not say.
const LOOKS: usize = 10_000_000;

/// What a caller may choose.
#[repr(C)]
#[derive(Clone, Copy)]
pub struct Options<'a> {
    /// The size of this struct in bytes.
    pub size: usize,
    /// The key by which tables hash. Whoever chooses the texts and does not know it cannot make
    /// tables slow.
    pub key: [u64; 2],
    /// How many pieces of nodes the marker may take, or 0 for 1,000,000. A node has a piece for
    /// each of its children.
    pub pieces: usize,
    /// How many looks at pairs of nodes a question may take, or 0 for 10,000,000.
    pub looks: usize,
    /// The folder that relative paths start from and that `${PROJECT_ROOT}` stands for, or an empty
    /// text for none.
    pub working_folder: &'a [u8],
}

/// What a caller has chosen, or the defaults.
#[derive(Clone, Copy)]
pub struct Settings<'a> {
    pub(crate) key: [u64; 2],
    pub(crate) pieces: usize,
    pub(crate) looks: usize,
    pub(crate) folder: &'a str,
}

impl<'a> Settings<'a> {
    /// The settings of one struct of options, or the defaults of none. `InvalidArgument` if there
    /// are more or the struct has another size.
    pub fn of(options: &[Options<'a>]) -> Result<Settings<'a>, Answer>
        ensures folder { IfOk result (λ settings. settings.folder.now ≡ folder_of options.now) }
        ensures refused { IfErr result IsOfArguments }
    {
        match options {
            [] => Ok(Settings {
                key: [0, 0],
                pieces: PIECES,
                looks: LOOKS,
                folder: "",
            }),
            [chosen] => Settings::chosen(chosen),
            _ => Err(Answer::InvalidArgument),
        }
    }

    // The settings of a struct of options.
    fn chosen(options: &Options<'a>) -> Result<Settings<'a>, Answer>
        ensures folder { IfOk result (λ settings. settings.folder.now ≡
            options.now.working_folder.now) }
        ensures refused { IfErr result IsOfArguments }
    {
        if options.size != std::mem::size_of::<Options<'a>>() {
            return Err(Answer::InvalidArgument);
        }
        Ok(Settings {
            key: options.key,
            pieces: or_default(options.pieces, PIECES),
            looks: or_default(options.looks, LOOKS),
            folder: read_text(options.working_folder)?,
        })
    }

    /// An interner without nodes, by these settings.
    pub fn interner(&self, alloc: Global) -> Interner
        ensures { result ≡ nothing }
    {
        Interner::with_key_and_room(alloc, self.key, self.pieces)
    }

    /// The folder that relative paths start from, or an empty text for none.
    pub fn folder(&self) -> &'a str
        ensures { result.now ≡ self.now.folder.now }
    {
        self.folder
    }

    /// The key by which tables hash.
    pub fn key(&self) -> [u64; 2] {
        self.key
    }

    /// How many pieces of nodes the marker may take.
    pub fn pieces(&self) -> usize {
        self.pieces
    }

    /// How many looks at pairs of nodes a question may take.
    pub fn looks(&self) -> usize {
        self.looks
    }
}

// The number, or the default in place of 0.
fn or_default(number: usize, default: usize) -> usize {
    if number == 0 { default } else { number }
}

/// The text that these bytes are.
pub fn read_text(bytes: &[u8]) -> Result<&str, Answer>
    ensures same { IfOk result (λ text. text.now ≡ bytes.now) }
    ensures refused { IfErr result (λ answer. answer ≡ Answer.NotUtf8) }
    ensures invalid { IfErr result (λ _. ¬ IsUtf8 bytes.now) }
{
    match str::from_utf8(bytes) {
        Ok(text) => Ok(text),
        Err(_) => Err(Answer::NotUtf8),
    }
}

/// The folder, or nothing in place of an empty text.
pub(crate) fn folder_or_none(folder: &str) -> Option<&str>
    ensures { option_map (λ path. path.now) result ≡ working_folder folder.now }
{
    if folder.is_empty() {
        None
    } else {
        Some(folder)
    }
}
