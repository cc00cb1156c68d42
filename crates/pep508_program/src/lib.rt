//! What the commands of the program `pep508` share: its command line, the machine and the output;
//! and the commands `check` and `list`.
#![tactic(auto)]

mod arguments;
mod command_line;
mod commands;
mod excerpts;
mod failures;
mod hosts;
mod kinds;
mod listing;
mod marks;
mod notices;
mod opened;
mod progress;
mod projects;
mod reports;
mod secrets;
mod sheets;
mod texts;
mod totals;
mod variables;
mod walks;

pub use crate::arguments::{Coloring, Request, Task, coloring_of, request_of, task_of};
pub use crate::command_line::WARNINGS;
pub use crate::commands::{
    execute, has_colors, out_of_memory, read_request, read_words, report_failure, wrong_use,
};
pub use crate::excerpts::{Excerpt, SHOWN, draw_excerpt, visible};
pub use crate::failures::Failure;
pub use crate::hosts::{EntryKind, FolderEntries, FolderEntry, Host};
pub use crate::kinds::{FileKind, file_name, is_sought, kind_of_name};
pub use crate::listing::{ListedPlace, write_listed};
pub use crate::marks::{Mark, marks_of};
pub use crate::notices::{Format, Notice, Page, Span, Style, Weight, write_notice};
pub use crate::opened::{OpenFiles, Opening};
pub use crate::progress::Progress;
pub use crate::reports::Report;
pub use crate::secrets::{Password, is_hidden, passwords};
pub use crate::sheets::{Sheet, is_url, path_beside};
pub use crate::texts::{
    Encoding, FileText, SUBSTITUTE, declared_encoding, decode, foreign_encoding,
};
pub use crate::totals::{Ending, Finish, Tally, status};
pub use crate::variables::{Values, is_variable_name, learn_variables};
pub use crate::walks::{DEEPEST, Walk};
