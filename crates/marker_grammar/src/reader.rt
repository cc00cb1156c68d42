//! The parser of marker texts. It keeps open parentheses, and what their `or` and `and` have so
//! far, in a list of its own, and is not recursive.

ghost use Rattle.std.specs.Prelude.{◌≡◌, ◌≢◌, ◌++◌, ◌∷◌, [], Some, slice_get, IfOk, IfSome, IfNone, IfErr, OnOk};
ghost use Rattle.std.specs.Str.{chars};
ghost use Rattle.marker_words.specs.Fault.{HasNoSpace};
ghost use Rattle.marker_words.specs.Keyword.{NoKeyword};
ghost use Rattle.marker_grammar.specs.First.{BeginsWith};
ghost use Rattle.marker_grammar.specs.Refused.{IsTextFault, IsUnclosedFault};

use crate::formula::{FlatFormula, Token, append, join_and, join_or};
use marker_parts::internal::{ComparisonError, read_comparison};
use marker_words::{Fault, FaultKind, Keyword, keyword};
use pep508_errors::MarkerWarningKind;
use pep508_text::{Place, first, last, skip_space, strip};
use std::alloc::{AllocError, Global};

// An open parenthesis: the text from it on, and whether the `or` and the `and` around it have a
// formula yet.
#[derive(Clone, Copy, Debug)]
pub struct Group<'a> {
    pub text: &'a str,
    pub has_or: bool,
    pub has_and: bool,
    ghost opens: { slice_get (chars text.now) 0 ≡ Some 40 },
}

// What is expected next: an atom, or what follows one.
#[derive(Clone, Copy, Debug, PartialEq, Eq)]
pub enum Wanted {
    Atom,
    Rest,
}

// The state of the parser. `tokens` has the formulas of all unfinished lists, one after another.
#[derive(Debug, Drop)]
pub struct Reader<'a> {
    pub text: &'a str,
    pub rest: &'a str,
    pub groups: Vec<Group<'a>>,
    pub has_or: bool,
    pub has_and: bool,
    pub tokens: Vec<Token>,
    pub kinds: Vec<MarkerWarningKind>,
}

// The fault of a character in place of a keyword or the end. The span ends before the last
// character.
fn unexpected_fault(text: &str, found: char) -> Fault<'_>
    requires begins { BeginsWith found text.now }
    requires some { chars text.now ≢ [] }
    ensures { HasNoSpace text.now → NoKeyword (chars text.now) → IsTextFault text.now result }
{
    match last(text) {
        Some((piece, _)) => FaultKind::Unexpected(found).at(Place::at_run(piece, text)),
        None => FaultKind::Unexpected(found).at(Place::at_end()),
    }
}

// The fault where a parenthesis should close. At the end of the text it is at the opening
// parenthesis.
fn unclosed_fault<'a>(text: &'a str, group: &'a str) -> Fault<'a>
    requires { slice_get (chars group.now) 0 ≡ Some 40 }
    ensures { IsUnclosedFault text.now group.now result }
{
    if let Some((_, rest)) = first(text) {
        return FaultKind::Missing(')').at(Place::before(text, rest));
    }
    match strip(group, '(') {
        Some(rest) => FaultKind::Unclosed(')').at(Place::before(group, rest)),
        None => FaultKind::Unclosed(')').at(Place::at_end()),
    }
}

// Opens a parenthesis. After an error the list is as it was.
fn open<'a>(groups: &mut Vec<Group<'a>>, group: Group<'a>) -> Result<(), AllocError>
    ensures { OnOk result (groups.new.items ≡ groups.old.items ++ group.entry ∷ []) }
{
    groups.push(group)?;
    Ok(())
}

impl<'a> Reader<'a> {
    ghost use Rattle.marker_grammar.specs.Reader as half;
    ghost use Rattle.marker_grammar.specs.Reader.{Advances, AdvancesOn, Continues, ContinuesOn, HasEnded, IsSound};

    // Parses an open parenthesis or a comparison.
    fn atom(&mut self, alloc: Global) -> Result<Wanted, ComparisonError<'a>>
        requires { IsSound self.old }
        ensures sound { OnOk result (IsSound self.new) }
        ensures advances { OnOk result (Advances self.old self.new) }
        ensures same { IfOk result (λ next. Continues Wanted.Atom self.old next self.new) }
        ensures err { IfErr result (half.IsRefusal Wanted.Atom self.old) }
    {
        let text = skip_space(self.rest);
        if let Some(rest) = strip(text, '(') {
            let group = Group {
                text,
                has_or: self.has_or,
                has_and: self.has_and,
            };
            open(&mut self.groups, group)?;
            self.has_or = false;
            self.has_and = false;
            self.rest = rest;
            return Ok(Wanted::Atom);
        }
        let (expression, rest) = read_comparison(alloc, text, &mut self.kinds)?;
        self.has_and = append(&mut self.tokens, self.has_and, expression)?;
        self.rest = rest;
        Ok(Wanted::Rest)
    }

    // Parses what follows an atom: a keyword, a closing parenthesis, or the end of the text, for
    // which it returns `None`.
    fn follow(&mut self) -> Result<Option<Wanted>, ComparisonError<'a>>
        requires { IsSound self.old }
        ensures sound { IfOk result (λ next. IfSome next (λ _. IsSound self.new)) }
        ensures advances { IfOk result (AdvancesOn self.old self.new) }
        ensures same { IfOk result (ContinuesOn self.old self.new) }
        ensures ended { IfOk result (λ next. IfNone next (HasEnded self.old self.new)) }
        ensures err { IfErr result (half.IsRefusal Wanted.Rest self.old) }
    {
        let text = skip_space(self.rest);
        let (word, rest) = keyword(text);
        if let Keyword::And = word {
            self.rest = rest;
            return Ok(Some(Wanted::Atom));
        }
        let whole = join_or(&mut self.tokens, self.has_or, self.has_and)?;
        if let Keyword::Or = word {
            self.has_or = whole;
            self.has_and = false;
            self.rest = rest;
            return Ok(Some(Wanted::Atom));
        }
        let Some(group) = self.groups.pop() else {
            if let Some((found, _)) = first(text) {
                return Err(ComparisonError::Fault(unexpected_fault(text, found)));
            }
            self.has_or = whole;
            self.has_and = false;
            return Ok(None);
        };
        let Some(rest) = strip(text, ')') else {
            return Err(ComparisonError::Fault(unclosed_fault(text, group.text)));
        };
        self.has_or = group.has_or;
        self.has_and = join_and(&mut self.tokens, group.has_and, whole)?;
        self.rest = rest;
        Ok(Some(Wanted::Rest))
    }
}

/// The result of parsing a marker text.
#[derive(Debug, Drop)]
pub struct Reading {
    /// Its comparisons, joined as in the text, without those that are dropped. It is empty if all
    /// are.
    pub formula: FlatFormula,
    /// The kinds of its warnings, in the order of the text.
    pub kinds: Vec<MarkerWarningKind>,
}

ghost use Rattle.marker_grammar.specs.Grammar.{Reads, IsOnlyReading};
ghost use Rattle.marker_grammar.specs.Flat.{formula_of};
ghost use Rattle.marker_grammar.specs.Refused.{IsRefusal};

/// Parses a whole marker text (PEP 508, "Grammar"). Accepts exactly the texts of the grammar, and
/// returns the formula with the kinds of its warnings.
///
/// # Errors
/// - The fault, if the text is not in the grammar.
/// - `OutOfMemory` when memory runs out.
pub fn read(alloc: Global, text: &str) -> Result<Reading, ComparisonError<'_>>
    ensures found { IfOk result (λ r. Reads text.now (formula_of r.formula) r.kinds.items) }
    ensures only { IfOk result (λ r.
        IsOnlyReading text.now (formula_of r.formula) r.kinds.items) }
    ensures err { IfErr result (IsRefusal text.now) }
{
    // Three comparisons and two connectives.
    let tokens = Vec::with_capacity(alloc, 5)?;
    let mut reader = Reader {
        text,
        rest: text,
        groups: Vec::new(alloc),
        has_or: false,
        has_and: false,
        tokens,
        kinds: Vec::new(alloc),
    };
    let mut wanted = Wanted::Atom;
    loop {
        match wanted {
            Wanted::Atom => wanted = reader.atom(alloc)?,
            Wanted::Rest => match reader.follow()? {
                Some(next) => wanted = next,
                None => break,
            },
        }
    }
    Ok(Reading {
        formula: FlatFormula {
            tokens: reader.tokens,
        },
        kinds: reader.kinds,
    })
}
