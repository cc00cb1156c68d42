//! Sessions: markers in numbered cells, and commands on them.

ghost use Rattle.std.specs.Prelude.{◌≡◌, [], IfOk, IfNone, IfSome, OnErr, slice_get, Some};
ghost use Rattle.pep508_markers.specs.Cells.{AreHeld};

use crate::marker_text::MarkerText;
use crate::text_tree::tree_of_reading;
use marker_environment::MarkerEnvironment;
use marker_grammar::read;
use marker_graph::{Interner, MarkerTree};
use marker_parts::MarkerExpression;
use marker_parts::internal::ComparisonError;
use pep440_version::Version;
use pep508_errors::MarkerWarningKind;
use pep508_names::ExtraName;
use refusal::Refusal;
use std::alloc::{AllocError, Global};
use std::ops::Bound;

/// A command of a session. Cells are numbered from 0.
#[derive(Clone, Copy, Debug)]
pub enum Command<'a> {
    /// Parses a marker text into a new cell.
    Parse(&'a str),
    /// Stores a comparison in a new cell.
    Expression(&'a MarkerExpression),
    /// Stores the negation of a cell in a new one.
    Not(usize),
    /// Stores the conjunction of two cells in a new one.
    And(usize, usize),
    /// Stores the disjunction of two cells in a new one.
    Or(usize, usize),
    /// Simplifies a cell into a new one, given that the Python version is between two bounds.
    SimplifyPython(usize, Bound<&'a Version>, Bound<&'a Version>),
    /// Stores the conjunction of a cell and a range of Python versions in a new cell.
    ComplexifyPython(usize, Bound<&'a Version>, Bound<&'a Version>),
    /// Simplifies a cell into a new one, given that these extras are active.
    SimplifyExtras(usize, &'a [ExtraName]),
    /// Returns whether two cells mean the same.
    Equal(usize, usize),
    /// Returns whether nothing satisfies both cells.
    Disjoint(usize, usize),
    /// Returns whether a cell is true in an environment with these extras.
    Evaluate(usize, &'a MarkerEnvironment, &'a [ExtraName]),
    /// Returns whether a cell can be true with exactly these extras, whatever the environment.
    EvaluateExtras(usize, &'a [ExtraName]),
    /// Returns the text of a cell.
    Text(usize),
}

/// Why a command was refused. No cell has changed.
#[derive(Debug, PartialEq, Eq, Drop)]
pub enum Reason {
    /// There is no cell with that number.
    NoSuchCell,
    /// Memory ran out, or the interner is full.
    OutOfMemory,
    /// The set of versions of a comparison has a bound above 2^64 - 1.
    SegmentAtEnd,
    /// The comparison compares texts by `~=`.
    InvalidExpression,
    /// The text is an invalid marker: the place of the fault in bytes, and what is wrong.
    Marker {
        start: usize,
        len: usize,
        message: String,
    },
}

/// The answer to a command.
#[derive(Debug, PartialEq, Eq, Drop)]
pub enum Reply {
    /// The number of a new cell, and the kinds of the text's warnings in order.
    Cell(usize, Vec<MarkerWarningKind>),
    /// The answer to a query.
    Truth(bool),
    /// The text of a cell, or `None` if it is `TRUE`.
    Text(Option<String>),
    /// The command was refused.
    Refused(Reason),
}

/// Markers in numbered cells.
#[derive(Drop)]
pub struct Session {
    alloc: Global,
    interner: Interner,
    cells: Vec<MarkerTree>,
    ghost held: { AreHeld interner cells.items },
}

impl Session {
    ghost use Rattle.marker_graph.specs.Contents.{HoldsTheSame, IsKept};
    ghost use Rattle.pep508_markers.specs.Session.{cells_of, request_of, Answers, OnRefused, Runs};

    /// Returns a session without cells. Its interner hashes by a fixed key and has room for
    /// 4,294,967,295 pieces of nodes, the most that an interner can have.
    pub fn new(alloc: Global) -> Session
        ensures { cells_of result ≡ [] }
    {
        Session::with_key_and_room(alloc, [0, 0], usize::MAX)
    }

    /// Returns a session without cells, whose interner hashes by a key of two random words. This
    /// protects against commands that are chosen to make hashes collide.
    pub fn with_key(alloc: Global, key: [u64; 2]) -> Session
        ensures { cells_of result ≡ [] }
    {
        Session::with_key_and_room(alloc, key, usize::MAX)
    }

    /// Returns a session without cells, whose interner has room for `pieces` pieces of nodes. A
    /// command that needs more is refused as `OutOfMemory`.
    pub fn with_room(alloc: Global, pieces: usize) -> Session
        ensures { cells_of result ≡ [] }
    {
        Session::with_key_and_room(alloc, [0, 0], pieces)
    }

    /// Returns a session without cells, with the key of `with_key` and the room of `with_room`.
    pub fn with_key_and_room(alloc: Global, key: [u64; 2], pieces: usize) -> Session
        ensures { cells_of result ≡ [] }
    {
        Session {
            alloc,
            interner: Interner::with_key_and_room(alloc, key, pieces),
            cells: Vec::new(alloc),
        }
    }

    /// Returns whether a command was ever refused because the interner was full.
    pub fn has_met_room(&self) -> bool {
        self.interner.has_met_room()
    }

    /// Runs the commands in order and returns their replies. When memory for the replies runs out,
    /// no command is run.
    pub fn run(&mut self, commands: &[Command<'_>]) -> Result<Vec<Reply>, AllocError>
        ensures run { IfOk result
            (λ replies. Runs self.old commands.now replies.items self.new) }
        ensures err { OnErr result (cells_of self.new ≡ cells_of self.old) }
    {
        let mut replies = Vec::with_capacity(self.alloc, commands.len())?;
        for command in commands {
            let reply = self.execute(*command);
            replies.push(reply).unwrap();
        }
        Ok(replies)
    }

    /// Runs a command. If it is refused, the reply says why, no cell changes, and the interner
    /// holds what it held before.
    pub fn execute(&mut self, command: Command<'_>) -> Reply
        ensures answers { Answers self.old (request_of command.entry) result self.new }
        ensures released { OnRefused result (HoldsTheSame self.old.interner self.new.interner) }
    {
        let mark = self.interner.mark();
        match self.answer(command) {
            Reply::Refused(reason) => {
                self.interner.release(mark);
                Reply::Refused(reason)
            }
            reply => reply,
        }
    }

    // Answers a command. If it is refused, the nodes made so far are left in the interner.
    fn answer(&mut self, command: Command<'_>) -> Reply
        ensures answers { Answers self.old (request_of command.entry) result self.new }
        ensures kept { IsKept self.old.interner self.new.interner }
        ensures cells { OnRefused result (self.new.cells.items ≡ self.old.cells.items) }
    {
        match command {
            Command::Parse(text) => self.parse(text),
            Command::Expression(expression) => self.expression(expression),
            Command::Not(a) => self.negation(a),
            Command::And(a, b) => self.conjunction(a, b),
            Command::Or(a, b) => self.disjunction(a, b),
            Command::SimplifyPython(a, lower, upper) => self.simplify_python(a, lower, upper),
            Command::ComplexifyPython(a, lower, upper) => self.complexify_python(a, lower, upper),
            Command::SimplifyExtras(a, extras) => self.simplify_extras(a, extras),
            Command::Equal(a, b) => self.equal(a, b),
            Command::Disjoint(a, b) => self.disjoint(a, b),
            Command::Evaluate(a, environment, extras) => self.evaluate(a, environment, extras),
            Command::EvaluateExtras(a, extras) => self.evaluate_extras(a, extras),
            Command::Text(a) => self.text(a),
        }
    }
}

// The commands, one by one.
impl Session {
    ghost use Rattle.std.specs.Prelude.{◌≤◌, length};
    ghost use Rattle.marker_graph.specs.Contents.{IsHeld, IsKept};
    ghost use Rattle.marker_grammar.specs.Refused as texts;
    ghost use Rattle.pep508_markers.specs.Machine;
    ghost use Rattle.pep508_markers.specs.Machine.{make, ask, print};
    ghost use Rattle.pep508_markers.specs.Cells.{AreBothHeld, AreInCells, LacksCell};
    ghost use Rattle.pep508_markers.specs.Session.{Answers, AnswersRequirePython, AnswersEvaluate, AnswersExpression, AnswersMaking, AnswersSimplifyExtras, AnswersSimplifyPython, IsReasonOfText, OnRefused};

    // Parses a text into a new cell.
    fn parse(&mut self, text: &str) -> Reply
        ensures answers { Answers self.old (make (Machine.parse text.now)) result self.new }
        ensures kept { IsKept self.old.interner self.new.interner }
        ensures cells { OnRefused result (self.new.cells.items ≡ self.old.cells.items) }
    {
        if let Some(tree) = self.interner.known_text(text) {
            return self.add(tree, Vec::new(self.alloc));
        }
        let reading = match read(self.alloc, text) {
            Ok(reading) => reading,
            Err(error) => return Reply::Refused(Session::refusal(self.alloc, text, error)),
        };
        match tree_of_reading(&mut self.interner, text, reading) {
            Ok((tree, kinds)) => self.add(tree, kinds),
            Err(Refusal::OutOfMemory) => Reply::Refused(Reason::OutOfMemory),
            Err(Refusal::SegmentAtEnd) => Reply::Refused(Reason::SegmentAtEnd),
        }
    }

    // Why a text was refused, for a reply.
    fn refusal(alloc: Global, text: &str, error: ComparisonError<'_>) -> Reason
        requires { texts.IsRefusal text.now error }
        ensures { IsReasonOfText text.now result }
    {
        match error {
            ComparisonError::OutOfMemory => Reason::OutOfMemory,
            ComparisonError::Fault(fault) => match fault.to_string(alloc) {
                Ok(message) => Reason::Marker {
                    start: fault.start(text),
                    len: fault.place.len(),
                    message,
                },
                Err(_) => Reason::OutOfMemory,
            },
        }
    }

    // Stores a comparison in a new cell.
    fn expression(&mut self, expression: &MarkerExpression) -> Reply
        ensures answers { AnswersExpression self.old expression.now result self.new }
        ensures kept { IsKept self.old.interner self.new.interner }
        ensures cells { OnRefused result (self.new.cells.items ≡ self.old.cells.items) }
    {
        let Ok(expression) = expression.clone() else {
            return Reply::Refused(Reason::OutOfMemory);
        };
        match MarkerTree::expression(&mut self.interner, expression) {
            Ok(tree) => self.add(tree, Vec::new(self.alloc)),
            Err(Refusal::OutOfMemory) => Reply::Refused(Reason::OutOfMemory),
            Err(Refusal::SegmentAtEnd) => Reply::Refused(Reason::SegmentAtEnd),
            Err(Refusal::Fault(_)) => Reply::Refused(Reason::InvalidExpression),
        }
    }

    fn negation(&mut self, a: usize) -> Reply
        ensures answers { Answers self.old (make (Machine.negation a)) result self.new }
        ensures kept { IsKept self.old.interner self.new.interner }
        ensures cells { OnRefused result (self.new.cells.items ≡ self.old.cells.items) }
    {
        let Some(tree) = self.cell(a) else {
            return Reply::Refused(Reason::NoSuchCell);
        };
        self.add(tree.negate(), Vec::new(self.alloc))
    }

    fn conjunction(&mut self, a: usize, b: usize) -> Reply
        ensures answers { Answers self.old (make (Machine.conjunction a b)) result self.new }
        ensures kept { IsKept self.old.interner self.new.interner }
        ensures cells { OnRefused result (self.new.cells.items ≡ self.old.cells.items) }
    {
        let Some((left, right)) = self.two_cells(a, b) else {
            return Reply::Refused(Reason::NoSuchCell);
        };
        let mut both = left;
        match both.and(&mut self.interner, right) {
            Ok(()) => self.add(both, Vec::new(self.alloc)),
            Err(_) => Reply::Refused(Reason::OutOfMemory),
        }
    }

    fn disjunction(&mut self, a: usize, b: usize) -> Reply
        ensures answers { Answers self.old (make (Machine.disjunction a b)) result self.new }
        ensures kept { IsKept self.old.interner self.new.interner }
        ensures cells { OnRefused result (self.new.cells.items ≡ self.old.cells.items) }
    {
        let Some((left, right)) = self.two_cells(a, b) else {
            return Reply::Refused(Reason::NoSuchCell);
        };
        let mut either = left;
        match either.or(&mut self.interner, right) {
            Ok(()) => self.add(either, Vec::new(self.alloc)),
            Err(_) => Reply::Refused(Reason::OutOfMemory),
        }
    }

    fn simplify_python(&mut self, a: usize, lower: Bound<&Version>, upper: Bound<&Version>) -> Reply
        ensures answers { AnswersSimplifyPython self.old a lower.entry upper.entry result self.new }
        ensures kept { IsKept self.old.interner self.new.interner }
        ensures cells { OnRefused result (self.new.cells.items ≡ self.old.cells.items) }
    {
        let Some(tree) = self.cell(a) else {
            return Reply::Refused(Reason::NoSuchCell);
        };
        match tree.simplify_python_versions(&mut self.interner, lower, upper) {
            Ok(tree) => self.add(tree, Vec::new(self.alloc)),
            Err(_) => Reply::Refused(Reason::OutOfMemory),
        }
    }

    fn complexify_python(
        &mut self,
        a: usize,
        lower: Bound<&Version>,
        upper: Bound<&Version>,
    ) -> Reply
        ensures answers { AnswersRequirePython self.old a lower.entry upper.entry result self.new }
        ensures kept { IsKept self.old.interner self.new.interner }
        ensures cells { OnRefused result (self.new.cells.items ≡ self.old.cells.items) }
    {
        let Some(tree) = self.cell(a) else {
            return Reply::Refused(Reason::NoSuchCell);
        };
        match tree.complexify_python_versions(&mut self.interner, lower, upper) {
            Ok(tree) => self.add(tree, Vec::new(self.alloc)),
            Err(_) => Reply::Refused(Reason::OutOfMemory),
        }
    }

    fn simplify_extras(&mut self, a: usize, extras: &[ExtraName]) -> Reply
        ensures answers { AnswersSimplifyExtras self.old a extras.now result self.new }
        ensures kept { IsKept self.old.interner self.new.interner }
        ensures cells { OnRefused result (self.new.cells.items ≡ self.old.cells.items) }
    {
        let Some(tree) = self.cell(a) else {
            return Reply::Refused(Reason::NoSuchCell);
        };
        match tree.simplify_extras(&mut self.interner, extras) {
            Ok(tree) => self.add(tree, Vec::new(self.alloc)),
            Err(_) => Reply::Refused(Reason::OutOfMemory),
        }
    }

    fn equal(&self, a: usize, b: usize) -> Reply
        ensures { Answers self.now (ask (Machine.equal a b)) result self.now }
    {
        match self.two_cells(a, b) {
            Some((left, right)) => Reply::Truth(self.interner.equivalent(left, right)),
            None => Reply::Refused(Reason::NoSuchCell),
        }
    }

    fn disjoint(&self, a: usize, b: usize) -> Reply
        ensures { Answers self.now (ask (Machine.disjoint a b)) result self.now }
    {
        match self.two_cells(a, b) {
            Some((left, right)) => Reply::Truth(left.is_disjoint(&self.interner, right)),
            None => Reply::Refused(Reason::NoSuchCell),
        }
    }

    fn evaluate(&self, a: usize, environment: &MarkerEnvironment, extras: &[ExtraName]) -> Reply
        ensures { AnswersEvaluate self.now a environment.now extras.now result self.now }
    {
        match self.cell(a) {
            Some(tree) => Reply::Truth(tree.evaluate(&self.interner, environment, extras)),
            None => Reply::Refused(Reason::NoSuchCell),
        }
    }

    fn evaluate_extras(&self, a: usize, extras: &[ExtraName]) -> Reply
        ensures { Answers self.now (ask (Machine.evaluate_extras a extras.now)) result self.now }
    {
        match self.cell(a) {
            Some(tree) => Reply::Truth(tree.evaluate_extras(&self.interner, extras)),
            None => Reply::Refused(Reason::NoSuchCell),
        }
    }

    fn text(&self, a: usize) -> Reply
        ensures { Answers self.now (print a) result self.now }
    {
        let Some(tree) = self.cell(a) else {
            return Reply::Refused(Reason::NoSuchCell);
        };
        match tree.try_to_string(&self.interner) {
            Ok(text) => Reply::Text(text),
            Err(_) => Reply::Refused(Reason::OutOfMemory),
        }
    }

    // The tree of a cell.
    fn cell(&self, index: usize) -> Option<MarkerTree>
        ensures found { IfSome result (λ tree. slice_get self.now.cells.items index ≡ Some tree) }
        ensures held { IfSome result (IsHeld self.now.interner) }
        ensures missing { IfNone result (length self.now.cells.items ≤ index) }
    {
        self.cells.get(index).copied()
    }

    // The trees of two cells.
    fn two_cells(&self, a: usize, b: usize) -> Option<(MarkerTree, MarkerTree)>
        ensures found { IfSome result (AreInCells self.now.cells.items a b) }
        ensures held { IfSome result (AreBothHeld self.now.interner) }
        ensures missing { IfNone result (LacksCell self.now.cells.items a b) }
    {
        let left = self.cell(a)?;
        let right = self.cell(b)?;
        Some((left, right))
    }

    // Stores a tree in a new cell.
    fn add(&mut self, tree: MarkerTree, kinds: Vec<MarkerWarningKind>) -> Reply
        requires { IsHeld self.old.interner tree }
        ensures answers { AnswersMaking self.old tree kinds.items result self.new }
        ensures kept { IsKept self.old.interner self.new.interner }
        ensures cells { OnRefused result (self.new.cells.items ≡ self.old.cells.items) }
    {
        let index = self.cells.len();
        match self.cells.push(tree) {
            Ok(()) => Reply::Cell(index, kinds),
            Err(_) => Reply::Refused(Reason::OutOfMemory),
        }
    }
}
