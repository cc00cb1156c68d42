//! What known values say about the questions of a marker.

ghost use Rattle.std.specs.Prelude.{◌≡◌, ◌∷◌, [], ℕ, false, IfOk, IfSome, List, OnOk, if◌then◌else◌, string_bytes};
ghost use Rattle.marker_words.specs.Key.{version_variable_key};
ghost use Rattle.marker_environment.specs.Substring.{is_part_of};
ghost use Rattle.marker_walks.specs.Possible.{is_listed};
ghost use Rattle.marker_graph.specs.Kind.{modern_key};
ghost use Rattle.marker_parts.specs.Expression as asked;
ghost use Rattle.marker_parts.specs.Expression.{test_of};
ghost use Rattle.marker_answers.specs.Known.{AreFacts, IsFactOf};
ghost use Rattle.marker_answers.specs.declared.known.KnownValues.{KnownValues};

use crate::known::KnownValues;
use marker_environment::is_part_of;
use marker_nodes::{Branches, NodeId, NodeTable, TruthVariable};
use marker_parts::{MarkerExpression, MarkerValueExtra};
use marker_walks::is_listed;
use marker_words::{
    ExtraOperator, MarkerOperator, MarkerValueString, TextVariable, VersionVariable,
};
use pep440_version::Version;
use pep508_names::ExtraName;
use std::alloc::{AllocError, Global};

// The text keys.
const TEXTS: [TextVariable; 8] = [
    TextVariable::ImplementationName,
    TextVariable::OsName,
    TextVariable::PlatformMachine,
    TextVariable::PlatformPythonImplementation,
    TextVariable::PlatformRelease,
    TextVariable::PlatformSystem,
    TextVariable::PlatformVersion,
    TextVariable::SysPlatform,
];

// The version keys.
const VERSIONS: [VersionVariable; 2] = [
    VersionVariable::ImplementationVersion,
    VersionVariable::PythonFullVersion,
];

// The modern key of a variable.
fn key_of(variable: TextVariable) -> MarkerValueString
    ensures { result ≡ modern_key variable }
{
    match variable {
        TextVariable::ImplementationName => MarkerValueString::ImplementationName,
        TextVariable::OsName => MarkerValueString::OsName,
        TextVariable::PlatformMachine => MarkerValueString::PlatformMachine,
        TextVariable::PlatformPythonImplementation => {
            MarkerValueString::PlatformPythonImplementation
        }
        TextVariable::PlatformRelease => MarkerValueString::PlatformRelease,
        TextVariable::PlatformSystem => MarkerValueString::PlatformSystem,
        TextVariable::PlatformVersion => MarkerValueString::PlatformVersion,
        TextVariable::SysPlatform => MarkerValueString::SysPlatform,
    }
}

// That the text key has its value.
fn text_fact(variable: TextVariable, value: &String) -> Result<MarkerExpression, AllocError>
    ensures { IfOk result (λ fact. test_of fact ≡ asked.text (modern_key variable)
        MarkerOperator.Equal (string_bytes value.now)) }
{
    Ok(MarkerExpression::String {
        key: key_of(variable),
        operator: MarkerOperator::Equal,
        value: value.clone()?,
    })
}

// Adds that the text key has its value, if it is known.
fn add_text(
    known: &KnownValues,
    variable: TextVariable,
    facts: &mut Vec<MarkerExpression>,
) -> Result<(), AllocError>
    ensures { OnOk result ((extras : List (List ℕ)) → AreFacts known.now extras facts.old.items
        → AreFacts known.now extras facts.new.items) }
{
    if let Some(value) = known.text(variable) {
        facts.push(text_fact(variable, value)?)?;
    }
    Ok(())
}

// That the version key has its value.
fn version_fact(
    alloc: Global,
    variable: VersionVariable,
    value: &Version,
) -> Result<MarkerExpression, AllocError>
    ensures { IfOk result (λ fact. test_of fact
        ≡ asked.version_in (version_variable_key variable) (value.now ∷ []) false) }
{
    let mut versions = Vec::new(alloc);
    versions.push(value.clone()?)?;
    Ok(MarkerExpression::VersionIn {
        key: variable.key(),
        versions,
        negated: false,
    })
}

// Adds that the version key has its value, if it is known.
fn add_version(
    alloc: Global,
    known: &KnownValues,
    variable: VersionVariable,
    facts: &mut Vec<MarkerExpression>,
) -> Result<(), AllocError>
    ensures { OnOk result ((extras : List (List ℕ)) → AreFacts known.now extras facts.old.items
        → AreFacts known.now extras facts.new.items) }
{
    if let Some(value) = known.version(variable) {
        facts.push(version_fact(alloc, variable, value)?)?;
    }
    Ok(())
}

// Adds the known values.
fn add_values(
    alloc: Global,
    known: &KnownValues,
    facts: &mut Vec<MarkerExpression>,
) -> Result<(), AllocError>
    ensures { OnOk result ((extras : List (List ℕ)) → AreFacts known.now extras facts.old.items
        → AreFacts known.now extras facts.new.items) }
{
    for variable in TEXTS {
        add_text(known, variable, facts)?;
    }
    for variable in VERSIONS {
        add_version(alloc, known, variable, facts)?;
    }
    Ok(())
}

// The operator that holds between a value and a text that it may be part of.
fn inside_operator(value: &str, text: &str) -> MarkerOperator
    ensures { result ≡ (if is_part_of value.now text.now then MarkerOperator.In
        else MarkerOperator.NotIn) }
{
    if is_part_of(value, text) {
        MarkerOperator::In
    } else {
        MarkerOperator::NotIn
    }
}

// The operator that holds between a value and a text that it may have as a part.
fn contains_operator(value: &str, text: &str) -> MarkerOperator
    ensures { result ≡ (if is_part_of text.now value.now then MarkerOperator.Contains
        else MarkerOperator.NotContains) }
{
    if is_part_of(text, value) {
        MarkerOperator::Contains
    } else {
        MarkerOperator::NotContains
    }
}

// The operator that holds between `extra` and a name.
fn extra_operator(name: &ExtraName, extras: &[ExtraName]) -> ExtraOperator
    ensures { result ≡ (if is_listed extras.now name.now then ExtraOperator.Equal
        else ExtraOperator.NotEqual) }
{
    if is_listed(name, extras) {
        ExtraOperator::Equal
    } else {
        ExtraOperator::NotEqual
    }
}

// The answer to a question whether the value of a key is part of a text, if the value is known.
fn inside_fact(
    known: &KnownValues,
    variable: TextVariable,
    text: &String,
) -> Result<Option<MarkerExpression>, AllocError>
    ensures { IfOk result (λ found. IfSome found (λ fact. (extras : List (List ℕ))
        → IsFactOf known.now extras fact)) }
{
    let Some(value) = known.text(variable) else {
        return Ok(None);
    };
    Ok(Some(MarkerExpression::String {
        key: key_of(variable),
        operator: inside_operator(value, text),
        value: text.clone()?,
    }))
}

// The answer to a question whether the value of a key has a text as a part, if the value is known.
fn contains_fact(
    known: &KnownValues,
    variable: TextVariable,
    text: &String,
) -> Result<Option<MarkerExpression>, AllocError>
    ensures { IfOk result (λ found. IfSome found (λ fact. (extras : List (List ℕ))
        → IsFactOf known.now extras fact)) }
{
    let Some(value) = known.text(variable) else {
        return Ok(None);
    };
    Ok(Some(MarkerExpression::String {
        key: key_of(variable),
        operator: contains_operator(value, text),
        value: text.clone()?,
    }))
}

// The answer to a question about an extra.
fn extra_fact(name: &ExtraName, extras: &[ExtraName]) -> Result<MarkerExpression, AllocError>
    ensures { IfOk result (λ fact. (known : KnownValues) → IsFactOf known extras.now fact) }
{
    Ok(MarkerExpression::Extra {
        operator: extra_operator(name, extras),
        name: MarkerValueExtra::Extra(name.clone()?),
    })
}

// The answer to a question about an extra that is no name: nothing asks for it.
fn arbitrary_fact(text: &String) -> Result<MarkerExpression, AllocError>
    ensures { IfOk result (λ fact. (known : KnownValues) (extras : List (List ℕ))
        → IsFactOf known extras fact) }
{
    Ok(MarkerExpression::Extra {
        operator: ExtraOperator::NotEqual,
        name: MarkerValueExtra::Arbitrary(text.clone()?),
    })
}

// The answer to a question, if the known values give it.
fn truth_fact(
    known: &KnownValues,
    extras: &[ExtraName],
    variable: &TruthVariable,
) -> Result<Option<MarkerExpression>, AllocError>
    ensures { IfOk result (λ found. IfSome found (IsFactOf known.now extras.now)) }
{
    match variable {
        TruthVariable::In(variable, text) => inside_fact(known, *variable, text),
        TruthVariable::Contains(variable, text) => contains_fact(known, *variable, text),
        TruthVariable::Extra(name) => {
            let fact = extra_fact(name, extras)?;
            Ok(Some(fact))
        }
        TruthVariable::Arbitrary(text) => {
            let fact = arbitrary_fact(text)?;
            Ok(Some(fact))
        }
    }
}

// Adds the answer to the question of a node, if the known values give it.
fn add_answer(
    table: &NodeTable,
    node: NodeId,
    known: &KnownValues,
    extras: &[ExtraName],
    facts: &mut Vec<MarkerExpression>,
) -> Result<(), AllocError>
    ensures { OnOk result (AreFacts known.now extras.now facts.old.items
        → AreFacts known.now extras.now facts.new.items) }
{
    if let Some(Branches::Truth(variable, _, _)) = table.node(node) {
        if let Some(fact) = truth_fact(known, extras, variable)? {
            facts.push(fact)?;
        }
    }
    Ok(())
}

/// What holds where the keys have their known values and exactly these extras are asked for: each
/// value, and the answer to each question about a known key or an extra that one of the nodes asks.
///
/// # Errors
/// `AllocError` if memory runs out.
pub fn facts_of(
    alloc: Global,
    table: &NodeTable,
    nodes: &[NodeId],
    known: &KnownValues,
    extras: &[ExtraName],
) -> Result<Vec<MarkerExpression>, AllocError>
    ensures { IfOk result (λ facts. AreFacts known.now extras.now facts.items) }
{
    let mut facts = Vec::new(alloc);
    add_values(alloc, known, &mut facts)?;
    for index in 0..nodes.len() {
        add_answer(table, nodes[index], known, extras, &mut facts)?;
    }
    Ok(facts)
}
