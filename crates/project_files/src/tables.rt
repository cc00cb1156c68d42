//! Reading the entries of a table.

ghost use Rattle.std.specs.Prelude.{◌≡◌, [], ◌∷◌, IfOk, option_map, string_bytes};
ghost use Rattle.toml.specs.Data.{get_member};
ghost use Rattle.toml.specs.View.{table_view, view};
ghost use Rattle.project_files.specs.Entries.{entry_of, wrong};
ghost use Rattle.project_files.specs.Found.{content_in, entries_in, name_in, Adds, AddsAt, AddsFaults, AddsItems, AddsList, AddsOf, AddsOne};
ghost use Rattle.project_files.specs.Tables as spec;
ghost use Rattle.project_files.specs.Tables.{dependency_entries, dynamic_entries, member_entries};

use crate::entry::{Content, ProjectEntry, ProjectFaultKind};
use crate::key::{ProjectKey, Section};
use std::alloc::{AllocError, Global};
use toml::Table;
use toml::value::{Array, Value};

// The entries so far.
type Entries = Vec<ProjectEntry>;

// The value at a key.
fn value_at<'a>(table: &'a Table, key: &str) -> Option<&'a Value>
    ensures { option_map (λ v. view v.now) result ≡ get_member key.now (table_view table.now) }
{
    table.get(key)
}

fn copied(alloc: Global, name: Option<&str>) -> Result<Option<String>, AllocError>
    ensures { IfOk result (λ copy.
        option_map string_bytes copy ≡ name_in name.entry) }
{
    match name {
        Some(name) => Ok(Some(String::from_str(alloc, name)?)),
        None => Ok(None),
    }
}

// Adds an entry.
fn add(
    alloc: Global,
    entries: &mut Entries,
    section: Section,
    name: Option<&str>,
    index: Option<usize>,
    content: Content,
) -> Result<(), AllocError>
    ensures { IfOk result (λ _. AddsOne section name.entry index content entries.old entries.new) }
{
    let name = copied(alloc, name)?;
    let key = ProjectKey {
        section,
        name,
        index,
    };
    entries.push(ProjectEntry { key, content })?;
    Ok(())
}

// Adds a fault at a key without a name.
fn add_wrong(
    alloc: Global,
    entries: &mut Entries,
    section: Section,
    kind: ProjectFaultKind,
) -> Result<(), AllocError>
    ensures { IfOk result (λ _. Adds (entry_of section (wrong kind) ∷ []) entries.old entries.new) }
{
    add(alloc, entries, section, None, None, Content::Wrong(kind))
}

fn text_of(alloc: Global, value: &Value) -> Result<Content, AllocError>
    ensures { IfOk result (λ content. content_in content ≡ spec.text_of (view value.now)) }
{
    match value {
        Value::String(text) => Ok(Content::Text(text.clone()?)),
        _ => Ok(Content::Wrong(ProjectFaultKind::NotAString)),
    }
}

// The group that a table of a list includes.
fn included(table: &Table) -> Option<&str>
    ensures { option_map (λ s. s.now) result ≡ spec.included (table_view table.now) }
{
    if table.len() != 1 {
        return None;
    }
    match value_at(table, "include-group") {
        Some(value) => value.as_str(),
        None => None,
    }
}

fn group_item_of(alloc: Global, value: &Value) -> Result<Content, AllocError>
    ensures { IfOk result (λ content. content_in content ≡ spec.group_item_of (view value.now)) }
{
    match value {
        Value::String(text) => Ok(Content::Text(text.clone()?)),
        Value::Table(table) => match included(table) {
            Some(name) => Ok(Content::Include(String::from_str(alloc, name)?)),
            None => Ok(Content::Wrong(ProjectFaultKind::NotAGroupItem)),
        },
        _ => Ok(Content::Wrong(ProjectFaultKind::NotAGroupItem)),
    }
}

fn item_of(alloc: Global, section: Section, value: &Value) -> Result<Content, AllocError>
    ensures { IfOk result (λ content. content_in content ≡ spec.item_of section (view value.now)) }
{
    match section {
        Section::Group => group_item_of(alloc, value),
        _ => text_of(alloc, value),
    }
}

// Adds the items of a list.
fn add_items(
    alloc: Global,
    entries: &mut Entries,
    section: Section,
    name: Option<&str>,
    items: &Array,
) -> Result<(), AllocError>
    ensures { IfOk result (λ _. AddsItems section name.entry items.now entries.old entries.new) }
{
    for index in 0..items.len() {
        let content = item_of(alloc, section, &items[index])?;
        add(alloc, entries, section, name, Some(index), content)?;
    }
    Ok(())
}

// Adds the entries of a value that must be a list.
fn add_list(
    alloc: Global,
    entries: &mut Entries,
    section: Section,
    name: Option<&str>,
    value: &Value,
) -> Result<(), AllocError>
    ensures { IfOk result (λ _. AddsList section name.entry value.now entries.old entries.new) }
{
    match value {
        Value::Array(items) => add_items(alloc, entries, section, name, items),
        _ => {
            let content = Content::Wrong(ProjectFaultKind::NotAList);
            add(alloc, entries, section, name, None, content)
        }
    }
}

// Adds groups or extras.
fn add_members(
    alloc: Global,
    entries: &mut Entries,
    section: Section,
    members: &Table,
) -> Result<(), AllocError>
    ensures { IfOk result
        (λ _. AddsOf (member_entries section) members.now entries.old entries.new) }
{
    for (key, value) in members.iter() {
        let name = Some(key.as_str());
        add(alloc, entries, section, name, None, Content::Name)?;
        add_list(alloc, entries, section, name, value)?;
    }
    Ok(())
}

// What there may be at a key.
type AtKey<'a> = Option<&'a Value>;

fn add_extras(alloc: Global, entries: &mut Entries, value: AtKey<'_>) -> Result<(), AllocError>
    ensures { IfOk result (λ _. AddsAt spec.extra_entries value.entry entries.old entries.new) }
{
    match value {
        None => Ok(()),
        Some(Value::Table(extras)) => add_members(alloc, entries, Section::Extra, extras),
        Some(_) => add_wrong(alloc, entries, Section::Extras, ProjectFaultKind::NotATable),
    }
}

fn add_groups(alloc: Global, entries: &mut Entries, value: AtKey<'_>) -> Result<(), AllocError>
    ensures { IfOk result (λ _. AddsAt spec.group_entries value.entry entries.old entries.new) }
{
    match value {
        None => Ok(()),
        Some(Value::Table(groups)) => add_members(alloc, entries, Section::Group, groups),
        Some(_) => add_wrong(alloc, entries, Section::Groups, ProjectFaultKind::NotATable),
    }
}

fn add_requires(alloc: Global, entries: &mut Entries, build: &Table) -> Result<(), AllocError>
    ensures { IfOk result (λ _. AddsOf spec.build_keys build.now entries.old entries.new) }
{
    match value_at(build, "requires") {
        Some(value) => add_list(alloc, entries, Section::BuildRequires, None, value),
        None => add_wrong(
            alloc,
            entries,
            Section::BuildSystem,
            ProjectFaultKind::NoRequires,
        ),
    }
}

fn add_build(alloc: Global, entries: &mut Entries, value: AtKey<'_>) -> Result<(), AllocError>
    ensures { IfOk result (λ _. AddsAt spec.build_entries value.entry entries.old entries.new) }
{
    match value {
        None => Ok(()),
        Some(Value::Table(build)) => add_requires(alloc, entries, build),
        Some(_) => add_wrong(
            alloc,
            entries,
            Section::BuildSystem,
            ProjectFaultKind::NotATable,
        ),
    }
}

// What is wrong with an item of `project.dynamic`.
fn dynamic_fault(project: &Table, value: &Value) -> Option<ProjectFaultKind>
    ensures { result ≡ spec.dynamic_fault (table_view project.now) (view value.now) }
{
    match value {
        Value::String(key) => match value_at(project, key.as_str()) {
            Some(_) => Some(ProjectFaultKind::NotDynamic),
            None => None,
        },
        _ => Some(ProjectFaultKind::NotAString),
    }
}

fn add_dynamic_fault(
    alloc: Global,
    entries: &mut Entries,
    index: usize,
    fault: Option<ProjectFaultKind>,
) -> Result<(), AllocError>
    ensures { IfOk result (λ _. Adds (spec.dynamic_entry index fault) entries.old entries.new) }
{
    match fault {
        Some(kind) => {
            let content = Content::Wrong(kind);
            add(alloc, entries, Section::Dynamic, None, Some(index), content)
        }
        None => Ok(()),
    }
}

// Adds the faults of the items of `project.dynamic`.
fn add_dynamic_faults(
    alloc: Global,
    entries: &mut Entries,
    project: &Table,
    items: &Array,
) -> Result<(), AllocError>
    ensures { IfOk result (λ _. AddsFaults project.now items.now entries.old entries.new) }
{
    for index in 0..items.len() {
        let fault = dynamic_fault(project, &items[index]);
        add_dynamic_fault(alloc, entries, index, fault)?;
    }
    Ok(())
}

fn add_dynamic(
    alloc: Global,
    entries: &mut Entries,
    project: &Table,
    value: AtKey<'_>,
) -> Result<(), AllocError>
    ensures { IfOk result (λ _. AddsAt (dynamic_entries (table_view project.now)) value.entry
        entries.old entries.new) }
{
    match value {
        None => Ok(()),
        Some(Value::Array(items)) => add_dynamic_faults(alloc, entries, project, items),
        Some(_) => add_wrong(alloc, entries, Section::Dynamic, ProjectFaultKind::NotAList),
    }
}

fn add_dependencies(
    alloc: Global,
    entries: &mut Entries,
    value: AtKey<'_>,
) -> Result<(), AllocError>
    ensures { IfOk result (λ _. AddsAt dependency_entries value.entry entries.old entries.new) }
{
    match value {
        None => Ok(()),
        Some(value) => add_list(alloc, entries, Section::Dependencies, None, value),
    }
}

fn add_python(alloc: Global, entries: &mut Entries, value: AtKey<'_>) -> Result<(), AllocError>
    ensures { IfOk result (λ _. AddsAt spec.python_entries value.entry entries.old entries.new) }
{
    match value {
        None => Ok(()),
        Some(value) => {
            let content = text_of(alloc, value)?;
            add(alloc, entries, Section::RequiresPython, None, None, content)
        }
    }
}

fn add_project_keys(alloc: Global, entries: &mut Entries, project: &Table) -> Result<(), AllocError>
    ensures { IfOk result (λ _. AddsOf spec.project_keys project.now entries.old entries.new) }
{
    add_dependencies(alloc, entries, value_at(project, "dependencies"))?;
    add_dynamic(alloc, entries, project, value_at(project, "dynamic"))?;
    add_extras(alloc, entries, value_at(project, "optional-dependencies"))?;
    add_python(alloc, entries, value_at(project, "requires-python"))
}

fn add_project(alloc: Global, entries: &mut Entries, value: AtKey<'_>) -> Result<(), AllocError>
    ensures { IfOk result (λ _. AddsAt spec.project_entries value.entry entries.old entries.new) }
{
    match value {
        None => Ok(()),
        Some(Value::Table(project)) => add_project_keys(alloc, entries, project),
        Some(_) => add_wrong(
            alloc,
            entries,
            Section::Project,
            ProjectFaultKind::NotATable,
        ),
    }
}

// The entries of a file.
pub(crate) fn entries_of(alloc: Global, file: &Table) -> Result<Vec<ProjectEntry>, AllocError>
    ensures { IfOk result (λ v. entries_in v.items ≡ spec.file_entries (table_view file.now)) }
{
    let mut entries = Vec::new(alloc);
    add_build(alloc, &mut entries, value_at(file, "build-system"))?;
    add_groups(alloc, &mut entries, value_at(file, "dependency-groups"))?;
    add_project(alloc, &mut entries, value_at(file, "project"))?;
    Ok(entries)
}
