//! Tables of requirements and environments, as text, JSON and comma-separated values.

ghost use Rattle.std.specs.Prelude.{◌≡◌, ◌∷◌, map, codes, option_copied, string_bytes, IfOk, OnOk};
ghost use Rattle.serde_json.specs.View.{view};
ghost use Rattle.marker_commands.specs.Outcome.{HasAppended};
ghost use Rattle.selection_commands.specs.Cells.{cells_of, shown_in, texts_in, title_of};
ghost use Rattle.selection_commands.specs.Objects.{cell_object, cell_objects, objects, row_object, text_or_null, truth_data};
ghost use Rattle.selection_commands.specs.Table.{AddsRow, IsTableText, aligned, comma_separated, first_width, full_line, line_of, padded, widths_under};

use crate::Truth;
use crate::arguments::TableFormat;
use crate::columns::Column;
use crate::tabulator::Row;
use csv::Writer;
use serde_json::{Value, json};
use std::alloc::{AllocError, Global};
use unicode_width::UnicodeWidthStr;

// The spaces between two columns of text.
const GAP: &str = "  ";

// The title of the first column.
const REQUIREMENT: &str = "requirement";

// The titles of the columns of truths.
fn titles_of(alloc: Global, columns: &[Column<'_>]) -> Result<Vec<String>, AllocError>
    ensures { IfOk result (λ titles. texts_in titles.items ≡ map title_of columns.now) }
{
    let mut titles = Vec::new(alloc);
    for column in columns {
        titles.push(column.title(alloc)?)?;
    }
    Ok(titles)
}

// The texts of the row of titles.
fn head_of<'t>(alloc: Global, titles: &'t [String]) -> Result<Vec<&'t str>, AllocError>
    ensures { IfOk result
        (λ row. shown_in row.items ≡ codes "requirement" ∷ texts_in titles.now) }
{
    let mut cells = Vec::new(alloc);
    cells.push(REQUIREMENT)?;
    for title in titles {
        cells.push(title.as_str())?;
    }
    Ok(cells)
}

// The texts of a row of truths.
fn cells_of<'t>(alloc: Global, row: &'t Row) -> Result<Vec<&'t str>, AllocError>
    ensures { IfOk result (λ cells. shown_in cells.items ≡ cells_of row.now) }
{
    let mut cells = Vec::new(alloc);
    cells.push(row.requirement.as_str())?;
    for truth in &row.truths {
        cells.push(truth.cell())?;
    }
    Ok(cells)
}

// How wide the first column is.
fn first_width(rows: &[Row]) -> usize
    ensures { result ≡ first_width rows.now }
{
    let mut width = REQUIREMENT.width();
    for row in rows {
        width = width.max(row.requirement.as_str().width());
    }
    width
}

// How wide each column is.
fn widths_of(alloc: Global, titles: &[String], rows: &[Row]) -> Result<Vec<usize>, AllocError>
    ensures { IfOk result (λ widths. widths.items ≡ widths_under (texts_in titles.now) rows.now) }
{
    let mut widths = Vec::new(alloc);
    widths.push(first_width(rows))?;
    for title in titles {
        widths.push(title.as_str().width().max(Truth::Yes.cell().len()))?;
    }
    Ok(widths)
}

// Appends a cell, and spaces up to the next column.
fn push_padded(out: &mut String, cell: &str, width: usize) -> Result<(), AllocError>
    ensures { OnOk result (HasAppended out.old out.new (padded cell.now width)) }
{
    out.push_str(cell)?;
    for _index in 0..width.saturating_sub(cell.width()) {
        out.push(' ')?;
    }
    out.push_str(GAP)
}

// Appends cells: all but the last one are padded.
fn push_cells(out: &mut String, cells: &[&str], widths: &[usize]) -> Result<(), AllocError>
    ensures { OnOk result (HasAppended out.old out.new (line_of (shown_in cells.now) widths.now)) }
{
    let Some((last, before)) = cells.split_last() else {
        return Ok(());
    };
    for (index, cell) in before.iter().enumerate() {
        push_padded(out, cell, widths.get(index).copied().unwrap_or(0))?;
    }
    out.push_str(last)
}

// Appends a line of text.
fn push_line(out: &mut String, cells: &[&str], widths: &[usize]) -> Result<(), AllocError>
    ensures { OnOk result
        (HasAppended out.old out.new (full_line (shown_in cells.now) widths.now)) }
{
    push_cells(out, cells, widths)?;
    out.push('\n')
}

// The table as text in columns.
fn aligned(alloc: Global, titles: &[String], rows: &[Row]) -> Result<String, AllocError>
    ensures { IfOk result (λ text. string_bytes text ≡ aligned (texts_in titles.now) rows.now) }
{
    let widths = widths_of(alloc, titles, rows)?;
    let mut out = String::new(alloc);
    push_line(&mut out, &head_of(alloc, titles)?, &widths)?;
    for row in rows {
        push_line(&mut out, &cells_of(alloc, row)?, &widths)?;
    }
    Ok(out)
}

// A text, or null.
fn text_or_null(alloc: Global, text: Option<&str>) -> Result<Value, AllocError>
    ensures { IfOk result (λ value. view value ≡ text_or_null (option_copied text.entry)) }
{
    match text {
        Some(text) => json!(in alloc; (text)),
        None => Ok(Value::Null),
    }
}

// The truth as JSON: `null` if it is open.
fn truth_value(truth: Truth) -> Value
    ensures { view result ≡ truth_data truth }
{
    match truth {
        Truth::Yes => Value::Bool(true),
        Truth::No => Value::Bool(false),
        Truth::Open => Value::Null,
    }
}

// A cell of a row as an object.
fn cell_object(alloc: Global, column: &Column<'_>, truth: Truth) -> Result<Value, AllocError>
    ensures { IfOk result (λ value. view value ≡ cell_object column.now truth) }
{
    json!(in alloc; {
        "python": (text_or_null(alloc, column.python)?),
        "platform": (text_or_null(alloc, column.platform)?),
        "value": (truth_value(truth))
    })
}

// The cells of a row, as a list of objects.
fn cell_objects(
    alloc: Global,
    columns: &[Column<'_>],
    truths: &[Truth],
) -> Result<Value, AllocError>
    ensures { IfOk result (λ value. view value ≡ cell_objects columns.now truths.now) }
{
    let mut cells = Vec::new(alloc);
    for (column, truth) in columns.iter().zip(truths.iter()) {
        cells.push(cell_object(alloc, column, *truth)?)?;
    }
    Ok(Value::Array(cells))
}

// A row as an object.
fn row_object(alloc: Global, columns: &[Column<'_>], row: &Row) -> Result<Value, AllocError>
    ensures { IfOk result (λ value. view value ≡ row_object columns.now row.now) }
{
    json!(in alloc; {
        "requirement": (row.requirement.as_str()),
        "name": (text_or_null(alloc, row.name.as_deref())?),
        "marker": (text_or_null(alloc, row.marker.as_deref())?),
        "environments": (cell_objects(alloc, columns, &row.truths)?)
    })
}

// The table as an object of JSON for each row.
fn objects(alloc: Global, columns: &[Column<'_>], rows: &[Row]) -> Result<String, AllocError>
    ensures { IfOk result (λ text. string_bytes text ≡ objects columns.now rows.now) }
{
    let mut out = String::new(alloc);
    for row in rows {
        let object = row_object(alloc, columns, row)?;
        out.push_str(object.to_string(alloc)?.as_str())?;
        out.push('\n')?;
    }
    Ok(out)
}

// The bytes of texts.
fn fields_of<'t>(alloc: Global, cells: &[&'t str]) -> Result<Vec<&'t [u8]>, AllocError>
    ensures { IfOk result (λ fields. shown_in fields.items ≡ shown_in cells.now) }
{
    let mut fields = Vec::new(alloc);
    for cell in cells {
        fields.push(cell.as_bytes())?;
    }
    Ok(fields)
}

// Writes a record of comma-separated values. Only memory can be missing for it.
fn write_record(
    alloc: Global,
    writer: &mut Writer<Vec<u8>>,
    cells: &[&str],
) -> Result<(), AllocError>
    ensures { OnOk result (AddsRow cells.now writer.old writer.new) }
{
    let fields = fields_of(alloc, cells)?;
    match writer.write_fields(&fields) {
        Ok(()) => Ok(()),
        Err(_) => Err(AllocError),
    }
}

// The table as comma-separated values.
fn comma_separated(alloc: Global, titles: &[String], rows: &[Row]) -> Result<String, AllocError>
    ensures { IfOk result
        (λ s. string_bytes s ≡ comma_separated (texts_in titles.now) rows.now) }
{
    let mut writer = Writer::from_writer(Vec::new(alloc));
    write_record(alloc, &mut writer, &head_of(alloc, titles)?)?;
    for row in rows {
        write_record(alloc, &mut writer, &cells_of(alloc, row)?)?;
    }
    match writer.into_inner() {
        Ok(bytes) => String::from_utf8(bytes).map_err(|_| AllocError),
        Err(_) => Err(AllocError),
    }
}

/// Returns a table: a row for each requirement, and a column for each environment.
pub fn table_text(
    alloc: Global,
    format: TableFormat,
    columns: &[Column<'_>],
    rows: &[Row],
) -> Result<String, AllocError>
    ensures written { IfOk result
        (λ t. IsTableText format columns.now rows.now (string_bytes t)) }
{
    let titles = titles_of(alloc, columns)?;
    match format {
        TableFormat::Text => aligned(alloc, &titles, rows),
        TableFormat::Json => objects(alloc, columns, rows),
        TableFormat::Csv => comma_separated(alloc, &titles, rows),
    }
}
