//! The names of the fields of a scenario.
ghost use Rattle.std.specs.Prelude.{◌≡◌, ◌≤◌, [], codes, IfOk, length};
ghost use Rattle.std.specs.List.{list_all};
ghost use Rattle.pe_scene.specs.declared.section.Section.TheVariants as Section;
ghost use Rattle.toml.specs.View.{items_view, table_view};
ghost use Rattle.pe_base.specs.Limits.{most_fields};
ghost use Rattle.pe_lex.specs.Forms.{is_letter, is_word_byte};
ghost use Rattle.pe_scene.specs.Sections.{named, is_one_of};
ghost use Rattle.pe_scene.specs.Texts.{texts_of, is_spelled, is_field_name, are_field_names, names_of};
ghost use Rattle.pe_check.specs.FieldNames.{names_view};
ghost use Rattle.pe_scene.specs.Fields.{names_at, names_in, fields_in};
ghost use Rattle.pe_scene.specs.Faults.{Gives};

use crate::fault::{KeyFault, SceneFault};
use crate::section::{Section, value_at};
use crate::texts::are_texts;
use pe_base::limits::{MOST_FIELDS, NAME_BYTES};
use pe_base::{List, Names, Text};
use std::alloc::{AllocError, Global};
use toml::{Table, Value};

fn is_lower_letter(byte: u8) -> bool
    ensures { result ≡ is_letter byte }
{
    b'a' <= byte && byte <= b'z'
}

fn continues_name(byte: u8) -> bool
    ensures { result ≡ is_word_byte byte }
{
    is_lower_letter(byte) || b'0' <= byte && byte <= b'9' || byte == b'_'
}

fn all_continue(bytes: &[u8]) -> bool
    ensures { result ≡ list_all is_word_byte bytes.now }
{
    bytes.iter().all(|byte| continues_name(*byte))
}

/// Whether bytes are spelled as the name of a field.
fn is_spelled(bytes: &[u8]) -> bool
    ensures { result ≡ is_spelled bytes.now }
{
    match bytes {
        [] => false,
        [first, rest @ ..] => {
            is_lower_letter(*first) && rest.len() < NAME_BYTES && all_continue(rest)
        }
    }
}

/// Whether a text may be the name of a field.
fn is_field_name(name: &str) -> bool
    ensures { result ≡ is_field_name name.now }
{
    is_spelled(name.as_bytes()) && name != "state" && name != "kind"
}

/// Whether a text is one of these.
fn is_one_of(names: &[Text], name: &str) -> bool
    ensures { result ≡ is_one_of names.now name.now }
{
    names.iter().any(|other| name == other.as_str())
}

/// Whether texts may be the names of the fields of one kind.
fn are_field_names(names: &[Text]) -> bool
    ensures { result ≡ are_field_names names.now }
{
    for (i, name) in names.iter().enumerate() {
        let name = name.as_str();
        if !is_field_name(name) || is_one_of(&names[i + 1..], name) {
            return false;
        }
    }
    true
}

/// The texts among some values.
fn texts_of(alloc: Global, values: &[Value]) -> Result<Vec<Text>, AllocError>
    ensures { IfOk result (λ texts. texts.items ≡ texts_of (items_view values.now)) }
{
    let mut texts = Vec::new(alloc);
    for value in values {
        if let Some(text) = value.as_str() {
            texts.push(Text::new(text.to_string(alloc)?))?;
        }
    }
    Ok(texts)
}

/// The names of an array of texts, at a key of the table `fields`.
fn names_of(alloc: Global, key: &str, values: &[Value]) -> Result<List<Text>, SceneFault>
    ensures gives { Gives (λ names. names) result (names_of (named Section.Fields key.now) (texts_of (items_view values.now))) }
    ensures few { IfOk result (λ names. length names ≤ most_fields) }
{
    let names = match texts_of(alloc, values) {
        Ok(names) => names,
        Err(_) => return Err(SceneFault::Memory),
    };
    if names.len() > MOST_FIELDS {
        return Err(KeyFault::Range.at(alloc, Section::Fields, key));
    }
    if !are_field_names(names.as_slice()) {
        return Err(KeyFault::Name.at(alloc, Section::Fields, key));
    }
    Ok(List::new(names))
}

/// The names at a key of the table `fields`.
fn names_at(alloc: Global, table: &Table, key: &str) -> Result<List<Text>, SceneFault>
    ensures gives { Gives (λ names. names) result (names_at key.now (table_view table.now)) }
    ensures few { IfOk result (λ names. length names ≤ most_fields) }
{
    let value = match value_at(table, key) {
        Some(value) => value,
        None => return Ok(List::new(Vec::new(alloc))),
    };
    let values = match value.as_array() {
        Some(values) => values.as_slice(),
        None => return Err(KeyFault::Shape.at(alloc, Section::Fields, key)),
    };
    if !are_texts(values) {
        return Err(KeyFault::Shape.at(alloc, Section::Fields, key));
    }
    names_of(alloc, key, values)
}

/// The names of a table `fields` whose keys are all known.
fn names_in(alloc: Global, table: &Table) -> Result<Names, SceneFault>
    ensures { Gives names_view result (names_in (table_view table.now)) }
{
    let vertex = names_at(alloc, table, "vertex")?;
    let cell = names_at(alloc, table, "cell")?;
    let global = names_at(alloc, table, "global")?;
    Ok(Names {
        vertex,
        cell,
        global,
    })
}

/// The names of the fields.
pub(crate) fn fields_in(alloc: Global, table: &Table) -> Result<Names, SceneFault>
    ensures { Gives names_view result (fields_in (table_view table.now)) }
{
    let value = match value_at(table, "fields") {
        Some(value) => value,
        None => {
            return Ok(Names {
                vertex: List::new(Vec::new(alloc)),
                cell: List::new(Vec::new(alloc)),
                global: List::new(Vec::new(alloc)),
            });
        }
    };
    let fields = match value.as_table() {
        Some(fields) => fields,
        None => return Err(KeyFault::Shape.at(alloc, Section::Document, "fields")),
    };
    match Section::Fields.unknown_in(fields) {
        Some(key) => Err(KeyFault::Unknown.at(alloc, Section::Fields, key)),
        None => names_in(alloc, fields),
    }
}
