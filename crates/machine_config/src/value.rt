// What stands under the keys of a table that has them in their forms.

ghost use Rattle.std.specs.Prelude.{◌≡◌, ◌++◌, IfOk, OnOk, map};
ghost use Rattle.std.specs.List.{filter_map};
ghost use Rattle.toml.specs.Data.{as_integer, as_str};
ghost use Rattle.toml.specs.View.{table_view, view};
ghost use Rattle.line_text.specs.Texts.{texts};
ghost use Rattle.machine_config.specs.Values as spec;

use crate::key::{Key, value_at};
use std::alloc::{AllocError, Global};
use toml::{Table, Value};

/// The text under a key.
#[tactic(auto, unfolding(crate::specs::Values::text_at))]
pub fn text_at(table: &Table, key: Key) -> &str
    ensures { result.now ≡ spec.text_at key (table_view table.now) }
{
    match value_at(table, key) {
        Some(Value::String(text)) => text.as_str(),
        _ => "",
    }
}

/// The integer under a key, or 0.
#[tactic(auto, unfolding(crate::specs::Values::integer_at))]
pub fn integer_at(table: &Table, key: Key) -> i64
    ensures { result ≡ spec.integer_at key (table_view table.now) }
{
    match value_at(table, key) {
        Some(Value::Integer(number)) => *number,
        _ => 0,
    }
}

/// The flag under a key, or false.
#[tactic(auto, unfolding(crate::specs::Values::flag_at))]
pub fn flag_at(table: &Table, key: Key) -> bool
    ensures { result ≡ spec.flag_at key (table_view table.now) }
{
    match value_at(table, key) {
        Some(Value::Boolean(flag)) => *flag,
        _ => false,
    }
}

/// The values of the list under a key, or none.
#[tactic(auto, unfolding(crate::specs::Values::values_at))]
pub fn values_at(table: &Table, key: Key) -> &[Value]
    ensures { map (λ v. view v) result.now ≡ spec.values_at key (table_view table.now) }
{
    match value_at(table, key) {
        Some(Value::Array(values)) => values.as_slice(),
        _ => &[],
    }
}

/// The texts of the list under a key.
pub fn texts_at(alloc: Global, table: &Table, key: Key) -> Result<Vec<&str>, AllocError>
    ensures { IfOk result (λ v. texts v.items ≡ spec.texts_at key (table_view table.now)) }
{
    texts_of(alloc, values_at(table, key))
}

// The texts among values.
fn texts_of(alloc: Global, values: &[Value]) -> Result<Vec<&str>, AllocError>
    ensures { IfOk result (λ v. texts v.items ≡ filter_map as_str (map (λ v. view v) values.now)) }
{
    let mut found = Vec::new(alloc);
    for value in values {
        let Some(text) = value.as_str() else { continue };
        found.push(text)?;
    }
    Ok(found)
}

/// The integers of the list under a key.
pub fn integers_at(alloc: Global, table: &Table, key: Key) -> Result<Vec<i64>, AllocError>
    ensures { IfOk result (λ v. v.items ≡ spec.integers_at key (table_view table.now)) }
{
    integers_of(alloc, values_at(table, key))
}

// The integers among values.
fn integers_of(alloc: Global, values: &[Value]) -> Result<Vec<i64>, AllocError>
    ensures { IfOk result (λ v. v.items ≡ filter_map as_integer (map (λ v. view v) values.now)) }
{
    values
        .iter()
        .filter_map(|value| value.as_integer())
        .collect(alloc)
}
