// What one column says: the rows of its table, and the rows of the values that are asked for.
use crate::named::Named;
use anyhow::anyhow;
use columns::column::Column;
use fields::condition::Condition;
use fields::field::Field;
use rows::{PLACES, Row};
use std::alloc::Global;

// A row with the text of its value, and whether the plain reading gives the same bits.
#[derive(Drop)]
pub struct Reading {
    pub text: String,
    pub row: Row,
    pub same: bool,
}

#[derive(Drop)]
pub struct Sheet {
    pub field: Field,
    // whether some rule has another condition than any here
    pub used: bool,
    pub table: Vec<Reading>,
    pub asked: Vec<Reading>,
}

// Lets the empty column list the conditions.
fn fill<K: Condition, C: Column<Condition = K>>(
    column: &mut C,
    conditions: &[K],
) -> anyhow::Result<()> {
    for condition in conditions {
        let position = column.len() + 1;
        if column.insert(position, *condition).is_err() {
            return Err(anyhow!("a list has at most 512 rules"));
        }
    }
    Ok(())
}

// Whether the row has just the bits that the conditions give when they are asked one by one.
fn is_top_down<V: Copy, K: Condition<Value = V>>(
    conditions: &[K],
    value: Option<V>,
    row: &Row,
) -> bool {
    let asked = conditions.iter().enumerate().all(|(place, condition)| row.get(place)
        == condition.holds_on(value));
    asked && (conditions.len()..PLACES).all(|behind| !row.get(behind))
}

fn read_all<V: Copy, K: Condition<Value = V>, C: Column<Condition = K>>(
    heap: Global,
    column: &C,
    conditions: &[K],
    samples: Vec<Named<Option<V>>>,
) -> anyhow::Result<Vec<Reading>> {
    let mut readings = Vec::new(heap);
    for Named { text, value } in samples {
        let mut row = Row::zeros();
        column.read(value, &mut row);
        let same = is_top_down(conditions, value, &row);
        readings.push(Reading { text, row, same })?;
    }
    Ok(readings)
}

// The sheet of a column, which is empty yet, over these conditions, read at the samples.
pub fn make_sheet<V: Copy, K: Condition<Value = V>, C: Column<Condition = K>>(
    heap: Global,
    field: Field,
    mut column: C,
    conditions: &[K],
    samples: Vec<Named<Option<V>>>,
    asked: Vec<Named<Option<V>>>,
) -> anyhow::Result<Sheet> {
    fill(&mut column, conditions)?;
    let table = read_all(heap, &column, conditions, samples)?;
    let asked = read_all(heap, &column, conditions, asked)?;
    Ok(Sheet {
        field,
        used: conditions.iter().any(|condition| !condition.is_any()),
        table,
        asked,
    })
}
