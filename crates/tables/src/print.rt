// What is printed: the list with the tables beside it, and the rows of the values that are asked for.
use crate::sheet::{Reading, Sheet};
use anyhow::anyhow;
use notation::condition::Written;
use notation::rule::Rule;
use rows::Row;
use std::alloc::{AllocError, Global};

// The entries that are printed: of those with the same row the first.
fn entries<'a>(heap: Global, table: &'a [Reading]) -> Result<Vec<&'a Reading>, AllocError> {
    let mut entries: Vec<&'a Reading> = Vec::new(heap);
    for reading in table {
        if !entries.iter().any(|earlier| earlier.row == reading.row) {
            entries.push(reading)?;
        }
    }
    Ok(entries)
}

// Each used column's entries in the order of its digits.
fn legend(rt: &HostRuntime, sheets: &[Sheet]) -> anyhow::Result<()> {
    for sheet in sheets.iter().filter(|sheet| sheet.used) {
        let name = Written(sheet.field);
        let count = sheet.table.len();
        let entries = entries(rt.alloc(), &sheet.table)?;
        print!(rt;
            "{name}, {} rows for {count} stretches or codes:",
            entries.len()
        )?;
        for reading in entries {
            print!(rt; " {}", reading.text)?;
        }
        println!(rt; "")?;
    }
    Ok(())
}

// The bit of the rule at a place in each entry of the table.
fn bits(rt: &HostRuntime, sheet: &Sheet, place: usize) -> anyhow::Result<()> {
    print!(rt; "  {} ", Written(sheet.field))?;
    for reading in entries(rt.alloc(), &sheet.table)? {
        print!(rt; "{}", reading.row.get(place) as u8)?;
    }
    Ok(())
}

pub fn list(rt: &HostRuntime, rules: &[Rule], sheets: &[Sheet]) -> anyhow::Result<()> {
    println!(rt; "{} rules", rules.len())?;
    legend(rt, sheets)?;
    for (place, rule) in rules.iter().enumerate() {
        let number = place.saturating_add(1);
        let text = format!(in rt.alloc(); "{rule}")?;
        print!(rt; "{number:>3} {text:<80}")?;
        for sheet in sheets.iter().filter(|sheet| sheet.used) {
            bits(rt, sheet, place)?;
        }
        println!(rt; "")?;
    }
    Ok(())
}

// The eight words of a row.
fn words(rt: &HostRuntime, row: &Row) -> anyhow::Result<()> {
    for word in row.words() {
        if word == 0 {
            print!(rt; " 0")?;
        } else {
            print!(rt; " {word:016X}")?;
        }
    }
    Ok(())
}

fn reading(rt: &HostRuntime, reading: &Reading) -> anyhow::Result<()> {
    print!(rt; "{:<20}", reading.text)?;
    words(rt, &reading.row)?;
    if reading.same {
        println!(rt; "  as read top-down")?;
    } else {
        println!(rt; "  NOT as read top-down")?;
    }
    Ok(())
}

pub fn values(rt: &HostRuntime, sheets: &[Sheet]) -> anyhow::Result<()> {
    let mut count = 0usize;
    let mut same = 0usize;
    for sheet in sheets {
        for asked in &sheet.asked {
            reading(rt, asked)?;
        }
        let readings = sheet.asked.iter().chain(sheet.table.iter());
        let agreeing = readings.filter(|reading| reading.same).count();
        count = count
            .saturating_add(sheet.asked.len())
            .saturating_add(sheet.table.len());
        same = same.saturating_add(agreeing);
    }
    println!(rt; "{same} of {count} rows are as read top-down")?;
    if same < count {
        return Err(anyhow!("a column and the list disagree"));
    }
    Ok(())
}
