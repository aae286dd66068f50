// The lines of the input: rules, values to show, comments.
use crate::named::Named;
use notation::rule::Rule;
use notation::value::FieldValue;
use std::fmt::Display;
use std::io;
use std::io::{BufRead, BufReader};
use std::str::FromStr;

#[derive(Drop)]
pub struct Input {
    pub rules: Vec<Rule>,
    pub values: Vec<Named<FieldValue>>,
    pub faults: usize,
}

impl Input {
    // Reads all lines, and prints what is wrong with those that are refused.
    pub fn read(rt: &HostRuntime) -> anyhow::Result<Input> {
        let heap = rt.alloc();
        let mut input = Input {
            rules: Vec::new(heap),
            values: Vec::new(heap),
            faults: 0,
        };
        for (number, line) in (1..).zip(BufReader::new(heap, rt.stdin())?.lines(heap)) {
            input.take(rt, number, line?.as_str().trim())?;
        }
        Ok(input)
    }

    fn take(&mut self, rt: &HostRuntime, number: usize, line: &str) -> anyhow::Result<()> {
        if line.is_empty() || line.starts_with('#') {
            return Ok(());
        }
        match line.strip_prefix("show ") {
            Some(word) => self.take_value(rt, number, word.trim()),
            None => self.take_rule(rt, number, line),
        }
    }

    fn take_value(&mut self, rt: &HostRuntime, number: usize, word: &str) -> anyhow::Result<()> {
        match word.parse::<FieldValue>() {
            Ok(value) => {
                let text = String::from_str(rt.alloc(), word)?;
                self.values.push(Named { text, value })?;
            }
            Err(fault) => self.refuse(rt, number, format_args!("{word} is {fault}"))?,
        }
        Ok(())
    }

    fn take_rule(&mut self, rt: &HostRuntime, number: usize, line: &str) -> anyhow::Result<()> {
        match line.parse::<Rule>() {
            Ok(rule) => self.rules.push(rule)?,
            Err(fault) => self.refuse(rt, number, fault)?,
        }
        Ok(())
    }

    fn refuse(
        &mut self,
        rt: &HostRuntime,
        number: usize,
        fault: impl Display + Drop,
    ) -> io::Result<()> {
        self.faults = self.faults.saturating_add(1);
        println!(rt; "line {number}: {fault}")
    }
}
