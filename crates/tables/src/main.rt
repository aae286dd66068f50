// Reads a rule list, builds its eight columns, and prints the list with the columns' tables beside it.
// For each value that a line `show FIELD=VALUE` names, it prints the row that the column reads, and whether
// a plain top-down reading of the list gives the same bits.
#![tactic(auto)]

mod input;
mod named;
mod print;
mod samples;
mod sheet;
mod sheets;

use anyhow::anyhow;
use input::Input;

fn run(rt: &HostRuntime) -> anyhow::Result<()> {
    let input = Input::read(rt)?;
    if input.faults > 0 {
        return Err(anyhow!("the list is refused"));
    }
    let sheets = sheets::all(rt.alloc(), &input)?;
    print::list(rt, &input.rules, &sheets)?;
    print::values(rt, &sheets)
}

fn main(rt: HostRuntime) -> anyhow::Result<()> {
    run(&rt)
}
