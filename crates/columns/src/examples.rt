// The worked examples, proved of the definitions that the columns' contracts use.
ghost use Rattle.std.specs.Prelude.{◌≡◌};
ghost use Rattle.columns.specs.Examples.{AllWorked};

// How many lines the table of worked examples has. That each of them holds is this function's contract.
pub fn worked_examples() -> usize
    ensures all { AllWorked }
    ensures result { result ≡ 8 }
{
    8
}
