// The run of a plan's code does what the plan means.
ghost use Rattle.std.specs.Prelude.{◌≡◌};
ghost use Rattle.language.specs.Sample.{sample, cells, writable};
ghost use Rattle.translation.specs.Runs.{CodeRuns};
ghost use Rattle.translation.specs.Steps.{steps};

// How many steps the sample plan's code takes over its cells. Over all cells the code of every plan
// within the limits makes the plan's stores in order, and comes to its ending after so many steps.
pub fn code_runs() -> u32
    ensures sample { result ≡ steps writable sample cells }
    ensures every { CodeRuns }
{
    123
}
