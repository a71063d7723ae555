// The worked example.
ghost use Rattle.std.specs.Prelude.{◌≡◌, ℕ, ◌<◌, slice_index};
ghost use Rattle.language.specs.Limits.{need, Within, in_force};
ghost use Rattle.language.specs.Meaning.{book_of, ending};
ghost use Rattle.language.specs.Sample.{sample, cells, comes};

// The need of the sample plan, which is within the limits.
pub fn sample_need() -> u32
    ensures value { result ≡ need sample }
    ensures within { Within in_force sample }
{
    55
}

// The ending of the sample plan.
// Stays (1): a rule of the project: a plan's endings have the numbers that the simulator's calls answer.
pub fn sample_ending() -> u8
    ensures { result ≡ ending comes }
{
    1
}

// What the sample plan leaves in the four cells.
pub fn sample_cells() -> [u32; 4]
    ensures { (a : ℕ) → a < 4 → slice_index result a ≡ (book_of comes).cells a }
{
    [1, 15, 25, 35]
}
