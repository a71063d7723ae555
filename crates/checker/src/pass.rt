// Words that passed the check.
ghost use Rattle.rules.specs.Limits.{in_force};
ghost use Rattle.rules.specs.Words.{Passes};

// A caller's proof that words passed, which lives as long as nothing writes to them.
#[derive(Clone, Copy)]
pub struct Pass<'m> {
    words: &'m [u32],
    ghost passed: { Passes in_force words.now },
}

mod points;
