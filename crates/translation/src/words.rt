// The words of a plan's code pass the check.
ghost use Rattle.std.specs.Prelude.{◌≡◌, ◌+◌, ◌*◌, length};
ghost use Rattle.language.specs.Sample.{sample};
ghost use Rattle.rules.specs.Module.{size};
ghost use Rattle.translation.specs.Compile.{compiled};
ghost use Rattle.translation.specs.Written.{WordsPass};

// How many words the sample plan's module has. The words of the code of every plan within the limits
// are read as that code, and pass the check.
pub fn words_pass() -> u32
    ensures sample { result ≡ 2 + 2 * size (compiled sample) + 9 * length (compiled sample).blocks }
    ensures every { WordsPass }
{
    139
}
