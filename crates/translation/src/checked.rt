// The code of a plan keeps the rules of the check.
ghost use Rattle.std.specs.Prelude.{◌≡◌};
ghost use Rattle.language.specs.Sample.{sample};
ghost use Rattle.rules.specs.Module.{size};
ghost use Rattle.translation.specs.Checked.{CodeChecked};
ghost use Rattle.translation.specs.Compile.{compiled};

// How many instructions the sample plan's code has. The code of every plan within the limits has as
// many as the plan needs, is laid out as a module, and keeps every rule of the check.
pub fn code_checked() -> u32
    ensures sample { result ≡ size (compiled sample) }
    ensures every { CodeChecked }
{
    55
}
