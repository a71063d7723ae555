// Copying a module into the code store.
ghost use Rattle.std.specs.Prelude.{◌≡◌, ◌≤◌, true, map};
ghost use Rattle.std.specs.List.{range_with_len};
ghost use Rattle.isa.specs.Layout.{kind_at, word};
ghost use Rattle.machine.specs.Views.{kinds};

use isa::layout::{instruction_at, instruction_count};
use machine::code::Code;

// Fills the code store with the instructions of a module, decoded once.
pub(crate) fn fill_code(code: &mut Code, words: &[u32])
    requires { word words.now 0 ≤ 1024 }
    ensures { kinds code.new ≡ map (kind_at words.now) (range_with_len 0 (word words.now 0)) }
{
    code.clear();
    for place in 0..instruction_count(words) {
        let _ = code.push(instruction_at(words, place));
    }
}
