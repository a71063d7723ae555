// The words that lines begin with.
ghost use Rattle.std.specs.Prelude.{◌≡◌};
ghost use Rattle.script.specs.Commands.{verb_of};

#[derive(Clone, Copy)]
pub(crate) enum Verb {
    Cells,
    Window,
    Plan,
    Module,
    Load,
    Put,
    Run,
    Strike,
    Look,
    Probe,
    Show,
    Clear,
}

// The verb that letters are, of lines that say what there is and of calls.
pub(crate) fn verb_of(letters: &[u8]) -> Option<Verb>
    ensures { result ≡ verb_of letters.now }
{
    match letters {
        b"cells" => Some(Verb::Cells),
        b"window" => Some(Verb::Window),
        b"plan" => Some(Verb::Plan),
        b"module" => Some(Verb::Module),
        b"load" => Some(Verb::Load),
        b"put" => Some(Verb::Put),
        b"run" => Some(Verb::Run),
        b"strike" => Some(Verb::Strike),
        b"look" => Some(Verb::Look),
        b"probe" => Some(Verb::Probe),
        b"show" => Some(Verb::Show),
        b"clear" => Some(Verb::Clear),
        _ => None,
    }
}
