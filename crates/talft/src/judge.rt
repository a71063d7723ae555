// The compiler and the check, with room made once.
use checker::check::Checker;
use checker::fault::CheckFault;
use compiler::fault::CompileFault;
use compiler::tables::Compiler;
use isa::limits::MODULE_WORDS;
use std::alloc::{AllocError, Global};

#[derive(Drop)]
pub struct Tools {
    compiler: Compiler,
    pub checker: Checker,
}

// Why a plan or a module does not pass.
#[derive(Clone, Copy)]
pub enum Fault {
    Plan(CompileFault),
    Module(CheckFault),
}

impl Tools {
    pub fn new(heap: Global) -> Result<Tools, AllocError> {
        let compiler = Compiler::new(heap)?;
        let checker = Checker::new(heap)?;
        Ok(Tools { compiler, checker })
    }

    // The check's verdict on words.
    pub fn check(&mut self, words: &[u32]) -> Result<(), Fault> {
        self.checker.check(words).map_err(Fault::Module)?;
        Ok(())
    }

    // Compiles a text, and has its words checked; they stand at the front of the output.
    // Stays (6): a rule of the project: the compiler fills words that its caller owns.
    fn translate(&mut self, text: &[u8], out: &mut [u32]) -> Result<usize, Fault> {
        let count = self.compiler.compile(text, out).map_err(Fault::Plan)?;
        let words: &[u32] = out;
        let count = count.min(words.len());
        self.check(&words[..count])?;
        Ok(count)
    }

    // The words of a plan's module, which passed the check.
    pub fn compiled(
        &mut self,
        heap: Global,
        text: &[u8],
    ) -> Result<Result<Vec<u32>, Fault>, AllocError> {
        let mut words = vec![in heap; 0u32; MODULE_WORDS]?;
        let judged = self.translate(text, words.as_mut_slice());
        Ok(judged.map(|count| {
            words.truncate(count);
            // A script keeps the words of each plan: they keep no more room than they fill.
            words.shrink_to_fit();
            words
        }))
    }
}
