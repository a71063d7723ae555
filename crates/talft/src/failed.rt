// Why the tool ends with an error.
use std::alloc::AllocError;
use std::io;
use thiserror::Error;

#[derive(Debug, Drop, Error)]
pub enum Failed {
    #[error("standard error has been told")]
    Told,
    #[error("not enough memory")]
    Memory(#[from(alloc)] AllocError),
    // Standard input or output, or the call's words.
    #[error("cannot read or write")]
    Channel(#[from] io::Error),
}
