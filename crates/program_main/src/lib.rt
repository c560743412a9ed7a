//! What the programs share: the words of the command line, files and standard output, and the exit code of a status.
#![tactic(auto)]

use base_io::{FileStore, StdSink};
use std::alloc::{AllocError, Global};
use std::process::ExitCode;
use std::rt::{Env, Files};
use std::{env, io};

/// The status where there is no memory to begin with.
const NO_MEMORY: u8 = 6;

/// What a command of the command line works with: its words, real files, and standard output.
#[derive(Drop)]
pub struct Surroundings<R: Files + Print + Drop> {
    pub words: Vec<String>,
    pub store: FileStore<R>,
    pub sink: StdSink<R>,
}

/// The words after the program's name.
///
/// # Errors
///
/// Where one of them is no text, or memory was lacking.
pub fn texts(rt: &(impl Env + AllocGlobal)) -> io::Result<Vec<String>> {
    let mut words = Vec::new(rt.alloc());
    for word in env::args(rt)?.skip(1) {
        words.push(word)?;
    }
    Ok(words)
}

/// The words after the program's name. Words of which one is no text aren't right, and neither are none: so these are none then.
///
/// # Errors
///
/// Where memory was lacking.
pub fn words(rt: &(impl Env + AllocGlobal)) -> Result<Vec<String>, AllocError> {
    let alloc: Global = rt.alloc();
    match texts(rt) {
        Ok(words) => Ok(words),
        Err(e) if e.kind() == io::ErrorKind::OutOfMemory => Err(AllocError),
        Err(_) => Ok(Vec::new(alloc)),
    }
}

/// The words, the files and the standard output of this runtime.
///
/// # Errors
///
/// Where memory was lacking.
pub fn surroundings_of<R>(rt: &R) -> Result<Surroundings<R>, AllocError>
where
    R: Env + Files + Print + AllocGlobal + Clone + Drop,
{
    let alloc: Global = rt.alloc();
    Ok(Surroundings {
        words: words(rt)?,
        store: FileStore::new(alloc, rt.clone()?),
        sink: StdSink::new(rt.clone()?),
    })
}

/// The exit code of a status, or of none for lack of memory.
pub fn exit_code(status: Result<u8, AllocError>) -> ExitCode {
    match status {
        Ok(status) => ExitCode::from(status),
        Err(_) => ExitCode::from(NO_MEMORY),
    }
}
