use std::env::FillError;
use std::io::ErrorKind;
use std::rt::Env;
use std::{env, io};

/// The words of a command. Where one isn't UTF-8 they are none, since no command has such a word.
pub fn words(rt: &(impl Env + AllocGlobal)) -> io::Result<Vec<String>> {
    match env::args(&(AfterName(rt), rt.alloc())) {
        Ok(words) => Ok(words.collect(rt.alloc())?),
        Err(error) if error.kind() == ErrorKind::InvalidData => Ok(Vec::new(rt.alloc())),
        Err(error) => Err(error),
    }
}

/// The arguments behind the program's name, which is the system's and need not be UTF-8.
#[derive(Clone, Copy)]
struct AfterName<'a, R>(&'a R);

impl<R: Env> Env for AfterName<'_, R> {
    fn arg(&self, at: usize, buffer: &mut [u8]) -> Result<usize, FillError> {
        self.0.arg(at.saturating_add(1), buffer)
    }

    fn var(&self, _name: &str, _buffer: &mut [u8]) -> Result<usize, FillError> {
        Err(FillError::NotPresent)
    }

    fn var_at(&self, _at: usize, _buffer: &mut [u8]) -> Result<usize, FillError> {
        Err(FillError::NotPresent)
    }
}
