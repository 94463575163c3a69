//! The words of an example, as a process has them.

use std::env::{Env, FillError};

/// The words of a command, with one space between them, behind a program's name that isn't UTF-8. The word `\xFF` stands for that one
/// byte, which isn't UTF-8 either.
#[derive(Clone, Copy)]
pub(crate) struct Given<'c> {
    pub(crate) command: &'c str,
}

impl Given<'_> {
    /// The word of this number. Number 0 is the program's name.
    fn word(&self, number: usize) -> Option<&[u8]> {
        if number == 0 {
            return Some(b"\xFF");
        }
        match self.command.split(' ').nth(number - 1) {
            Some("\\xFF") => Some(b"\xFF"),
            Some(word) => Some(word.as_bytes()),
            None => None,
        }
    }
}

impl Env for Given<'_> {
    fn arg(&self, i: usize, buf: &mut [u8]) -> Result<usize, FillError> {
        let Some(word) = self.word(i) else {
            return Err(FillError::NotPresent);
        };
        let Some(room) = buf.get_mut(..word.len()) else {
            return Err(FillError::TooLong);
        };
        room.copy_from_slice(word);
        Ok(word.len())
    }

    fn var(&self, _name: &str, _buf: &mut [u8]) -> Result<usize, FillError> {
        Err(FillError::NotPresent)
    }

    fn var_at(&self, _i: usize, _buf: &mut [u8]) -> Result<usize, FillError> {
        Err(FillError::NotPresent)
    }
}
