// The standard streams over the kit's `io`, as std's traits want them: of the system nothing is assumed but its `read` and `write`.
use std::fmt;
use std::fmt::{Display, Write};
use std::io::{Error, ErrorKind, Read, Result};

const STDIN_FILENO: i32 = 0;

const STDOUT_FILENO: i32 = 1;

const STDERR_FILENO: i32 = 2;

// The end of the input, a read that fails and one that a signal interrupts are the same to a reader.
#[derive(Clone, Copy, Drop)]
pub struct Input;

impl Read for Input {
    fn read(&mut self, room: &mut [u8]) -> Result<usize> {
        Ok(io::read_full(STDIN_FILENO, room))
    }

    // Not std's, which reads again behind a short read: that one has met the end already.
    fn read_exact(&mut self, room: &mut [u8]) -> Result<()> {
        if io::read_full(STDIN_FILENO, room) < room.len() {
            return Err(Error::from(ErrorKind::UnexpectedEof));
        }
        Ok(())
    }
}

// Of a write that fails no more is told than that it did.
#[derive(Clone, Copy, Drop)]
pub enum Output {
    Standard,
    Error,
}

impl Output {
    fn is_written(self, bytes: &[u8]) -> bool {
        match self {
            Output::Standard => io::write_all(STDOUT_FILENO, bytes),
            Output::Error => io::write_all(STDERR_FILENO, bytes),
        }
    }
}

fn told(is_written: bool) -> Result<()> {
    if is_written {
        return Ok(());
    }
    Err(Error::from(ErrorKind::WriteZero))
}

impl Write for Output {
    fn write_str(&mut self, text: &str) -> fmt::Result {
        if self.is_written(text.as_bytes()) {
            return Ok(());
        }
        Err(fmt::Error)
    }
}

impl Print for Output {
    fn print<D: Display + Drop>(&self, value: D) -> Result<()> {
        let mut stream = *self;
        told(write!(stream, "{value}").is_ok())
    }

    fn println<D: Display + Drop>(&self, value: D) -> Result<()> {
        let mut stream = *self;
        told(writeln!(stream, "{value}").is_ok())
    }

    fn write_all(&self, bytes: &[u8]) -> Result<()> {
        told(self.is_written(bytes))
    }
}

// Standard output of the programs that show cases: a piece that cannot be written is left out, and what follows is written all the same.
#[derive(Clone, Copy, Drop)]
pub struct Screen;

impl Write for Screen {
    fn write_str(&mut self, text: &str) -> fmt::Result {
        let _ = Output::Standard.is_written(text.as_bytes());
        Ok(())
    }
}

impl Print for Screen {
    fn print<D: Display + Drop>(&self, value: D) -> Result<()> {
        let mut screen = *self;
        told(write!(screen, "{value}").is_ok())
    }

    fn println<D: Display + Drop>(&self, value: D) -> Result<()> {
        let mut screen = *self;
        told(writeln!(screen, "{value}").is_ok())
    }

    fn write_all(&self, bytes: &[u8]) -> Result<()> {
        let _ = Output::Standard.is_written(bytes);
        Ok(())
    }
}
