// Standard output and standard error, for texts made by format_args!.
use crate::{STDERR_FILENO, STDOUT_FILENO};
use std::fmt;
use std::fmt::Write;

// Where a text goes, and whether all parts of it so far were taken.
#[derive(Clone, Copy)]
struct Output {
    to: i32,
    whole: bool,
}

impl Write for Output {
    // A part is written whether or not those before it were taken: a line feed, too, behind a word that was not.
    fn write_str(&mut self, s: &str) -> fmt::Result {
        let taken = io::write_all(self.to, s.as_bytes());
        self.whole = self.whole & taken;
        Ok(())
    }
}

// Two names, as the library's own are: each call says by name where the text goes, and none by a number.

// Writes a text to standard output, and answers whether all of it was taken.
pub fn print(text: impl fmt::Display + Drop) -> bool {
    write_to(STDOUT_FILENO, text)
}

// The same to standard error.
pub fn eprint(text: impl fmt::Display + Drop) -> bool {
    write_to(STDERR_FILENO, text)
}

fn write_to(to: i32, text: impl fmt::Display + Drop) -> bool {
    let mut output = Output { to, whole: true };
    let _ = write!(output, "{text}");
    output.whole
}
