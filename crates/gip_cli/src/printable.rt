//! Texts that no terminal takes for commands.
use std::fmt::{self, Display, Write};

/// What is told, on one line. Each control character of it is an underscore, and so is each that is not seen and turns or
/// hides what stands beside it.
#[derive(Drop)]
pub struct Printable<'a, T>(pub &'a T);

impl<T: Display> Display for Printable<'_, T> {
    fn fmt<W: fmt::Write>(&self, f: &mut fmt::Formatter<W>) -> fmt::Result {
        write!(&mut Underscored(f), "{}", self.0)
    }
}

// Writes to another writer.
#[derive(Drop)]
struct Underscored<'a, W>(&'a mut W);

impl<W: fmt::Write> fmt::Write for Underscored<'_, W> {
    fn write_str(&mut self, text: &str) -> fmt::Result {
        for c in text.chars() {
            self.0.write_char(if is_printable(c) { c } else { '_' })?;
        }
        Ok(())
    }
}

// Whether a character is shown as it is.
fn is_printable(c: char) -> bool {
    !c.is_control() && !is_format(c)
}

// Whether a character is not seen, and turns or hides what stands beside it.
fn is_format(c: char) -> bool {
    matches!(
        c,
        '\u{61c}' | '\u{200b}'..='\u{200f}' | '\u{2028}'..='\u{202e}' | '\u{2060}'..='\u{206f}' | '\u{feff}'
    )
}
