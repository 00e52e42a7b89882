//! Values of lines of pairs that have to be in quotes, since they are texts.

use std::fmt;

/// A text in quotes, in one line: a quote and a backslash have a backslash before them, and a control character is a space.
#[derive(Drop)]
pub struct Quoted<'a, T>(pub &'a T);

// What writes a text into such quotes.
#[derive(Drop)]
struct Escaping<'a, W> {
    inner: &'a mut fmt::Formatter<W>,
}

impl<W: fmt::Write> fmt::Write for Escaping<'_, W> {
    fn write_str(&mut self, text: &str) -> fmt::Result {
        for letter in text.chars() {
            if letter == '"' || letter == '\\' {
                self.inner.write_char('\\')?;
            }
            self.inner
                .write_char(if letter.is_control() { ' ' } else { letter })?;
        }
        Ok(())
    }
}

impl<T: fmt::Display> fmt::Display for Quoted<'_, T> {
    fn fmt<W: fmt::Write>(&self, f: &mut fmt::Formatter<W>) -> fmt::Result {
        f.write_char('"')?;
        let mut escaping = Escaping { inner: f };
        fmt::Write::write(&mut escaping, self.0)?;
        f.write_char('"')
    }
}
