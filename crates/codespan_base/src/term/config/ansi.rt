//! Styles as escape sequences.

ghost use Rattle.std.specs.Prelude.{◌≡◌, [], ◌∷◌};
ghost use Rattle.codespan_base.specs.Ansi.{color_number, ansi_bold, ansi_color, ansi_style};
ghost use Rattle.codespan_base.specs.Ansi.{ansi_reset};
ghost use Rattle.codespan_core.specs.WriterLaw.{AppendsBytes};

use crate::term::config::color::{Color, ColorSpec, WriteColor};
use codespan_core::term::config::writing::write_all;
use std::io;
use std::io::Write;

/// The byte that each escape sequence begins with.
const ESCAPE: u8 = 0x1b;

/// A [`WriteColor`] of escape sequences.
///
/// The sequences are those of `termcolor::Ansi`, which the Rust crate uses. A style is ESC `[0m`,
/// then ESC `[1m` for bold, then its colors: ESC `[3` for the text and ESC `[4` for the background,
/// each with the color's number from 0 to 7 or, where it is intense, with `8;5;` and that number
/// plus 8, and `m`. The reset is ESC `[0m`.
#[derive(Debug, Drop)]
pub struct Ansi<W> {
    inner: W,
}

impl<W: Write> Ansi<W> {
    ghost use Rattle.codespan_base.specs.StyleWriters.{ansi_inner};

    /// Returns a writer of escape sequences over `writer`.
    pub fn new(writer: W) -> Ansi<W>
        ensures { ansi_inner result ≡ writer }
    {
        Ansi { inner: writer }
    }

    /// Returns the inner writer.
    pub fn into_inner(self) -> W
        ensures { result ≡ ansi_inner self }
    {
        self.inner
    }
}

impl<W: Write> Write for Ansi<W> {
    ghost use Rattle.codespan_base.specs.StyleWriters.{ansi_inner};

    ghost contents = { λ a. W.contents (ansi_inner a) };

    fn write(&mut self, buf: &[u8]) -> io::Result<usize> {
        self.inner.write(buf)
    }

    fn flush(&mut self) -> io::Result<()> {
        self.inner.flush()
    }
}

impl<W: Write> WriteColor for Ansi<W> {
    ghost style_bytes = { ansi_style };

    ghost reset_bytes = { ansi_reset };

    fn set_color(&mut self, spec: &ColorSpec) -> io::Result<()> {
        write_reset(&mut self.inner)?;
        write_bold(&mut self.inner, spec.bold)?;
        write_color(&mut self.inner, b'3', spec.intense, spec.fg)?;
        write_color(&mut self.inner, b'4', spec.intense, spec.bg)
    }

    fn reset(&mut self) -> io::Result<()> {
        write_reset(&mut self.inner)
    }
}

/// Writes the sequence that turns all styles off.
#[tactic(auto, unfolding(crate::specs::Ansi::ansi_reset, crate::specs::Ansi::escape))]
fn write_reset<W: Write>(w: &mut W) -> io::Result<()>
    ensures { AppendsBytes (W.contents w.old) ansi_reset result (W.contents w.new) }
{
    write_all(w, b"\x1b[0m")
}

/// Writes the sequence that turns bold on, where `bold` is set.
#[tactic(auto, using(codespan_core::proofs::AppendsBytes::append_chains), unfolding(crate::specs::Ansi::ansi_bold, crate::specs::Ansi::escape))]
fn write_bold<W: Write>(w: &mut W, bold: bool) -> io::Result<()>
    ensures { AppendsBytes (W.contents w.old) (ansi_bold bold) result (W.contents w.new) }
{
    if bold {
        write_all(w, b"\x1b[1m")
    } else {
        Ok(())
    }
}

/// Writes the sequence that sets a color, where there is one; the plane is `3` for the text and `4`
/// for the background. The number of an intense color, plus 8, has one digit or two.
#[tactic(auto, using(codespan_core::proofs::AppendsBytes::append_chains, crate::proofs::AnsiLemmas::sequences))]
fn write_color<W: Write>(
    w: &mut W,
    plane: u8,
    intense: bool,
    color: Option<Color>,
) -> io::Result<()>
    ensures { AppendsBytes (W.contents w.old) (ansi_color (plane ∷ []) intense color)
        result (W.contents w.new) }
{
    let Some(color) = color else {
        return Ok(());
    };
    let n = color_number(color);
    if !intense {
        write_all(w, &[ESCAPE, b'[', plane, b'0' + n, b'm'])
    } else if n < 2 {
        let digit = b'8' + n;
        write_all(
            w,
            &[ESCAPE, b'[', plane, b'8', b';', b'5', b';', digit, b'm'],
        )
    } else {
        let digit = b'0' + (n - 2);
        write_all(
            w,
            &[
                ESCAPE, b'[', plane, b'8', b';', b'5', b';', b'1', digit, b'm',
            ],
        )
    }
}

/// Returns the number of a color, from 0 to 7.
fn color_number(color: Color) -> u8
    ensures { result ≡ color_number color }
{
    match color {
        Color::Black => 0,
        Color::Red => 1,
        Color::Green => 2,
        Color::Yellow => 3,
        Color::Blue => 4,
        Color::Magenta => 5,
        Color::Cyan => 6,
        Color::White => 7,
    }
}
