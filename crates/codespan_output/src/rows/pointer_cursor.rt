//! The pointers of a line, and a cursor over them.

ghost use Rattle.std.specs.Prelude.{List};
ghost use Rattle.std.specs.Iterator.{YieldsFirst};
ghost use Rattle.codespan_output.specs.declared.rows.pointer_cursor.Pointer as pointer;

use codespan_core::diagnostic::LabelStyle;

/// The pointer under a character from which labels hang.
#[derive(Clone, Copy)]
pub struct Pointer {
    /// The byte index in the line at which the character begins.
    pub byte_index: usize,
    /// The column of the pointer: that of the character's first cell.
    pub column: u128,
    /// The column after the pointer: the next one, or the same where the character has no cell.
    pub end_column: u128,
    /// The style that takes precedence among those of the labels that hang from it.
    pub style: LabelStyle,
}

/// A cursor over the pointers of a line, from left to right.
pub trait PointerCursor: Drop {
    /// The pointers that it has not returned yet.
    ghost remaining: { Self → List pointer.Pointer };

    /// Returns the next pointer, or `None` after the last one.
    fn next_pointer(&mut self) -> Option<Pointer>
        ensures { YieldsFirst remaining self.old result self.new };
}
