ghost use Rattle.std.specs.Prelude.{◌≡◌, ◌≤◌, length, take};
ghost use Rattle.rly_plan_syntax.specs.DocumentPaths.{begins_character, position_after};

use crate::key_path::Position;

/// The position after the first `count` bytes of a text. A column counts characters, and only a newline ends a
/// line.
pub fn position_after(text: &str, count: usize) -> Position
    requires within { count ≤ length text.now }
    ensures position { result ≡ position_after (take count text.now) }
{
    let mut place = Position { line: 1, column: 1 };
    for byte in &text.as_bytes()[..count] {
        place = place.after_byte(*byte);
    }
    place
}

impl Position {
    ghost use Rattle.std.specs.Prelude.{◌≡◌, ◌^◌, ◌<◌};
    ghost use Rattle.rly_plan_syntax.specs.DocumentPaths.{after_byte};

    /// The position after one more byte.
    fn after_byte(self, byte: u8) -> Position
        requires lines { self.line < 2 ^ 63 }
        requires columns { self.column < 2 ^ 63 }
        ensures { result ≡ after_byte self byte }
    {
        let Position { line, column } = self;
        if byte == b'\n' {
            return Position {
                line: line + 1,
                column: 1,
            };
        }
        if begins_character(byte) {
            return Position {
                line,
                column: column + 1,
            };
        }
        self
    }
}

/// Whether a byte begins a character of UTF-8.
fn begins_character(byte: u8) -> bool
    ensures { result ≡ begins_character byte }
{
    byte <= 127 || 192 <= byte
}
