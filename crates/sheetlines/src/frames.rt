// The widths of a ciphertext's lines.
ghost use Rattle.std.specs.Prelude.{◌≡◌};
ghost use Rattle.std.specs.Iterator.{YieldsFirst, item_count};
ghost use Rattle.sheetlines.specs.Sheets.{frames_of};

use crate::layout::{FIRST_FRAME, LATER_FRAME};
use std::marker::Model;

// How many bytes of a ciphertext stand on each line that is left, in order: a frame a line.
#[derive(Debug, Drop)]
pub struct Frames {
    left: usize,
    room: usize,
}

impl Model for Frames {
    ghost use Rattle.std.specs.Prelude.{ℕ, ◌<◌, List};
    ghost use Rattle.sheetlines.specs.Sheets.{frames};

    ghost Value = { List ℕ };

    ghost view = { λ f. frames f.left f.room f.left };

    ghost invariant = { λ f. 0 < f.room };
}

impl Frames {
    // The widths for a ciphertext of so many bytes.
    pub fn of(message_len: usize) -> Frames
        ensures { result ≡ frames_of message_len }
    {
        Frames {
            left: message_len,
            room: FIRST_FRAME,
        }
    }
}

impl Iterator for Frames {
    type Item = usize;

    ghost next_gives = { YieldsFirst (λ rest. rest) };

    ghost remaining = { item_count (λ rest. rest) };

    fn next(&mut self) -> Option<usize> {
        if self.left == 0 {
            return None;
        }
        let width = self.left.min(self.room);
        self.left -= width;
        self.room = LATER_FRAME;
        Some(width)
    }
}
