ghost use Rattle.std.specs.Prelude.{◌≡◌, IfOk};
ghost use Rattle.std.specs.Option.{option_map};
ghost use Rattle.words.specs.Splits.{parted};
ghost use Rattle.storelines.specs.Starts.{start_told, start_of, register_parts, strip_parts};

use crate::supply;
use std::alloc::{AllocError, Global};
use stores::supply::Supply;
use words::parts;

// `sealtext` has the same of its own lines; no crate below both knows of lines
const MARK_DIGITS: usize = 14;

// A store to start with.
#[derive(Debug, PartialEq, Eq, Drop)]
pub enum Start {
    Register { mark: u64, supply: Supply },
    Strip { cells: Vec<u8>, supply: Supply },
}

impl Start {
    // The store that a line tells; `None` for any other line.
    // No `FromStr`: the cells of a strip want the heap, for which that has no place.
    pub fn from_line(heap: Global, line: &str) -> Result<Option<Start>, AllocError>
        ensures { IfOk result (λ o. option_map start_told o ≡ start_of line.now) }
    {
        match parts(line) {
            Some(("register", rest)) => Ok(Start::register(rest)),
            Some(("strip", rest)) => Start::strip(heap, rest),
            _ => Ok(None),
        }
    }

    fn register(text: &str) -> Option<Start>
        ensures { option_map start_told result ≡ register_parts (parted text.now) }
    {
        let (mark, rest) = parts(text)?;
        Some(Start::Register {
            mark: digits::number(mark.as_bytes(), MARK_DIGITS)? as u64,
            supply: supply::from_text(rest)?,
        })
    }

    fn strip(heap: Global, text: &str) -> Result<Option<Start>, AllocError>
        ensures { IfOk result (λ o. option_map start_told o ≡ strip_parts (parted text.now)) }
    {
        let Some((cells, rest)) = parts(text) else {
            return Ok(None);
        };
        // what follows bad cells is not read
        let Some(cells) = digits::bytes(heap, cells.as_bytes())? else {
            return Ok(None);
        };
        Ok(supply::from_text(rest).map(|supply| Start::Strip { cells, supply }))
    }
}
