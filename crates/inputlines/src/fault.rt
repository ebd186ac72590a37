ghost use Rattle.std.specs.Prelude.{◌≡◌, ◌≤◌};
ghost use Rattle.inputlines.specs.Faults.{line_number};

// The first line of an input that is not of its form.
#[derive(Clone, Copy, Debug, PartialEq, Eq)]
pub enum BadLine {
    Name = 1,
    Key,
    Mark,
    Header,
    Message,
    // there are bytes behind the last line
    Behind,
}

impl BadLine {
    // The line's number, from 1 on; bytes behind the last line are line 6.
    pub fn number(self) -> u8
        ensures told { result ≡ line_number self }
        ensures few { result ≤ 6 }
    {
        self as u8
    }
}
