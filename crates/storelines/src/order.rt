ghost use Rattle.std.specs.Prelude.{◌≡◌, Some};
ghost use Rattle.storelines.specs.Orders.{order_of, reply_answer, reply_text, order_answer, obeyed};

use crate::supply;
use refusals::Refusal;
use std::fmt;
use stores::fault::RaiseFault;
use stores::store::MarkStore;
use stores::supply::Supply;
use words::parts;

// What a store can be told.
#[derive(Clone, Copy, Debug, PartialEq, Eq)]
pub enum Order {
    Raise,
    Restart(Supply),
}

// What a store answered.
#[derive(Clone, Copy, Debug, PartialEq, Eq)]
pub enum Reply {
    // the mark, where the raise completed
    Raised(Result<u64, RaiseFault>),
    Restarted,
}

// As `raised from 3`, `refused 22` and `restarted`.
impl fmt::Display for Reply {
    ghost output = { λ r. Some (reply_text r) };

    fn fmt<W: fmt::Write>(&self, f: &mut fmt::Formatter<W>) -> fmt::Result {
        match self {
            Reply::Raised(Ok(mark)) => write!(f, "raised from {mark}"),
            Reply::Raised(Err(fault)) => {
                let number = fault.number();
                write!(f, "refused {number}")
            }
            Reply::Restarted => f.write_str("restarted"),
        }
    }
}

impl Order {
    // `raise`, or `restart`, a space and a supply; `None` for any other line. No `FromStr`, which would want an error type that says no
    // more than `None`.
    pub fn from_line(line: &str) -> Option<Order>
        ensures { result ≡ order_of line.now }
    {
        if line == "raise" {
            return Some(Order::Raise);
        }
        match parts(line)? {
            ("restart", rest) => supply::from_text(rest).map(Order::Restart),
            _ => None,
        }
    }

    // Does what is told, to any mark store.
    pub fn give<S: MarkStore>(self, store: &mut S) -> Reply
        ensures answer { reply_answer result ≡ order_answer self (S.meaning store.old) }
        ensures after { S.meaning store.new ≡ obeyed self (S.meaning store.old) }
    {
        match self {
            Order::Raise => Reply::Raised(store.raise()),
            Order::Restart(supply) => {
                store.restart(supply);
                Reply::Restarted
            }
        }
    }
}
