ghost use Rattle.std.specs.Prelude.{◌^◌, ◌≤◌};

use crate::supply::Supply;

pub mod raises;

// A mark store that keeps its mark as a number.
#[derive(Drop)]
pub struct Register {
    mark: u64,
    supply: Supply,
    // apart from the supply: a store that is off still tells what it had
    on: bool,
    ghost within: { mark ≤ 2 ^ 53 },
}
