//! Defines the rule of a board's table, and the postconditions of its steps: the word is the count of numbers handed
//! out, and each number below it is in exactly one seat's list.
ghost use Rattle.esr_board.specs.Claims.{IsKept, first_hand, Claimed, with_one_less, one_pass, joined, spent};

use crate::hand::{BoardSize, Hand};
use atomic_table::{Join, Play, Split, TableRule};

/// Each number below the word was drawn once, and the seats hold the passes between them.
pub struct Fair;

impl TableRule<(), Hand, BoardSize> for Fair {
    ghost holds = { IsKept };

    ghost first = { first_hand };
}

/// A seat draws the number that it finds.
pub(crate) struct Claim;

impl Play<(), Hand> for Claim {
    ghost then = { Claimed };
}

/// A seat passes one of its passes to a new seat.
pub(crate) struct Admit;

impl Split<Hand> for Admit {
    ghost left = { with_one_less };

    ghost right = { one_pass };
}

/// A seat takes over the claims and passes of another.
pub(crate) struct Gather;

impl Join<Hand> for Gather {
    ghost both = { joined };

    ghost spent = { spent };
}
