// The members of a set one after another.
ghost use Rattle.std.specs.Iterator.{YieldsFirst, item_count};
ghost use Rattle.rules.specs.Sets.{members_left};

use crate::sets;
use crate::sets::Set;

// Those from `from` on are still to come, ascending.
#[derive(Clone, Copy, PartialEq, Eq, Debug)]
pub struct Members {
    pub(crate) set: Set,
    pub(crate) from: usize,
}

impl Iterator for Members {
    type Item = usize;

    ghost next_gives = { YieldsFirst members_left };

    ghost remaining = { item_count members_left };

    fn next(&mut self) -> Option<usize> {
        let k = sets::next(self.set, self.from)?;
        self.from = k + 1;
        Some(k)
    }
}
