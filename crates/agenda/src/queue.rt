// The waiting rules in their order, as a ring of numbers, and the same as a set.
ghost use Rattle.std.specs.Prelude.{◌≡◌, ℕ, ◌<◌, ◌≤◌, true};
ghost use Rattle.rules.specs.Banks.{in_set};
ghost use Rattle.sessions.specs.Agendas.{member};
ghost use Rattle.agenda.specs.Rings.{queue, is_apart};

use rules::sets::Set;

// The rules stand from place `first` on, and go on at place 0 behind the last place. No queue of the library: all of
// them ask for memory, and a list of fixed capacity is not `Copy`, as a session is, and moves all the others when its first is taken.
// Not compared: the same rules may wait at other places.
#[derive(Clone, Copy, Debug)]
pub struct Agenda {
    pub(crate) rules: [u8; 256],
    pub(crate) first: usize,
    pub(crate) len: usize,
    pub(crate) waiting: Set,
    ghost low: { first < 256 },
    ghost few: { len ≤ 256 },
    ghost apart: { is_apart (queue rules first len) ≡ true },
    ghost tells: { (k : ℕ) → in_set waiting k ≡ member k (queue rules first len) },
}
