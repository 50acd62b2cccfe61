// What a session remembers between its calls; the store and the bank are given to each of them. Not compared, as agendas are not.
ghost use Rattle.std.specs.Prelude.{◌≤◌};

use agenda::Agenda;
use sessions::Standing;

#[derive(Clone, Copy, Debug)]
pub struct Session {
    // the rules that wait
    pub(crate) agenda: Agenda,
    pub(crate) standing: Standing,
    // how many saves are the session's own
    pub(crate) saves: usize,
    ghost few: { saves ≤ 16 },
}
