// The rules that wait for a run, first come first, none twice.
#![tactic(auto)]

ghost use Rattle.std.specs.Prelude.{◌≡◌, ℕ, ◌+◌, ◌%◌, ◌<◌, ◌≤◌, min, Bool, true, false, not, ◌&&◌, [], ◌∷◌, ◌++◌, MatchOption, ◌==◌};
ghost use Rattle.rules.specs.Banks.{in_set};
ghost use Rattle.sessions.specs.Agendas.{member, upto, joined};
ghost use Rattle.agenda.specs.Meaning.{waits};

pub mod queue;

pub use queue::Agenda;
use rules::sets;
use rules::sets::Set;

impl Agenda {
    // No rule waits.
    pub fn new() -> Agenda
        ensures { waits result ≡ [] }
    {
        Agenda {
            rules: [0; 256],
            first: 0,
            len: 0,
            waiting: sets::none(),
        }
    }

    // The rules below n wait, ascending; no rule has a number from 256 on.
    pub fn all(n: usize) -> Agenda
        ensures { waits result ≡ upto (min n 256) }
    {
        let mut agenda = Agenda::new();
        for rule in 0..n.min(256) {
            agenda.push(rule);
        }
        agenda
    }

    // The rule that waits longest, which waits no more.
    pub fn pop(&mut self) -> Option<usize>
        ensures { MatchOption result ((waits self.old ≡ []) × (waits self.new ≡ [])) (λ i. (waits self.old ≡ i ∷ waits self.new) × (i < 256)) }
    {
        if self.len == 0 {
            return None;
        }
        Some(self.shift())
    }

    // The rules of a set that do not wait join the end, ascending.
    pub fn join(&mut self, woken: Set)
        ensures { waits self.new ≡ joined (waits self.old) (in_set woken) }
    {
        let new = self.fresh(woken);
        self.append(new);
    }

    // No rule waits any more.
    pub fn clear(&mut self)
        ensures { waits self.new ≡ [] }
    {
        *self = Agenda::new();
    }

    // The members of a set that do not wait.
    fn fresh(&self, woken: Set) -> Set
        ensures members { (k : ℕ) → in_set result k ≡ (in_set woken k && not (member k (waits self.now))) }
        ensures none { (k : ℕ) → in_set result k ≡ true → member k (waits self.now) ≡ false }
    {
        sets::minus(woken, self.waiting)
    }

    // The rules of a set of which none waits join the end, ascending.
    fn append(&mut self, new: Set)
        requires none { (k : ℕ) → in_set new k ≡ true → member k (waits self.old) ≡ false }
        ensures { (s : ℕ → Bool) → ((k : ℕ) → in_set new k ≡ (s k && not (member k (waits self.old)))) → waits self.new ≡ joined (waits self.old) s }
    {
        for rule in sets::members(new) {
            self.push(rule);
        }
    }

    // The place that lies k places behind the first rule.
    fn place(&self, k: usize) -> usize
        requires { k ≤ 256 }
        ensures { result ≡ (self.now.first + k) % 256 }
    {
        (self.first + k) % 256
    }

    // Puts a rule that does not wait behind all that do. There is a place for it: at most 255 others wait.
    fn push(&mut self, rule: usize)
        requires below { rule < 256 }
        requires new { member rule (waits self.old) ≡ false }
        ensures { waits self.new ≡ waits self.old ++ rule ∷ [] }
    {
        let at = self.place(self.len);
        self.rules[at] = rule as u8;
        self.len += 1;
        sets::insert(&mut self.waiting, rule);
    }

    // The waiting rules but one.
    fn others(&self, rule: usize) -> Set
        ensures { (k : ℕ) → in_set result k ≡ (in_set self.now.waiting k && not (k == rule)) }
    {
        let mut set = self.waiting;
        sets::remove(&mut set, rule);
        set
    }

    // Takes the first rule, where one waits.
    fn shift(&mut self) -> usize
        requires some { 0 < self.old.len }
        ensures first { waits self.old ≡ result ∷ waits self.new }
        ensures below { result < 256 }
    {
        let rule = self.rules[self.first] as usize;
        let others = self.others(rule);
        self.first = self.place(1);
        self.len -= 1;
        self.waiting = others;
        rule
    }
}
