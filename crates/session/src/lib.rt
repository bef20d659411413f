// The pupil's session: a record that is lent and changed where it lies. It holds one word, and one thin method types a key into it.
#![tactic(auto)]

ghost use Rattle.std.specs.Prelude.{◌≡◌};
ghost use Rattle.rules.specs.WhatComesBack.{step as step_of};
ghost use Rattle.session.specs.Sessions.{session_of};

use rules::{Outcome, Refusal, Word};

#[derive(Drop)]
pub struct Session {
    pub word: Word,
}

impl Session {
    // One key. Refusals: 8, 2, 3; the session is then as it was.
    pub fn type_key(&mut self, key: u8) -> Result<Outcome, Refusal>
        ensures { (result ≡ (step_of self.old.word key).answer) × (self.new ≡ session_of (step_of self.old.word key)) }
    {
        let t = step::step(self.word, key);
        self.word = t.word;
        t.answer
    }
}
