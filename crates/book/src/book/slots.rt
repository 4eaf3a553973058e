// The state of one number, read and written.
ghost use Rattle.std.specs.Prelude.{◌≡◌, ℕ, true};
ghost use Rattle.book.specs.Calls.{changed};
ghost use Rattle.book.specs.States.{is_number, is_sound, state_in};

use super::Book;
use crate::check::is_number;
use crate::state::State;

impl Book {
    // Free where there is no such number.
    pub(super) fn state(&self, number: u8) -> State
        ensures { result ≡ state_in self.now.states number }
    {
        if !is_number(number) {
            return State::Free;
        }
        self.states[usize::from(number) - 1]
    }

    // What the state holds is in range, so the book stays sound.
    pub(super) fn put(&mut self, number: u8, state: State)
        requires number { is_number number ≡ true }
        requires sound { is_sound self.old.made state ≡ true }
        ensures states { (n : ℕ) → state_in self.new.states n ≡ changed number state (state_in self.old.states) n }
        ensures count { self.new.made ≡ self.old.made }
    {
        self.states[usize::from(number) - 1] = state;
    }
}
