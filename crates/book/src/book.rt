// The book itself: the state of each number, and how many declarations were made.
ghost use Rattle.std.specs.Prelude.{◌≡◌, ℕ, ◌≤◌, true};
ghost use Rattle.book.specs.States.{is_sound, state_in};

use crate::state::State;

mod calls;
mod claims;
mod slots;
mod totals;

// By number, from 1 to 16.
#[derive(Drop)]
pub struct Book {
    states: [State; 16],
    made: u16,
    ghost few: { made ≤ 32 },
    ghost sound: { (n : ℕ) → is_sound made (state_in states n) ≡ true },
}
