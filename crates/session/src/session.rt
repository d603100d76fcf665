// A memory, and the drawn answers that a script has not yet finished or put back.
ghost use Rattle.std.specs.Prelude.{◌≡◌, ℕ, ◌<◌, true};
ghost use Rattle.system.specs.Parked.{is_parked};
ghost use Rattle.session.specs.Drawn.{drawn_at};

use system::{Parking, System};

#[derive(Drop)]
pub struct Session<N> {
    system: System<N>,
    parking: Parking,
    ghost parked: { ((n p : ℕ) → is_parked parking.places n p ≡ drawn_at system.boards n p) },
    ghost at_work: { ((n p : ℕ) → drawn_at system.boards n p ≡ true → n < system.nodes) },
}

mod begin;
mod calls;
mod drawing;
mod script_lines;
