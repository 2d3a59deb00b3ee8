//! The actor that is open.
use crate::machine_seat::MachineSeat;
use crate::session_seat::SessionSeat;

/// The actor that is open.
#[derive(Drop)]
pub enum Seated {
    Nobody,
    Session(SessionSeat),
    Machine(MachineSeat),
}
