//! Stamps for the entries of all actors, and notes that carry messages between actors.
//!
//! All actors share one word. A `StageSeat` is the right to make the entries of one actor. `Stage::act` stamps an
//! entry: one atomic step adds 1 to the word, and the stamp is the old value. So a stamp is a place in one history of
//! all actors. A `Note` carries the message of an entry to another seat, whose later entries have greater stamps.
//!
//! The contract of the crate: each call says what the seat knows after it, and `close_all` says of all seats that their
//! stamps are the numbers below its result, that each used message was made by an earlier entry and used once, and
//! that no seat has seen more entries of an actor than there are. The rule that keeps this stands in `specs/Rule.antt`.
#![tactic(auto)]

mod arrive;
mod deal;
mod entry_count;
mod gather;
mod gathered_seat;
mod held;
mod leave;
mod message;
mod note;
mod note_view;
mod rule;
mod said;
mod seat_view;
mod sent_note;
mod spent;
mod stage;
mod stage_name;
mod stage_seat;
mod stamp;
mod stamped;
mod stamped_entry;
mod view;

pub use entry_count::EntryCount;
pub use gathered_seat::GatheredSeat;
pub use held::Held;
pub use message::Message;
pub use note::Note;
pub use note_view::NoteView;
pub use seat_view::SeatView;
pub use sent_note::SentNote;
pub use spent::Spent;
pub use stage::Stage;
pub use stage_name::StageName;
pub use stage_seat::StageSeat;
pub use stamped::Stamped;
pub use stamped_entry::StampedEntry;
