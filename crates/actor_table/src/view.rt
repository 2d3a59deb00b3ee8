//! What one party of the table knows.
use crate::note_view::NoteView;
use crate::seat_view::SeatView;

/// What one party of the table knows. No value of this type is made: the rule of the table speaks of it.
pub enum View {
    /// A note that arrived, or a seat that was gathered.
    Spent,
    Sits(SeatView),
    Carries(NoteView),
}
