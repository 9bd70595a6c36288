// Whom an office waits for: the answers to the question, what they are on a state, and their laws. No functions.
#![tactic(auto)]

// Document 01's 2; 20, the room is above 7; nobody is waited for; the agreement test is met; it waits for this office.
// Five answers in one, as the definition waiting_words (waiting_for/specs/Table) has them.
#[derive(Clone, Copy)]
pub enum Waiting {
    Malformed,
    NoRoom,
    Nobody,
    Met,
    For(u8),
}
