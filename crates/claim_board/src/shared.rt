//! A board may be read by all threads at once, and what a worker has of it may be sent to any of them.

use crate::{Claim, ClaimBoard, ClaimSeat, CloseEnd, Look, Owners, Ticket};

fn is_shared<T: Send + Sync>(_value: &T) {}

fn is_sent<T: Send>(_value: &T) {}

fn are_shared(board: &ClaimBoard, owners: &Owners, look: &Look) {
    is_shared(board);
    is_shared(owners);
    is_shared(look);
}

fn are_sent(seat: &ClaimSeat, ticket: &Ticket, claim: &Claim, end: &CloseEnd) {
    is_sent(seat);
    is_sent(ticket);
    is_sent(claim);
    is_sent(end);
}
