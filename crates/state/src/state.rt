// What a point remembers from call to call.
ghost use Rattle.std.specs.Prelude.{◌≡◌};
ghost use Rattle.state.specs.State.{is_up, news, new_state};

use crate::service::Service;
use legs::{End, Position};

// How far the connection to the interlocking is made.
#[derive(Clone, Copy, PartialEq, Eq, Debug)]
pub enum Connection {
    Down,
    Checked,
    Reporting,
    Up,
}

// A movement that is open: where it goes, and for how many ticks already; a reversal begins at 0 again.
#[derive(Clone, Copy, PartialEq, Eq, Debug)]
pub struct Movement {
    pub end: End,
    pub elapsed: u16,
}

#[derive(Clone, Copy, PartialEq, Eq, Debug)]
pub struct State {
    // None: out of service.
    pub service: Option<Service>,
    pub connection: Connection,
    // The position last told, if one was.
    pub told: Option<Position>,
    // None: no movement is open.
    pub movement: Option<Movement>,
}

impl State {
    // Out of service, connection down, nothing told, no movement open.
    pub fn new() -> State
        ensures { result ≡ new_state }
    {
        State {
            service: None,
            connection: Connection::Down,
            told: None,
            movement: None,
        }
    }

    pub fn is_up(self) -> bool
        ensures { result ≡ is_up self }
    {
        self.connection == Connection::Up
    }

    // Whether a position is another than the one last told.
    pub fn is_news(self, position: Position) -> bool
        ensures { result ≡ news position self.told }
    {
        self.told != Some(position)
    }
}
