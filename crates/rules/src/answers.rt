// What a call answers, put together.
ghost use Rattle.std.specs.Prelude.{◌≡◌};
ghost use Rattle.rules.specs.Commands.{ended};

use super::{Advanced, Answer, Reply};
use layout::status::{SUCCESS, Status};
use layout::{State, Table};

// Commands other than get and put report 0.
pub fn answer(status: Status, t: Table) -> Answer
    ensures { result ≡ record { status = status; count = 0; table = t } }
{
    Answer {
        status,
        count: 0,
        table: t,
    }
}

// A command that leaves the channels alone: 1, or its refusal.
pub fn ended(t: Table, r: Result<(), Status>) -> Answer
    ensures { result ≡ ended t r }
{
    match r {
        Ok(()) => answer(SUCCESS, t),
        Err(status) => answer(status, t),
    }
}

// Recovery and the sector calls leave the channels alone.
pub fn reply(status: Status, count: usize) -> Reply
    ensures { result ≡ record { status = status; count = count } }
{
    Reply { status, count }
}

// A get or a put that is refused leaves the channel as it was.
pub fn refused(status: Status, state: State) -> Advanced
    ensures { result ≡ record { status = status; count = 0; state = state } }
{
    Advanced {
        status,
        count: 0,
        state,
    }
}
