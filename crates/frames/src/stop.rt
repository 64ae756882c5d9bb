// Why what a command asks for ends early.
use refusal::Refusal;
use std::alloc::AllocError;
use std::io;

#[derive(Drop)]
pub enum Stop {
    Refused(Refusal),
    Io(io::Error),
}

impl From<Refusal> for Stop {
    fn from(r: Refusal) -> Stop {
        Stop::Refused(r)
    }
}

impl From<io::Error> for Stop {
    fn from(e: io::Error) -> Stop {
        Stop::Io(e)
    }
}

impl From<AllocError> for Stop {
    fn from(e: AllocError) -> Stop {
        Stop::Io(io::Error::from(e))
    }
}
