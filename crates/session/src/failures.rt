// Why a line is not done.
ghost use Rattle.std.specs.Prelude.{◌≡◌};
ghost use Rattle.session.specs.Replies.{answered};
ghost use Rattle.session.specs.declared.failures.Failure.TheVariants.{Memory, Unreadable, TurnedAway};

use super::replies::Reply;
use super::sessions::Answer;
use super::turned::Turned;
use super::whys::Why;
use std::alloc::AllocError;

#[derive(Debug, Drop)]
pub(crate) enum Failure {
    Memory(AllocError),
    // the line is at fault, and not what it lends
    Unreadable(Why),
    TurnedAway(Turned),
}

impl From<AllocError> for Failure {
    ghost from_gives = { λ error failure. failure ≡ Memory error };

    fn from(error: AllocError) -> Failure {
        Failure::Memory(error)
    }
}

impl From<Why> for Failure {
    ghost from_gives = { λ why failure. failure ≡ Unreadable why };

    fn from(why: Why) -> Failure {
        Failure::Unreadable(why)
    }
}

impl From<Turned> for Failure {
    ghost from_gives = { λ turned failure. failure ≡ TurnedAway turned };

    fn from(turned: Turned) -> Failure {
        Failure::TurnedAway(turned)
    }
}

impl Failure {
    // What is answered to the line of this number: only for want of memory nothing is.
    pub(crate) fn answer(self, line: usize) -> Result<Answer, AllocError>
        ensures { result ≡ answered self line }
    {
        let turned = match self {
            Failure::Memory(error) => return Err(error),
            Failure::Unreadable(why) => Turned::text(line, why),
            Failure::TurnedAway(turned) => turned,
        };
        Ok(Answer::Say(Reply::Refused(turned)))
    }
}
