// What a tick answers to whoever lent it its numbers.
ghost use Rattle.std.specs.Prelude.{◌≡◌};
ghost use Rattle.fifo.specs.Gives.{out_from};

use super::pixels::{Exchange, Pixel};

// Numbers in place of types, since a circuit's program in C reads it. The last number of each is how many dots are requested in this tick; of `Refused` it is the refusal's number.
#[derive(Clone, Copy, Debug, PartialEq, Eq)]
pub enum Out {
    // the dot that the panel takes
    Dot(u16, u64),
    // it takes none
    Dark(u64),
    // the dot that it takes has not arrived
    Missing(u64),
    Refused(u64),
}

impl From<Exchange> for Out {
    ghost from_gives = { λ exchange out. out ≡ out_from exchange };

    fn from(exchange: Exchange) -> Out {
        let requested = u64::from(exchange.requested);
        match exchange.pixel {
            Pixel::Dot(dot) => Out::Dot(dot, requested),
            Pixel::Dark => Out::Dark(requested),
            Pixel::Missing => Out::Missing(requested),
        }
    }
}
