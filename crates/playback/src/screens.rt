// The panel that the dots go to.
ghost use Rattle.fifo.specs.declared.pixels.Pixel.{Pixel};

use fifo::Pixel;

// A panel, by what a pixel does to it.
pub trait Screen {
    // the screen before, what it gets, and the screen after
    ghost accepts: { Self → Pixel → Self → Type 0 };

    // Takes what one tick gives.
    fn show(&mut self, pixel: Pixel)
        ensures { accepts self.old pixel self.new };
}
