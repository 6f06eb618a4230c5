ghost use Rattle.std.specs.Result.{result_ok};
ghost use Rattle.plant.specs.Entropy.{EntropyTold, Draws};

use crate::fault::EntropyFault;
use gate_base::Sixteen;

/// A source of random bytes.
pub trait Entropy {
    ghost told: { Self → EntropyTold };

    fn draw16(&mut self) -> Result<Sixteen, EntropyFault>
        ensures { Draws (told self.old) (told self.new) (result_ok result) };
}
