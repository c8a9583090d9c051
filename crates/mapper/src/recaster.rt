ghost use Rattle.std.specs.Prelude.{◌≡◌, Option};
ghost use Rattle.mapper.specs.Recast.{recast_answer};

use crate::error::NotHeldError;

/// Gives other values for values, as a directory gives new pointers for old ones.
pub trait Recaster<V: Copy> {
    // the value for a value, none where that is not held
    ghost recast: { Self → V → Option V };

    /// The value that is held for `item`, or `item` itself as an error.
    fn recast_item(&self, item: V) -> Result<V, NotHeldError<V>>
        ensures { result ≡ recast_answer item (recast self.now item) };
}
