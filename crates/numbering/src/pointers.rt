ghost use Rattle.std.specs.Prelude.{◌≡◌};
ghost use Rattle.numbering.specs.Pointers.{pointer_at};

use crate::generation::SeasonGen;
use crate::index::ShortInx;
use kinds::PtrOf;

/// The pointers of the register and of its directories.
pub type Pointer = PtrOf<ShortInx, SeasonGen>;

/// The pointer of a slot and a season.
pub fn pointer(slot: u16, season: u32) -> Pointer
    ensures { result ≡ pointer_at slot season }
{
    PtrOf {
        inx: ShortInx { raw: slot },
        generation: SeasonGen { season },
    }
}
