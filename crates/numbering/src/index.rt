ghost use Rattle.numbering.specs.Kinds.{short_number};
ghost use Rattle.std.proofs.Common.{rules};

use kinds::PtrInx;

/// 16 bits: numbers 1 to 65,535; 0 does not convert.
#[derive(Clone, Copy, Debug, PartialEq, Eq)]
pub struct ShortInx {
    pub raw: u16,
}

impl PtrInx for ShortInx {
    ghost largest = { 65535 };

    ghost number = { short_number };

    ghost indexed = { λ n. record { raw = n } };

    ghost small = { Prim.search rules };

    ghost there = { Prim.search rules };

    ghost back = { Prim.search rules };

    ghost low = { Prim.search rules };

    ghost high = { Prim.search rules };

    fn max_index() -> usize {
        usize::from(u16::MAX)
    }

    fn try_into_usize(self) -> Option<usize> {
        (self.raw != 0).then_some(usize::from(self.raw))
    }

    fn try_from_usize(n: usize) -> Option<ShortInx> {
        let raw = u16::try_from(n).ok()?;
        (raw != 0).then_some(ShortInx { raw })
    }
}
