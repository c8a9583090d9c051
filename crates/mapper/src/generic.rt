ghost use Rattle.std.specs.Prelude.{◌≡◌};

/// Its state, a record's old pointer, its new pointer and its value decide the mapper's next state and the new value.
/// In a call that moves no record the two pointers are alike.
pub trait Mapper<Q: Copy, P: Copy, U: Copy, V: Copy> {
    ghost State: { Type 0 };

    ghost state: { Self → State };

    ghost next: { State → Q → P → U → State };

    ghost mapped: { State → Q → P → U → V };

    fn map(&mut self, old: Q, new: P, value: U) -> V
        ensures gives { result ≡ mapped (state self.old) old new value }
        ensures goes_on { state self.new ≡ next (state self.old) old new value };
}
