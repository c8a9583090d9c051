//! Ten worked examples of the rules, proved as one statement: a fixed stack of 8 with short indices.
//! It uses the definitions that the calls of an arena cite, and nothing uses it.
//! An example that shows a rule to a reader stands here; it is run, and limits and odd cases are, as lines of a script (docs/BESIDE.md).

#![tactic(auto)]

ghost use Rattle.std.specs.Prelude.{◌≡◌, ℕ};
ghost use Rattle.numbering.specs.declared.generation.SeasonGen.{SeasonGen};
ghost use Rattle.numbering.specs.Kinds.{season_alike};
ghost use Rattle.history.specs.Followed.{Followed, Said};
ghost use Rattle.examples.specs.Worked.{Worked};

/// How many examples there are; the contract has them all, as one statement of the definitions that contracts cite. It
/// also has a history of which all premises of the promise on joined reports hold, and what the promise says of it.
pub fn worked_examples() -> usize
    ensures number { result ≡ 10 }
    ensures worked { Worked }
    ensures followed { (g h k : SeasonGen) (u v w : ℕ) → Followed g h k u v w season_alike }
    ensures said { (g h k : SeasonGen) (u v w : ℕ) → Said g h k u v w season_alike }
{
    10
}
