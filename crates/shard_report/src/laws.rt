//! What holds of every count: each law is the contract of a function that does nothing.

ghost use Rattle.std.specs.Prelude.{◌≡◌};
ghost use Rattle.shard_report.specs.Indexes.{index_of};
ghost use Rattle.shard_report.specs.declared.tally.Count.{Count};

/// No two numbers of a loop are counted at one index.
pub fn each_count_has_its_index()
    ensures { (one other : Count) → index_of one ≡ index_of other → one ≡ other }
{}
