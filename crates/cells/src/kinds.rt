// The interface of a kind of cell. Everything above the cells is written and proved against it.
ghost use Rattle.std.specs.Prelude.{◌≡◌};
ghost use Rattle.cells.specs.Kinds.{CrossingLaw, Rules};

/// A kind of cell: what its values, postings and answers are, and by which rules they go.
///
/// A posting is an operation on one value. Two postings cross where they commute: done in either
/// order they leave one value, and each gets the answer that it would have got in the other order.
pub trait Kind {
    type Value: Copy;

    type Posting: Copy;

    type Answer: Copy;

    ghost rules: { Self → Rules Self.Value Self.Posting Self.Answer };

    /// May a cell of this kind hold the value?
    fn is_lawful_value(&self, value: Self::Value) -> bool
        ensures { result ≡ (rules self.now).value_lawful value };

    /// May the posting be made on a cell of this kind?
    fn is_lawful_posting(&self, posting: Self::Posting) -> bool
        ensures { result ≡ (rules self.now).posting_lawful posting };

    /// The value that the posting leaves.
    fn after(&self, value: Self::Value, posting: Self::Posting) -> Self::Value
        ensures { result ≡ (rules self.now).after value posting };

    /// What the posting is answered at the value that it finds.
    fn answer(&self, value: Self::Value, posting: Self::Posting) -> Self::Answer
        ensures { result ≡ (rules self.now).answer value posting };

    /// Do the two postings cross?
    fn crosses(&self, posting: Self::Posting, other: Self::Posting) -> bool
        ensures { result ≡ (rules self.now).crosses posting other };

    // Owed by every kind: a member below the last method is a law, which each implementation proves.
    ghost crossing: { (kind : Self) → CrossingLaw (rules kind) };
}
