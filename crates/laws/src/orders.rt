//! Six keys in order, computed. No function here does anything: each promises a law, which its specs state and its
//! proof file proves.

ghost use Rattle.laws.specs.Orders.{SixAreInOrder, ExchangedAreNot, DoubledAreNot, NoneAreInOrder, FirstsOfSix, LastsOfSix};

/// What sorted rows come to for the keys 5, 3, 5, 9, 3, 5: their entries in order, which two rows that look alike
/// aren't, and of each the first and the last that is equal.
pub fn six_keys()
    ensures in_order { SixAreInOrder }
    ensures exchanged { ExchangedAreNot }
    ensures doubled { DoubledAreNot }
    ensures none { NoneAreInOrder }
    ensures firsts { FirstsOfSix }
    ensures lasts { LastsOfSix }
{}
