//! Laws of the order of writes. Each function states one by its clauses, for all writes, and does nothing.
ghost use Rattle.std.specs.Prelude.{◌≡◌, ◌≢◌, ◌<◌, ◌≤◌, ℕ, List, ◌++◌, All, AllPairs, IsPermutation, IsSorted};
ghost use Rattle.std.specs.Cmp.{IsTotalOrder};
ghost use Rattle.std.specs.declared.cmp.Ordering.TheVariants.{Less, Equal};
ghost use Rattle.tact_base.specs.Sums.{plus_sum, minus_sum, net_sum, order_sum};
ghost use Rattle.tact_base.specs.WriteOrder.{write_cmp, in_order, committed_to, tentative_past};
ghost use Rattle.tact_base.specs.declared.write.Write.{Write};

/// The order of writes is total, a write with a lower stamp comes first, and only writes with the same
/// stamp, origin and index tie.
pub fn order_is_total()
    ensures total { IsTotalOrder write_cmp }
    ensures by_stamp { (a b : Write) → a.stamp < b.stamp → write_cmp a b ≡ Less }
    ensures ties { (a b : Write) → write_cmp a b ≡ Equal → (a.stamp ≡ b.stamp) × (a.origin ≡ b.origin) × (a.index ≡ b.index) }
{}

/// Putting writes in order sorts them: the result is in order, and has the same writes.
pub fn in_order_sorts()
    ensures sorted { (writes : List Write) → IsSorted write_cmp (in_order writes) }
    ensures same { (writes : List Write) → IsPermutation writes (in_order writes) }
{}

/// Where no two writes have the same origin and index, they have one order, whatever order they came in.
pub fn in_order_forgets_arrival()
    ensures { (writes others : List Write) → AllPairs (λ a b. a.origin ≡ b.origin → a.index ≢ b.index) writes → IsPermutation writes others → in_order writes ≡ in_order others }
{}

/// Committed writes have stamps up to the point, and tentative ones stamps past it. Of writes in order, the
/// committed ones are a front and the tentative ones are the rest; at a later point no committed write has
/// moved or gone, and more may follow; and they depend on nothing but the writes up to the point.
pub fn committed_is_a_front()
    ensures upto { (point : ℕ) (writes : List Write) → All (λ write. write.stamp ≤ point) (committed_to point writes) }
    ensures past { (point : ℕ) (writes : List Write) → All (λ write. point < write.stamp) (tentative_past point writes) }
    ensures front { (point : ℕ) (writes : List Write) → committed_to point (in_order writes) ++ tentative_past point (in_order writes) ≡ in_order writes }
    ensures grows { (point later : ℕ) (writes : List Write) → point ≤ later → (rest : List Write) × (committed_to later (in_order writes) ≡ committed_to point (in_order writes) ++ rest) }
    ensures alone { (point : ℕ) (writes : List Write) → committed_to point (in_order writes) ≡ in_order (committed_to point writes) }
{}

/// The sums of weights on a conit are those of the writes in order.
pub fn order_keeps_sums()
    ensures plus { (writes : List Write) (conit : ℕ) → plus_sum (in_order writes) conit ≡ plus_sum writes conit }
    ensures minus { (writes : List Write) (conit : ℕ) → minus_sum (in_order writes) conit ≡ minus_sum writes conit }
    ensures net { (writes : List Write) (conit : ℕ) → net_sum (in_order writes) conit ≡ net_sum writes conit }
    ensures order { (writes : List Write) (conit : ℕ) → order_sum (in_order writes) conit ≡ order_sum writes conit }
{}
