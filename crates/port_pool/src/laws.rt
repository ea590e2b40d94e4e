//! Laws about the candidates for a port, each as the contract of a function that does nothing.
ghost use Rattle.std.specs.Prelude.{◌≡◌, ℕ, Bool, true, not, Option, None, Contains, find};
ghost use Rattle.port_pool.specs.declared.order.Order.TheVariants as orders;
ghost use Rattle.port_pool.specs.declared.range.CandidateRange.{CandidateRange};
ghost use Rattle.port_pool.specs.Candidates.{same_class_and_parity, candidates, ports_of, same_parity};

/// Candidates are ports of the rule's range, and those with the class and parity of `s` are among
/// them. If the range has such a port, there are no other candidates; if it has one of that parity,
/// all candidates have that parity.
pub fn ports_of_the_range()
    ensures within { (s : ℕ) (range : Option CandidateRange) (p : ℕ)
        → Contains (candidates orders.Ports s range) p → Contains (ports_of range) p }
    ensures all { (s : ℕ) (range : Option CandidateRange) (p : ℕ) → Contains (ports_of range) p
        → same_class_and_parity s p ≡ true → Contains (candidates orders.Ports s range) p }
    ensures alone { (s : ℕ) (range : Option CandidateRange) (p other : ℕ)
        → Contains (ports_of range) other → same_class_and_parity s other ≡ true
        → Contains (candidates orders.Ports s range) p → same_class_and_parity s p ≡ true }
    ensures parity { (s : ℕ) (range : Option CandidateRange) (p other : ℕ)
        → Contains (ports_of range) other → same_parity s other ≡ true
        → Contains (candidates orders.Ports s range) p → same_parity s p ≡ true }
{}

/// Without a range each candidate has the class and the parity of `s`. So where all those ports are
/// taken none is chosen, whatever else is free.
pub fn candidates_keep_class_and_parity()
    ensures candidates { (s p : ℕ) → Contains (candidates orders.Ports s None) p
        → same_class_and_parity s p ≡ true }
    ensures taken { (s : ℕ) (taken : ℕ → Bool)
        → ((p : ℕ) → same_class_and_parity s p ≡ true → taken p ≡ true)
        → find (λ p. not (taken p)) (candidates orders.Ports s None) ≡ None }
{}
