//! Examples of the definitions, each a law: the number that is chosen.
ghost use Rattle.std.specs.Prelude.{◌≡◌, ◌∷◌, [], Some, None};
ghost use Rattle.port_pool.specs.declared.order.Order.TheVariants as orders;
ghost use Rattle.port_pool.specs.Examples.{from_to, chosen_number};

/// Without a range a port keeps its class and parity, and its number where that is free. Greater
/// ports come first, then the least on. 0 isn't a port.
pub fn any_port()
    ensures itself { chosen_number orders.Ports 5000 None [] ≡ Some 5000 }
    ensures next { chosen_number orders.Ports 5000 None (5000 ∷ []) ≡ Some 5002 }
    ensures past_the_last { chosen_number orders.Ports 65535 None (65535 ∷ []) ≡ Some 1025 }
    ensures well_known { chosen_number orders.Ports 1023 None [] ≡ Some 1023 }
    ensures past_the_class { chosen_number orders.Ports 1023 None (1023 ∷ []) ≡ Some 1 }
    ensures zero { chosen_number orders.Ports 0 None [] ≡ Some 2 }
{}

/// With a range, which may have no port of that class, none of that parity, or none at all.
pub fn port_of_a_range()
    ensures other_class { chosen_number orders.Ports 7 (from_to 2000 2005) [] ≡ Some 2001 }
    ensures own_class { chosen_number orders.Ports 1022 (from_to 1020 1030) (1022 ∷ [])
        ≡ Some 1020 }
    ensures own_class_taken { chosen_number orders.Ports 1022 (from_to 1020 1030) (1022 ∷ 1020 ∷ [])
        ≡ None }
    ensures least_last { chosen_number orders.Ports 5002 (from_to 5000 5004) (5002 ∷ 5004 ∷ [])
        ≡ Some 5000 }
    ensures own_parity { chosen_number orders.Ports 4000 (from_to 1024 1025) [] ≡ Some 1024 }
    ensures own_parity_taken { chosen_number orders.Ports 4000 (from_to 1024 1025) (1024 ∷ [])
        ≡ None }
    ensures other_parity { chosen_number orders.Ports 5001 (from_to 80 80) [] ≡ Some 80 }
    ensures zero { chosen_number orders.Ports 0 (from_to 0 3) [] ≡ Some 2 }
    ensures zero_alone { chosen_number orders.Ports 0 (from_to 0 0) [] ≡ None }
    ensures reversed { chosen_number orders.Ports 80 (from_to 81 79) [] ≡ None }
{}

/// Identifiers have neither class nor parity, 0 is one, and ranges don't restrict them.
pub fn identifier()
    ensures itself { chosen_number orders.Identifiers 0 None [] ≡ Some 0 }
    ensures next { chosen_number orders.Identifiers 7 None (7 ∷ []) ≡ Some 8 }
    ensures past_the_last { chosen_number orders.Identifiers 65535 None (65535 ∷ []) ≡ Some 0 }
    ensures range { chosen_number orders.Identifiers 7 (from_to 1024 1025) [] ≡ Some 7 }
{}

/// A protocol without ports has 0 alone.
pub fn without_ports()
    ensures free { chosen_number orders.Zero 0 (from_to 1024 1025) [] ≡ Some 0 }
    ensures taken { chosen_number orders.Zero 0 None (0 ∷ []) ≡ None }
{}
