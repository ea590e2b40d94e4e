//! Laws of box files, each as the contract of a function that does nothing.
ghost use Rattle.std.specs.Prelude.{◌≡◌, ◌⊎◌, List, ℕ};
ghost use Rattle.box_file.specs.declared.fault.BoxFault.{BoxFault};
ghost use Rattle.box_file.specs.Box.{PlantTree, IsBox, HasBoxFault};

/// A text describes at most one box or has at most one fault, never both.
pub fn one_box()
    ensures one { (text : List ℕ) (network other : PlantTree) → IsBox text network
        → IsBox text other → network ≡ other }
    ensures one_fault { (text : List ℕ) (fault other : BoxFault) → HasBoxFault text fault
        → HasBoxFault text other → fault ≡ other }
    ensures faultless { (text : List ℕ) (network : PlantTree) (fault : BoxFault)
        → IsBox text network → HasBoxFault text fault → ⊥ }
{}

/// Each text describes a box or has a fault.
pub fn some_box()
    ensures { (text : List ℕ) → ((network : PlantTree) × IsBox text network)
        ⊎ ((fault : BoxFault) × HasBoxFault text fault) }
{}
