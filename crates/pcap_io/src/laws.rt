//! Laws of the format, each the contract of a function that does nothing.
ghost use Rattle.std.specs.Prelude.{◌≡◌, ◌≤◌, ◌++◌, ◌⊎◌, length, List, ℕ, Some};
ghost use Rattle.pcap_io.specs.declared.fault.CaptureFault.{CaptureFault};
ghost use Rattle.pcap_io.specs.Pcap.{Pcap, Captured, Ending, format_of, header_fault, HEADER_BYTES};

/// Decoding is unique: a file is at most one list of records with one ending, in one format.
pub fn one_reading()
    ensures { (bytes : List ℕ) (xs ys : List Captured) (ending other : Ending)
        (one : Pcap bytes xs ending) (two : Pcap bytes ys other) → (xs ≡ ys) × (ending ≡ other)
        × (one.format ≡ two.format) }
{}

/// Decoding is total: each file has a faulty header, or is a list of records with an ending.
pub fn some_reading()
    ensures { (bytes : List ℕ) → ((fault : CaptureFault) × (header_fault bytes ≡ Some fault))
        ⊎ ((records : List Captured) × (ending : Ending) × Pcap bytes records ending) }
{}

/// The file header alone determines the format.
pub fn header_alone()
    ensures { (bytes more : List ℕ) → HEADER_BYTES ≤ length bytes
        → format_of (bytes ++ more) ≡ format_of bytes }
{}
