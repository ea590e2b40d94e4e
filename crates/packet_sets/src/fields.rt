//! Sets of packets by the number in a field.
ghost use Rattle.std.specs.Prelude.{◌≡◌, ◌<◌, ◌≤◌, ◌+◌, ◌-◌, ◌^◌, ◌&&◌, ◌==◌, ℕ, Bool, nat_le, cond, length, IfOk, IfErr};
ghost use Rattle.packet_sets.specs.Sets.{field_value, IsSet, Keeps, Means};
ghost use Rattle.packet_sets.specs.steps.Nodes.{AreNodes, Grows};
ghost use Rattle.packet_sets.specs.steps.Comparisons.{greater_passes, less_passes, IsComparison};
ghost use Rattle.packet_sets.specs.declared.fault.SetError.TheVariants.{TooLarge};

use crate::diagrams::Diagrams;
use crate::fault::SetError;
use crate::packet_set::PacketSet;

/// A field of packets: so many bits from the first on, the highest first.
#[derive(Clone, Copy)]
pub struct Field {
    pub first: u32,
    pub width: u32,
}

/// How a field is compared with a number.
#[derive(Clone, Copy)]
pub(crate) enum Comparison {
    AtLeast,
    AtMost,
    Equal,
}

impl Comparison {
    /// The end at which a packet's walk ends as soon as its field is less than the number.
    fn less(self) -> u32
        ensures { result ≡ cond (less_passes self) 1 0 }
    {
        match self {
            Comparison::AtMost => 1,
            Comparison::AtLeast | Comparison::Equal => 0,
        }
    }

    /// The end at which a packet's walk ends as soon as its field is greater than the number.
    fn greater(self) -> u32
        ensures { result ≡ cond (greater_passes self) 1 0 }
    {
        match self {
            Comparison::AtLeast => 1,
            Comparison::AtMost | Comparison::Equal => 0,
        }
    }
}

impl Diagrams {
    /// The packets that have the bit.
    ///
    /// # Errors
    ///
    /// `TooLarge` where more nodes are needed than the limit allows, `Memory` where an allocation
    /// failed.
    pub fn bit(&mut self, bit: u32) -> Result<PacketSet, SetError>
        requires { bit < 2 ^ 32 - 1 }
        ensures keeps { Keeps self.old self.new }
        ensures value { IfOk result (λ set. Means self.new set (λ packet. packet bit)) }
        ensures too_large { IfErr result (λ e. e ≡ TooLarge
            → self.new.limit ≤ length self.new.nodes) }
    {
        self.sound();
        let node = self.join(bit, 0, 1)?;
        self.sound();
        Ok(PacketSet { node })
    }

    /// The packets whose field has this number.
    ///
    /// # Errors
    ///
    /// `TooLarge` where more nodes are needed than the limit allows, `Memory` where an allocation
    /// failed.
    #[tactic(auto, using(crate::proofs::SetLaws::set_rules))]
    pub fn equal(&mut self, field: Field, number: u64) -> Result<PacketSet, SetError>
        requires width { field.width ≤ 64 }
        requires field { field.first + field.width < 2 ^ 32 }
        requires number { number < 2 ^ field.width }
        ensures keeps { Keeps self.old self.new }
        ensures value { IfOk result (λ set. Means self.new set
            (λ packet. field_value field.first field.width packet == number)) }
        ensures too_large { IfErr result (λ e. e ≡ TooLarge
            → self.new.limit ≤ length self.new.nodes) }
    {
        let node = self.compare(Comparison::Equal, field, number)?;
        Ok(PacketSet { node })
    }

    /// The packets whose field begins with the bits of this number: its first `bits` bits write it.
    ///
    /// # Errors
    ///
    /// `TooLarge` where more nodes are needed than the limit allows, `Memory` where an allocation
    /// failed.
    pub fn prefix(&mut self, field: Field, bits: u32, number: u64) -> Result<PacketSet, SetError>
        requires width { field.width ≤ 64 }
        requires field { field.first + field.width < 2 ^ 32 }
        requires bits { bits ≤ field.width }
        requires number { number < 2 ^ bits }
        ensures keeps { Keeps self.old self.new }
        ensures value { IfOk result (λ set. Means self.new set
            (λ packet. field_value field.first bits packet == number)) }
        ensures too_large { IfErr result (λ e. e ≡ TooLarge
            → self.new.limit ≤ length self.new.nodes) }
    {
        let begin = Field {
            first: field.first,
            width: bits,
        };
        self.equal(begin, number)
    }

    /// The packets whose field has a number from `low` to `high`, both included; none where `high`
    /// is less.
    ///
    /// # Errors
    ///
    /// `TooLarge` where more nodes are needed than the limit allows, `Memory` where an allocation
    /// failed.
    #[tactic(auto, using(crate::proofs::SetLaws::set_rules))]
    pub fn within(&mut self, field: Field, low: u64, high: u64) -> Result<PacketSet, SetError>
        requires width { field.width ≤ 64 }
        requires field { field.first + field.width < 2 ^ 32 }
        requires low { low < 2 ^ field.width }
        requires high { high < 2 ^ field.width }
        ensures keeps { Keeps self.old self.new }
        ensures value { IfOk result (λ set. Means self.new set
            (λ packet. nat_le low (field_value field.first field.width packet)
            && nat_le (field_value field.first field.width packet) high)) }
        ensures too_large { IfErr result (λ e. e ≡ TooLarge
            → self.new.limit ≤ length self.new.nodes) }
    {
        let least = self.at_least(field, low)?;
        let most = self.at_most(field, high)?;
        self.and(least, most)
    }

    /// The packets whose field has at least this number.
    ///
    /// # Errors
    ///
    /// `TooLarge` where more nodes are needed than the limit allows, `Memory` where an allocation
    /// failed.
    #[tactic(auto, using(crate::proofs::SetLaws::set_rules))]
    pub fn at_least(&mut self, field: Field, number: u64) -> Result<PacketSet, SetError>
        requires width { field.width ≤ 64 }
        requires field { field.first + field.width < 2 ^ 32 }
        requires number { number < 2 ^ field.width }
        ensures keeps { Keeps self.old self.new }
        ensures value { IfOk result (λ set. Means self.new set
            (λ packet. nat_le number (field_value field.first field.width packet))) }
        ensures too_large { IfErr result (λ e. e ≡ TooLarge
            → self.new.limit ≤ length self.new.nodes) }
    {
        let node = self.compare(Comparison::AtLeast, field, number)?;
        Ok(PacketSet { node })
    }

    /// The packets whose field has at most this number.
    ///
    /// # Errors
    ///
    /// `TooLarge` where more nodes are needed than the limit allows, `Memory` where an allocation
    /// failed.
    #[tactic(auto, using(crate::proofs::SetLaws::set_rules))]
    pub fn at_most(&mut self, field: Field, number: u64) -> Result<PacketSet, SetError>
        requires width { field.width ≤ 64 }
        requires field { field.first + field.width < 2 ^ 32 }
        requires number { number < 2 ^ field.width }
        ensures keeps { Keeps self.old self.new }
        ensures value { IfOk result (λ set. Means self.new set
            (λ packet. nat_le (field_value field.first field.width packet) number)) }
        ensures too_large { IfErr result (λ e. e ≡ TooLarge
            → self.new.limit ≤ length self.new.nodes) }
    {
        let node = self.compare(Comparison::AtMost, field, number)?;
        Ok(PacketSet { node })
    }

    /// The node of the packets whose field compares so with the number.
    fn compare(
        &mut self,
        comparison: Comparison,
        field: Field,
        number: u64,
    ) -> Result<u32, SetError>
        requires width { field.width ≤ 64 }
        requires field { field.first + field.width < 2 ^ 32 }
        requires number { number < 2 ^ field.width }
        ensures grows { Grows self.old self.new }
        ensures value { IfOk result (λ n. IsComparison self.new.nodes comparison field number n) }
        ensures too_large { IfErr result (λ e. e ≡ TooLarge
            → self.new.limit ≤ length self.new.nodes) }
    {
        self.sound();
        if field.width == 0 {
            return Ok(1);
        }
        let half = 2u64.pow(field.width - 1);
        let rest = Field {
            first: field.first + 1,
            width: field.width - 1,
        };
        if number >= half {
            let high = self.compare(comparison, rest, number - half)?;
            self.sound();
            self.join(field.first, comparison.less(), high)
        } else {
            let low = self.compare(comparison, rest, number)?;
            self.sound();
            self.join(field.first, low, comparison.greater())
        }
    }
}
