//! The stages of hooks.

/// Base chains of a hook that run one after another, without a conntrack lookup or a translation
/// between them. Chains of type nat run where the packet is translated, whatever their own
/// priority.
#[derive(Clone, Copy)]
pub enum HookStage {
    /// Filter chains on prerouting before the conntrack lookup: of priority -200 and below.
    PreroutingRaw,
    /// Filter chains on prerouting after the lookup and before destination NAT: below priority
    /// -100.
    PreroutingBeforeNat,
    /// Chains of type nat on prerouting: destination NAT.
    PreroutingNat,
    /// Filter chains on prerouting after destination NAT: of priority -100 and above.
    PreroutingAfterNat,
    /// All filter chains of the hook.
    Input,
    /// All filter chains of the hook.
    Forward,
    /// Filter chains on postrouting before source NAT: below priority 100.
    PostroutingBeforeNat,
    /// Chains of type nat on postrouting: source NAT.
    PostroutingNat,
    /// Filter chains on postrouting after source NAT: of priority 100 and above.
    PostroutingAfterNat,
}
