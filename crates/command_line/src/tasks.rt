//! The tasks of the program.
ghost use Rattle.std.specs.Prelude.{◌≡◌};
ghost use Rattle.command_line.specs.CommandLine.{are_explained, explaining_of};

/// A parsed command line.
#[derive(Clone, Copy)]
pub enum Task<'a> {
    /// `run [--explain | --no-explain] [--trace] [--report FILE] RULES BOX IN OUT`: replay a capture
    /// through a ruleset.
    Run(ReplayTask<'a>),
    /// `check [--explain | --no-explain] [--all] [--nft] RULES BOX`: check a ruleset before it is
    /// loaded.
    Check(CheckTask<'a>),
    /// `reach [--explain | --no-explain] [--sets] RULES BOX`: tell which rules some packet can meet.
    Reach(ReachTask<'a>),
    /// `diff [--explain | --no-explain] [--assume FILTER] OLD NEW BOX`: tell which packets a new ruleset
    /// treats differently.
    Diff(DiffTask<'a>),
    /// `explain CODE`: print what a code means.
    Explain(&'a str),
}

/// Whether the program says what a fault means, and where it is.
#[derive(Clone, Copy)]
pub enum Explaining {
    /// `--explain`.
    Always,
    /// `--no-explain`.
    Never,
    /// Where standard error is a terminal.
    OnTerminal,
}

/// A run.
#[derive(Clone, Copy)]
pub struct ReplayTask<'a> {
    /// Whether the report has a trace: each rule's verdict and each policy.
    pub trace: bool,
    pub explaining: Explaining,
    /// FILE, to which the report is written; standard output where there is none.
    pub report: Option<&'a str>,
    pub paths: ReplayPaths<'a>,
}

/// The paths of a run.
#[derive(Clone, Copy)]
pub struct ReplayPaths<'a> {
    /// RULES, the file of the ruleset.
    pub rules: &'a str,
    /// BOX, the file of the box that the ruleset is for.
    pub network: &'a str,
    /// IN, the capture that is read.
    pub input: &'a str,
    /// OUT, the capture that is written.
    pub output: &'a str,
}

/// A check.
#[derive(Clone, Copy)]
pub struct CheckTask<'a> {
    /// Whether all faults are listed instead of the first alone.
    pub all: bool,
    /// Whether what nft(8) refuses, or means otherwise, is told of an accepted ruleset.
    pub nft: bool,
    pub explaining: Explaining,
    pub texts: CheckPaths<'a>,
}

/// An analysis of which rules some packet can meet.
#[derive(Clone, Copy)]
pub struct ReachTask<'a> {
    /// Whether the packets that reach and meet each rule are told.
    pub sets: bool,
    pub explaining: Explaining,
    pub texts: CheckPaths<'a>,
}

/// The paths of a check or an analysis.
#[derive(Clone, Copy)]
pub struct CheckPaths<'a> {
    /// RULES, the file of the ruleset.
    pub rules: &'a str,
    /// BOX, the file of the box that the ruleset is for.
    pub network: &'a str,
}

/// A comparison of two rulesets.
#[derive(Clone, Copy)]
pub struct DiffTask<'a> {
    pub explaining: Explaining,
    /// FILTER, the file of a ruleset with one filter chain: only packets that it accepts are compared;
    /// all packets where there is none.
    pub assumed: Option<&'a str>,
    pub paths: DiffPaths<'a>,
}

/// The paths of a comparison.
#[derive(Clone, Copy)]
pub struct DiffPaths<'a> {
    /// OLD, the file of the ruleset so far.
    pub old: &'a str,
    /// NEW, the file of the ruleset that is to replace it.
    pub new: &'a str,
    /// BOX, the file of the box that both rulesets are for.
    pub network: &'a str,
}

impl Task<'_> {
    /// Whether faults are explained; `terminal` says whether standard error is one.
    pub fn is_explained(&self, terminal: bool) -> bool
        ensures { result ≡ are_explained (explaining_of self.now) terminal }
    {
        let explaining = match self {
            Task::Run(task) => task.explaining,
            Task::Check(task) => task.explaining,
            Task::Reach(task) => task.explaining,
            Task::Diff(task) => task.explaining,
            Task::Explain(_) => Explaining::OnTerminal,
        };
        match explaining {
            Explaining::Always => true,
            Explaining::Never => false,
            Explaining::OnTerminal => terminal,
        }
    }
}
