//! What aliases stand for.
use fl_labels::endpoint::Endpoint;
use fl_labels::name::Name;
use fl_labels::pid::Pid;
use std::fmt;

/// What an alias stands for.
#[derive(Clone, Copy, Debug, PartialEq, Eq)]
pub enum Target {
    /// A process.
    Process(Pid),
    /// An operation, and so a tag or a group.
    Operation(Name),
    /// An endpoint of a process.
    Endpoint(Endpoint),
}

impl fmt::Display for Target {
    ghost use Rattle.std.specs.Prelude.{Some};
    ghost use Rattle.fl_aliases.specs.TargetText.{target_text};

    ghost output = { λ t. Some (target_text t) };

    fn fmt<W: fmt::Write>(&self, f: &mut fmt::Formatter<W>) -> fmt::Result {
        match self {
            Target::Process(pid) => write!(f, "{pid}"),
            Target::Operation(name) => write!(f, "{name}"),
            Target::Endpoint(endpoint) => write!(f, "{endpoint}"),
        }
    }
}
