//! What aliases stand for, as it is kept: with its text, which lines are to hold in their places.
ghost use Rattle.std.specs.Prelude.{◌≡◌, ◌+◌, ◌≤◌, ◌++◌};
ghost use Rattle.std.specs.Fmt.{decimal};
ghost use Rattle.arrayvec.specs.ArrayString.{array_string_len};
ghost use Rattle.fl_aliases.specs.TargetText.{target_text};
ghost use Rattle.fl_labels.specs.Text.{endpoint_text, name_text, pid_text};

use crate::target::Target;
use arrayvec::ArrayString;
use fl_labels::endpoint::Endpoint;
use fl_labels::name::Name;
use fl_labels::pid::Pid;
use itoa::Buffer;
use std::marker::Model;

// A `p`, three numbers of at most ten digits, and the dots between them.
const MOST_TARGET_BYTES: usize = 33;

fn push_number(text: &mut ArrayString<MOST_TARGET_BYTES>, number: u32)
    requires { array_string_len text.old + 10 ≤ 33 }
    ensures bytes { text.new.bytes ≡ text.old.bytes ++ decimal number }
    ensures most { array_string_len text.new ≤ array_string_len text.old + 10 }
{
    text.push_str(Buffer::new().format(number));
}

fn name_of(name: Name) -> ArrayString<MOST_TARGET_BYTES>
    ensures { result.bytes ≡ name_text name }
{
    let mut text = ArrayString::new();
    push_number(&mut text, name.node);
    text.push_str(".");
    push_number(&mut text, name.seq);
    text
}

fn pid_of(pid: Pid) -> ArrayString<MOST_TARGET_BYTES>
    ensures { result.bytes ≡ pid_text pid }
{
    let mut text = ArrayString::new();
    text.push_str("p");
    push_number(&mut text, pid.node);
    text.push_str(".");
    push_number(&mut text, pid.boot);
    text.push_str(".");
    push_number(&mut text, pid.serial);
    text
}

fn endpoint_of(endpoint: Endpoint) -> ArrayString<MOST_TARGET_BYTES>
    ensures { result.bytes ≡ endpoint_text endpoint }
{
    let mut text = ArrayString::new();
    text.push_str("e");
    push_number(&mut text, endpoint.number);
    text
}

fn text_of(target: Target) -> ArrayString<MOST_TARGET_BYTES>
    ensures { result.bytes ≡ target_text target }
{
    match target {
        Target::Process(pid) => pid_of(pid),
        Target::Operation(name) => name_of(name),
        Target::Endpoint(endpoint) => endpoint_of(endpoint),
    }
}

/// What an alias stands for, and how that is written. Contracts see what it stands for.
#[derive(Drop)]
pub(crate) struct Placed {
    target: Target,
    // Written once, since lines name an alias more often than it is set.
    text: ArrayString<MOST_TARGET_BYTES>,
}

impl Model for Placed {
    ghost use Rattle.std.specs.Prelude.{◌≡◌};
    ghost use Rattle.fl_aliases.specs.TargetText.{target_text};
    ghost use Rattle.fl_aliases.specs.declared.target.Target.{Target};

    ghost Value = { Target };

    ghost view = { λ p. p.target };

    ghost invariant = { λ p. p.text.bytes ≡ target_text p.target };
}

impl Placed {
    /// What stands for this target. Takes no memory.
    pub(crate) fn new(target: Target) -> Self
        ensures { result ≡ target }
    {
        Placed {
            target,
            text: text_of(target),
        }
    }

    /// The target.
    pub(crate) fn target(&self) -> Target
        ensures { result ≡ self.now }
    {
        self.target
    }

    /// How the target is written.
    pub(crate) fn text(&self) -> &str
        ensures { result.now ≡ target_text self.now }
    {
        self.text.as_str()
    }
}
