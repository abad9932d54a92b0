//! What a line asks to be explained of a machine's node.
ghost use Rattle.std.specs.Prelude.{◌≡◌, ◌∷◌, codes, map};
ghost use Rattle.fl_labels.specs.Text.{cap_text};
ghost use Rattle.fl_labels.specs.declared.cap.Cap.TheVariants.{Use};
ghost use Rattle.fl_labels.specs.Found.{Finds};
ghost use Rattle.fl_machine_lines.specs.Grammar.{IsPlace, explanation_forms};
ghost use Rattle.fl_script.specs.Grammar.{Matches};

use fl_labels::cap::Cap;
use fl_labels::name::Group;
use fl_labels::pid::Pid;
use fl_labels::text::{read_cap, read_number, read_pid};

/// What a line asks to be explained of a node. Nothing changes by it.
#[derive(Clone, Copy, Debug)]
pub enum Explanation {
    /// What was published, from this place of the list on.
    Log(u32),
    /// Why a process has a capability in effect.
    Why(Pid, Cap),
    /// Why the use of a group leads to a capability.
    WhyGroup(Group, Cap),
    /// Who has a capability.
    Who(Cap),
    /// How the node stands, and each of its processes.
    Show,
    /// What a process has.
    ShowProcess(Pid),
}

// The place of a list that a word spells, from 0 on.
fn read_place(word: &str) -> Option<u32>
    ensures { Finds result (λ place. IsPlace place word.now) }
{
    match word {
        "0" => Some(0),
        _ => read_number(word),
    }
}

// What the words behind `log` ask.
fn logged(rest: &[&str]) -> Option<Explanation>
    ensures { let words = codes "log" ∷ map (λ w. w.now) rest.now in
        Finds result (λ asked. Matches (explanation_forms asked) words) }
{
    let [place] = rest else { return None };
    Some(Explanation::Log(read_place(place)?))
}

// The group whose use a word spells.
fn read_use(word: &str) -> Option<Group>
    ensures { Finds result (λ group. word.now ≡ cap_text (Use group)) }
{
    match read_cap(word) {
        Some(Cap::Use(group)) => Some(group),
        _ => None,
    }
}

// What the words behind `why` ask: of a process by its pid, or of a group by its use.
fn why(rest: &[&str]) -> Option<Explanation>
    ensures { let words = codes "why" ∷ map (λ w. w.now) rest.now in
        Finds result (λ asked. Matches (explanation_forms asked) words) }
{
    let [whose, cap] = rest else { return None };
    let cap = read_cap(cap)?;
    match read_pid(whose) {
        Some(pid) => Some(Explanation::Why(pid, cap)),
        None => Some(Explanation::WhyGroup(read_use(whose)?, cap)),
    }
}

// What the words behind `who` ask.
fn who(rest: &[&str]) -> Option<Explanation>
    ensures { let words = codes "who" ∷ map (λ w. w.now) rest.now in
        Finds result (λ asked. Matches (explanation_forms asked) words) }
{
    let [cap] = rest else { return None };
    Some(Explanation::Who(read_cap(cap)?))
}

// What the words behind `show` ask: of the node where there is none, or else of a process.
fn show(rest: &[&str]) -> Option<Explanation>
    ensures { let words = codes "show" ∷ map (λ w. w.now) rest.now in
        Finds result (λ asked. Matches (explanation_forms asked) words) }
{
    match rest {
        [] => Some(Explanation::Show),
        [pid] => Some(Explanation::ShowProcess(read_pid(pid)?)),
        _ => None,
    }
}

/// What the words behind the number of a node ask to be explained, or none where they ask nothing
/// of the kind. Takes no memory.
pub(crate) fn explanation_from_words(verb: &str, rest: &[&str]) -> Option<Explanation>
    ensures { let words = verb.now ∷ map (λ w. w.now) rest.now in
        Finds result (λ asked. Matches (explanation_forms asked) words) }
{
    match verb {
        "log" => logged(rest),
        "why" => why(rest),
        "who" => who(rest),
        "show" => show(rest),
        _ => None,
    }
}
