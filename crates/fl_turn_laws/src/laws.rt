//! Laws of scripts. A run is that of a script over the keepers of some maker, as
//! `fl_cluster::run::run` answers it: `Writes`, by which `run` says what it wrote, ends at the
//! session that `run` gives back.
ghost use Rattle.std.specs.Prelude.{◌≡◌, ◌≢◌, ◌++◌, ℕ, All, List, Option, None, Some, length, take};
ghost use Rattle.fl_aliases.specs.declared.target.Target.{Target};
ghost use Rattle.fl_calls.specs.Over.{openings_of};
ghost use Rattle.fl_script.specs.Reading.{IsReading};
ghost use Rattle.fl_script.specs.declared.line.Line.{Line};
ghost use Rattle.fl_script.specs.declared.reading.Reading.TheVariants.{Means};
ghost use Rattle.fl_nodes.specs.Goes.{AreHonest};
ghost use Rattle.fl_store.specs.Kept.{Kept};
ghost use Rattle.fl_stream.specs.Output.{Writes};
ghost use Rattle.fl_stream.specs.Turns.{LineOutput, Run as Lines};
ghost use Rattle.fl_system.specs.Runs.{IsReached};
ghost use Rattle.fl_turn_laws.specs.Beginning.{Begins};
ghost use Rattle.fl_turn_laws.specs.Certain.{IsSure, IsSureRun, OpenOneWay, Stores, given};
ghost use Rattle.fl_turn_laws.specs.InMemory.{in_memory, never_opened};
ghost use Rattle.fl_turn_laws.specs.TwoRuns.{FoundNext, HasAnswered, HasBack, IsKeptAtEnd};
ghost use Rattle.fl_turn_laws.specs.TwoRuns.{opened_next};
ghost use Rattle.fl_turns.specs.Answer.{Answer, starved_line};
ghost use Rattle.fl_turns.specs.Answered.{IsAnswered};
ghost use Rattle.fl_turns.specs.Lasting.{LastsFor};
ghost use Rattle.fl_turns.specs.Leading.{Leads};
ghost use Rattle.fl_turns.specs.Naming.{SetsAlias, made_by};
ghost use Rattle.fl_turns.specs.Over.{SessionOver, TurnsOver, begun_over};
ghost use Rattle.fl_turns.specs.Run.{Run};
ghost use Rattle.fl_turns.specs.Script.{IsOneRun, IsOneRunIfHonest};
ghost use Rattle.fl_turns.specs.Session.{Session, begun};
ghost use Rattle.fl_turns.specs.Turn.{Turn};
ghost use Rattle.fl_world.specs.Headline.{IsSafeWorld};
ghost use Rattle.fl_world.specs.Lasting.{IsLastingWorld};
ghost use Rattle.fl_world.specs.Reached.{InEach};

use fl_makers::maker::MakesKeepers;
use fl_makers::mem::MemMaker;
use fl_round_laws::laws::law_exchange;
use fl_wire::laws::law_one_packet;
use fl_world::laws::{law_headline, law_lasting};

/// Where all keepers are honest, the lines of a script were answered, in each world that its nodes
/// may be at the end, from the world without a node on, with what the keepers may hold that the
/// maker makes from the start.
///
/// `text` says so of what `fl_cluster::run::run` and `converse` write, and of the session that they
/// give back: its premise is what their clauses `ok`, `served` and `err` give (`Writes`), and its
/// conclusion their clauses `one_run` and `first_run`.
pub fn law_script<M: MakesKeepers>()
    ensures text { (maker : M) (lines : List (List ℕ)) (text : List ℕ) (status : ℕ)
        (end : SessionOver M.K M) →
        Writes (TurnsOver M.K.custody M.making)
        (begun_over maker) lines text status end →
        IsOneRunIfHonest M.K.custody M.making maker lines text status end }
    ensures answers { (maker : M) (lines : List (List ℕ)) (outputs : List LineOutput)
        (end : SessionOver M.K M) → Lines (TurnsOver M.K.custody M.making)
        1 (begun_over maker) lines outputs end →
        InEach M.K.custody end.cluster.world (λ w. IsAnswered
        (openings_of M.K.custody M.making maker)
        1 begun lines outputs (record { world = w; aliases = end.aliases })) }
{}

/// The answer to a line is a run of worlds, by events and joinings alone: so is that to all lines
/// of a script, and each law of worlds that a run leads to holds of scripts.
pub fn law_worlds<M: MakesKeepers>()
    ensures turn { (maker : M) (old new : Session) (line : List ℕ) (answer : Answer) →
        Turn (openings_of M.K.custody M.making maker)
        old line answer new → Leads old.world new.world }
    ensures script { (maker : M) (lines : List (List ℕ)) (answers : List Answer) (end : Session) →
        Run (openings_of M.K.custody M.making maker)
        begun lines answers end → IsReached end.world }
{}

/// The headline, and what lasts, of scripts: in each world that the nodes of a script may be after
/// any of its lines, names are unique, what is published is saved, each open endpoint and each
/// thing that was admitted is safe by all that is saved, whatever happens from then on, no yes is
/// withdrawn, what is published grows by the node's own publications alone, and a tag is confined.
/// All of this holds at each moment of a run of lines too, from the world without a node on: along
/// it a tag is confined by what the lines are answered, and endorsed, each capability in effect was
/// granted, an operation whose name a line was answered is shown and kept from then on, and nodes
/// publish the same behind lines by which they exchange (`along`).
///
/// The end is the session that `fl_cluster::run::run` gives back, of which `Writes` is what it
/// says.
pub fn law_script_safe<M: MakesKeepers>()
    ensures safe { (maker : M) (lines : List (List ℕ)) (text : List ℕ) (status : ℕ)
        (end : SessionOver M.K M) →
        Writes (TurnsOver M.K.custody M.making)
        (begun_over maker) lines text status end →
        InEach M.K.custody end.cluster.world IsSafeWorld }
    ensures lasting { (maker : M) (lines : List (List ℕ)) (text : List ℕ) (status : ℕ)
        (end : SessionOver M.K M) →
        Writes (TurnsOver M.K.custody M.making)
        (begun_over maker) lines text status end →
        InEach M.K.custody end.cluster.world IsLastingWorld }
    ensures along { (maker : M) (lines : List (List ℕ)) (answers : List Answer) (end : Session) →
        Run (openings_of M.K.custody M.making maker)
        begun lines answers end →
        LastsFor (openings_of M.K.custody M.making maker) lines answers end }
{
    law_headline();
    law_lasting();
    law_exchange();
}

/// A second script opens each node that the first one served over just what was kept of it at the
/// end, and each other node over what was found before: where the maker got the keepers back, as
/// `fl_cluster::session::Session::close` gives it (`left`), and makes no second keeper of a node
/// whose first is out. Of one that does, it may be over what that holds (`Making`'s `again`).
///
/// What is found so is kept in one of the worlds that the first run may have ended in, so each law
/// of scripts speaks of it: it has each operation whose name a line was answered (`kept`). The
/// premise on both ends is that of `law_script`: their keepers are honest.
pub fn law_two_runs<M: MakesKeepers>()
    ensures finds { (maker left : M) (lines : List (List ℕ)) (text : List ℕ) (status : ℕ)
        (end : SessionOver M.K M) →
        Writes (TurnsOver M.K.custody M.making)
        (begun_over maker) lines text status end →
        HasBack M.K.custody M.making end left →
        InEach M.K.custody end.cluster.world (λ w. (number : ℕ) (k : Kept) →
        M.making.finds left number k → FoundNext M.K.custody M.making end number k) }
    ensures second { (maker left : M) (lines others : List (List ℕ)) (text rest : List ℕ)
        (status worst : ℕ) (end last : SessionOver M.K M) →
        Writes (TurnsOver M.K.custody M.making)
        (begun_over maker) lines text status end →
        HasBack M.K.custody M.making end left →
        Writes (TurnsOver M.K.custody M.making)
        (begun_over left) others rest worst last →
        InEach M.K.custody end.cluster.world (λ _. InEach M.K.custody last.cluster.world (λ w.
        IsOneRun (opened_next M.K.custody M.making end left) others rest worst
        (record { world = w; aliases = last.aliases }))) }
    ensures kept { (maker : M) (lines : List (List ℕ)) (text : List ℕ) (status : ℕ)
        (end : SessionOver M.K M) →
        Writes (TurnsOver M.K.custody M.making)
        (begun_over maker) lines text status end →
        AreHonest M.K.custody end.cluster.world → (number : ℕ) (k : Kept)
        (it : IsKeptAtEnd M.K.custody end number k) →
        HasAnswered (openings_of M.K.custody M.making maker) lines text status
        (record { world = it.world; aliases = end.aliases }) number k }
{
    law_headline();
    law_lasting();
    law_exchange();
}

/// What the first lines are answered is a run of them alone; and, where nodes open one way and no
/// line is answered that memory was wanting or a keeper failed, the same whatever comes later.
pub fn law_first_lines<M: MakesKeepers>()
    ensures begins { (maker : M) (first later : List (List ℕ)) (outputs : List LineOutput)
        (end : SessionOver M.K M) → Lines (TurnsOver M.K.custody M.making)
        1 (begun_over maker) (first ++ later) outputs end →
        Begins (TurnsOver M.K.custody M.making)
        1 (begun_over maker) first later outputs end }
    ensures same { (maker : M) (first later other : List (List ℕ)) (a b : List Answer)
        (m n : Session) →
        OpenOneWay (openings_of M.K.custody M.making maker) →
        Run (openings_of M.K.custody M.making maker)
        begun (first ++ later) a m →
        Run (openings_of M.K.custody M.making maker)
        begun (first ++ other) b n → All IsSure a → All IsSure b →
        take (length first) a ≡ take (length first) b }
{
    law_one_packet();
}

/// Where the nodes of a script open one way, as those in memory do, and no line is answered that
/// memory was wanting or a keeper failed, a script has one run: the same answers, whatever else
/// they refuse, and the same nodes at the end.
pub fn law_output<M: MakesKeepers>()
    ensures { (maker : M) (lines : List (List ℕ)) (a b : List Answer) (m n : Session) →
        OpenOneWay (openings_of M.K.custody M.making maker) →
        Run (openings_of M.K.custody M.making maker)
        begun lines a m →
        Run (openings_of M.K.custody M.making maker)
        begun lines b n → All IsSure a → All IsSure b → (a ≡ b) × (m ≡ n) }
{
    law_one_packet();
}

/// So it is over given stores, as a directory and memory have them: where no line is answered that
/// memory was wanting or a keeper failed, what a script is answered, and the nodes that it leaves,
/// are a function of its lines and of what was kept of each node before.
///
/// The stores are what the first opening of each node found, whoever made its keeper. A refused
/// node that is named again is opened over what its opening left, with its boot raised, and is
/// refused again. Of runs in which it joins then nothing is said.
pub fn law_given_stores<M: MakesKeepers, N: MakesKeepers>()
    ensures answers { (stores : Stores) (maker : M) (other : N) (lines : List (List ℕ))
        (a b : List Answer) (m n : Session) →
        Run (given stores (openings_of M.K.custody M.making maker)) begun lines a m →
        Run (given stores (openings_of N.K.custody N.making other)) begun lines b n →
        All IsSure a → All IsSure b → (a ≡ b) × (m ≡ n) }
    ensures first { (stores : Stores) (maker : M) (other : N) (first later rest : List (List ℕ))
        (a b : List Answer) (m n : Session) →
        Run (given stores (openings_of M.K.custody M.making maker)) begun (first ++ later) a m →
        Run (given stores (openings_of N.K.custody N.making other)) begun (first ++ rest) b n →
        All IsSure a → All IsSure b → take (length first) a ≡ take (length first) b }
    ensures text { (stores : Stores) (maker : M) (other : N) (lines : List (List ℕ))
        (text rest : List ℕ) (status worst : ℕ) (m n : Session) →
        IsSureRun (given stores (openings_of M.K.custody M.making maker)) lines text status m →
        IsSureRun (given stores (openings_of N.K.custody N.making other)) lines rest worst n →
        (text ≡ rest) × (status ≡ worst) × (m ≡ n) }
{
    law_one_packet();
}

/// In memory nodes open one way; and each run there is one over stores in which nothing is kept
/// yet.
pub fn law_in_memory()
    ensures one { (lines : List (List ℕ)) (a b : List Answer) (m n : Session) →
        Run in_memory begun lines a m → Run in_memory begun lines b n → All IsSure a
        → All IsSure b →
        (a ≡ b) × (m ≡ n) }
    ensures stores { (lines : List (List ℕ)) (answers : List Answer) (end : Session) →
        Run in_memory begun lines answers end →
        Run (given never_opened in_memory) begun lines answers end }
{
    law_output::<MemMaker>();
}

/// An alias stands for what its line made: a line sets its own alias alone, and only where it made
/// something, in the place that the alias had, if it was set. Else a line leaves all aliases. Lines
/// that say the same where these aliases are set are answered alike, unless memory is wanted.
pub fn law_aliases<M: MakesKeepers>()
    ensures kept { (maker : M) (old new : Session) (line : List ℕ) (answer : Answer) →
        Turn (openings_of M.K.custody M.making maker)
        old line answer new → made_by answer ≡ None → new.aliases ≡ old.aliases }
    ensures unnamed { (maker : M) (old new : Session) (line : List ℕ) (said : Line)
        (answer : Answer) → IsReading old.aliases line (Means said None) →
        Turn (openings_of M.K.custody M.making maker)
        old line answer new → new.aliases ≡ old.aliases }
    ensures set { (maker : M) (old new : Session) (line : List ℕ) (said : Line) (alias : List ℕ)
        (answer : Answer) (target : Target) →
        IsReading old.aliases line (Means said (Some alias)) →
        Turn (openings_of M.K.custody M.making maker)
        old line answer new → made_by answer ≡ Some target →
        SetsAlias old.aliases alias target new.aliases }
    ensures alike { (maker : M) (old new : Session) (line other : List ℕ) (said : Line)
        (alias : Option (List ℕ)) (answer : Answer) →
        IsReading old.aliases line (Means said alias) →
        IsReading old.aliases other (Means said alias) → answer ≢ starved_line →
        Turn (openings_of M.K.custody M.making maker)
        old line answer new →
        Turn (openings_of M.K.custody M.making maker)
        old other answer new }
{}
