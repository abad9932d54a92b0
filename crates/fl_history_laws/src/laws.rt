//! Laws of the processes of a world: of their pids; of who comes to live, and who goes; of what
//! they own, of their endpoints and labels, and of the messages that they send.
ghost use Rattle.std.specs.Prelude.{◌≡◌, ◌⊎◌, ℕ, List, Some};
ghost use Rattle.fl_labels.specs.declared.cap.Cap.{Cap};
ghost use Rattle.fl_labels.specs.declared.cap.Cap.TheVariants.{Minus, Plus};
ghost use Rattle.fl_labels.specs.declared.name.Name.{Name};
ghost use Rattle.fl_labels.specs.declared.pid.Pid.{Pid};
ghost use Rattle.fl_labels.specs.SetBy.{In};
ghost use Rattle.fl_message.specs.declared.message.Data.{Data};
ghost use Rattle.fl_wire.specs.declared.packet.Packet.TheVariants as packets;
ghost use Rattle.fl_jobs.specs.declared.answer.Reply.TheVariants.{Arrived};
ghost use Rattle.fl_jobs.specs.declared.job.Side.{Side};
ghost use Rattle.fl_bench.specs.declared.process.Process.{Process};
ghost use Rattle.fl_bench.specs.Process.{owns, side_of};
ghost use Rattle.fl_system.specs.declared.event.Event.{Event};
ghost use Rattle.fl_system.specs.declared.reply.Reply.{Reply};
ghost use Rattle.fl_system.specs.declared.reply.Reply.TheVariants.{Job as Answered};
ghost use Rattle.fl_system.specs.declared.sent.Sent.{Sent};
ghost use Rattle.fl_system.specs.Numbered.{item_at};
ghost use Rattle.fl_system.specs.Processes.{process_of};
ghost use Rattle.fl_system.specs.Runs.{IsReached, IsRun, Moment, Move, Moves, end};
ghost use Rattle.fl_system.specs.Taint.{Lives};
ghost use Rattle.fl_system.specs.World.{KeptNode, World, empty_world};
ghost use Rattle.fl_system.specs.WorldSteps.{IsAt, Step};
ghost use Rattle.fl_history_laws.specs.Endpoints.{Retunes};
ghost use Rattle.fl_history_laws.specs.Labels.{Lacks, Relabels, RunWhile};
ghost use Rattle.fl_history_laws.specs.Lives.{IsAbsent, IsBorn, Leaves};
ghost use Rattle.fl_history_laws.specs.Owned.{Gains, GivesUp, Owns, WasGiven};
ghost use Rattle.fl_history_laws.specs.Seats.{IsOfNode, WasGivenIn, made};
ghost use Rattle.fl_history_laws.specs.Sent.{Adds, Delivers, WasSent};

/// No pid is given twice, by any node of a world, in any boot: a process is made under a pid that
/// was not given before, which is given from then on, whatever happens, and so is never that of
/// another process that is made. A process of a node has the number of the node and its boot.
pub fn law_pids()
    ensures new { (w after : World) (event : Event) (pid : Pid) → IsReached w →
        Step w event (made pid) after → ¬ WasGivenIn w pid }
    ensures given { (w after : World) (event : Event) (pid : Pid) → IsReached w →
        Step w event (made pid) after → WasGivenIn after pid }
    ensures for_good { (w : World) (ms : List Moment) (pid : Pid) → IsReached w → IsRun w ms →
        WasGivenIn w pid → WasGivenIn (end w ms) pid }
    ensures once { (w after last : World) (event later : Event) (ms : List Moment) (pid : Pid) →
        IsReached w → Step w event (made pid) after → IsRun after ms →
        ¬ Step (end after ms) later (made pid) last }
    ensures there { (w : World) (number : ℕ) (s : KeptNode) (pid : Pid) (process : Process) →
        IsReached w → IsAt w number s → process_of s.node pid ≡ Some process →
        IsOfNode w number s pid }
{}

/// Who lives after a move and did not before was born: the move is a job at a desk of its node,
/// which bears it under the next serial of a bench, as a process with nothing, or as a child with
/// the labels of its parent and a part of what that had in effect. The answer is its pid, and
/// whoever is answered so lives from then on.
pub fn law_births()
    ensures born { (w after : World) (move : Move) (reply : Reply) (pid : Pid) (child : Process) →
        IsReached w → Moves w move reply after → IsAbsent w pid → Lives after pid child →
        IsBorn w move reply pid child }
    ensures lives { (w after : World) (move : Move) (pid : Pid) → IsReached w →
        Moves w move (made pid) after →
        IsAbsent w pid × ((child : Process) × Lives after pid child) }
{}

/// Who lived and does not after a move left by its own exit, or its node was restarted or opened
/// over another keeper; and after these it lives no more. Who is gone never comes back.
pub fn law_exits()
    ensures left { (w after : World) (move : Move) (reply : Reply) (pid : Pid)
        (process : Process) → IsReached w → Moves w move reply after → Lives w pid process →
        IsAbsent after pid → Leaves w move reply pid }
    ensures gone { (w after : World) (move : Move) (reply : Reply) (pid : Pid) → IsReached w →
        Moves w move reply after → Leaves w move reply pid → IsAbsent after pid }
    ensures for_good { (w : World) (ms later : List Moment) (pid : Pid) (process : Process) →
        IsReached w → Lives w pid process → IsRun w ms → IsAbsent (end w ms) pid →
        IsRun (end w ms) later → IsAbsent (end (end w ms) later) pid }
{}

/// What a process comes to own at a move, an operation of its own gives it that is published there,
/// or it is born with it, enters it by a secret, or gets it in a message. So whatever is owned at
/// the end of a run was given in one of these ways. A process that lives on loses only what it
/// drops.
pub fn law_owned()
    ensures gained { (w after : World) (move : Move) (reply : Reply) (pid : Pid) (cap : Cap) →
        IsReached w → Moves w move reply after → Owns after pid cap →
        Owns w pid cap ⊎ Gains w move reply pid cap }
    ensures lost { (w after : World) (move : Move) (reply : Reply) (pid : Pid) (cap : Cap)
        (process : Process) → IsReached w → Moves w move reply after → Owns w pid cap →
        Lives after pid process → ¬ In (owns process) cap → GivesUp w move reply pid cap }
    ensures given { (desks : ℕ) (ms : List Moment) (pid : Pid) (cap : Cap) →
        IsRun (empty_world desks) ms → Owns (end (empty_world desks) ms) pid cap →
        WasGiven (empty_world desks) ms pid cap }
{}

/// The open endpoints of a process change only where it opens one, tunes one or closes one.
pub fn law_endpoints()
    ensures { (w after : World) (move : Move) (reply : Reply) (pid : Pid) (old new : Process) →
        IsReached w → Moves w move reply after → Lives w pid old → Lives after pid new →
        Retunes w move reply pid old.mailbox.endpoints new.mailbox.endpoints }
{}

/// The labels of a process change only where it sets one, having in effect what that takes.
pub fn law_labels()
    ensures { (w after : World) (move : Move) (reply : Reply) (pid : Pid) (old new : Process) →
        IsReached w → Moves w move reply after → Lives w pid old → Lives after pid new →
        Relabels w move reply pid old new }
{}

/// What was sent stays as it was sent: a move only adds packets, behind those that were there, and
/// its reply says which. Each message was sent by a job of its sender, which lived at its node
/// then, had the endpoint open to write to, with the labels of the message, and had in effect what
/// it carries. A message arrives at a process only where a packet is delivered that was sent to it.
pub fn law_sent()
    ensures added { (w after : World) (move : Move) (reply : Reply) → IsReached w →
        Moves w move reply after → Adds w reply after }
    ensures sent { (desks k : ℕ) (ms : List Moment) (sent : Sent) (message : Data) →
        IsRun (empty_world desks) ms → item_at (end (empty_world desks) ms).packets k ≡ Some sent →
        sent.packet ≡ packets.Data message → WasSent (empty_world desks) ms k sent message }
    ensures delivered { (w after : World) (move : Move) (pid : Pid) → IsReached w →
        Moves w move (Answered (Arrived pid)) after → Delivers w move pid }
{}

/// As long as a process lives, a tag stays in its label where it never has the tag's minus in
/// effect, under what its node has published, and out of it where it never has the plus.
pub fn law_kept_tags()
    ensures kept { (w : World) (ms : List Moment) (pid : Pid) (side : Side) (tag : Name)
        (old new : Process) → IsReached w → RunWhile (Lacks pid (Minus tag)) w ms →
        Lives w pid old → In (side_of side old.labels) tag → Lives (end w ms) pid new →
        In (side_of side new.labels) tag }
    ensures kept_out { (w : World) (ms : List Moment) (pid : Pid) (side : Side) (tag : Name)
        (old new : Process) → IsReached w → RunWhile (Lacks pid (Plus tag)) w ms →
        Lives w pid old → ¬ In (side_of side old.labels) tag → Lives (end w ms) pid new →
        ¬ In (side_of side new.labels) tag }
{}
