//! Laws by which an event of a world has one outcome, where memory is there and no keeper fails:
//! these, the order of the events, and whether an opening that is refused as another node's raised
//! the boot, are all that a run may choose.
ghost use Rattle.std.specs.Prelude.{◌≡◌, ◌≢◌, ℕ, Bool, List};
ghost use Rattle.std.specs.List.{All};
ghost use Rattle.fl_store.specs.Kept.{Kept};
ghost use Rattle.fl_system.specs.declared.answer.Fault.TheVariants.{WrongNode};
ghost use Rattle.fl_system.specs.declared.event.Event.{Event};
ghost use Rattle.fl_system.specs.declared.event.Event.TheVariants.{Restart};
ghost use Rattle.fl_system.specs.declared.reply.Reply.{Reply};
ghost use Rattle.fl_system.specs.declared.reply.Reply.TheVariants.{Refused};
ghost use Rattle.fl_system.specs.Joins.{Joins, Reopening};
ghost use Rattle.fl_system.specs.Runs.{IsReached, Run};
ghost use Rattle.fl_system.specs.World.{World, empty_world};
ghost use Rattle.fl_system.specs.WorldSteps.{Step};
ghost use Rattle.fl_one_laws.specs.Ample.{AreSameButBoot, AreSettled, HasDesk, HaveOwn};
ghost use Rattle.fl_one_laws.specs.Ample.{IsAmple, IsAtDesk, IsSettled};

/// An event of a world has one answer, where memory is not wanted and no keeper fails, and leaves
/// one world. A restart that is refused as another node's may have raised the boot, and leaves the
/// same but for that. A job at a stopped node is for a desk that is there: of a desk that is not, a
/// stopped node may say that it is stopped, or that there is none. In each world that a run leads
/// to, each of so many desks as its nodes have is there.
pub fn law_one_step()
    ensures one { (w w1 w2 : World) (event : Event) (r1 r2 : Reply) → Step w event r1 w1 →
        Step w event r2 w2 → IsAmple r1 → IsAmple r2 → HasDesk w event →
        (r1 ≡ r2) × (IsSettled event r1 → w1 ≡ w2) }
    ensures boot { (w w1 w2 : World) (number : ℕ) (keeps : Bool) →
        Step w (Restart number keeps) (Refused WrongNode) w1 →
        Step w (Restart number keeps) (Refused WrongNode) w2 → AreSameButBoot w number w1 w2 }
    ensures desk { (w : World) (event : Event) → IsReached w → IsAtDesk w.desks event →
        HasDesk w event }
{}

/// A node that joins a world over what is kept gets one answer and leaves one world, where memory
/// is not wanted and no keeper fails.
pub fn law_one_joining()
    ensures { (w w1 w2 : World) (number : ℕ) (k : Kept) (r1 r2 : Reply) → Joins w number k r1 w1 →
        Joins w number k r2 w2 → IsAmple r1 → IsAmple r2 → (r1 ≡ r2) × (w1 ≡ w2) }
{}

/// So does a node that is opened again over what another keeper has kept; where it is refused as
/// another node's, that may have raised the boot, as at a restart.
pub fn law_one_reopening()
    ensures one { (w w1 w2 : World) (number : ℕ) (k : Kept) (r1 r2 : Reply) →
        Reopening w number k r1 w1 → Reopening w number k r2 w2 → IsAmple r1 → IsAmple r2 →
        (r1 ≡ r2) × (r1 ≢ Refused WrongNode → w1 ≡ w2) }
    ensures boot { (w w1 w2 : World) (number : ℕ) (k : Kept) →
        Reopening w number k (Refused WrongNode) w1 →
        Reopening w number k (Refused WrongNode) w2 → AreSameButBoot w number w1 w2 }
{}

/// What is kept of each node is its own in a world without a node, and stays so at each event and
/// each joining: no restart is then refused as another node's. It may be another's only where a
/// node was opened over another keeper.
pub fn law_own_keepers()
    ensures empty { (desks : ℕ) → HaveOwn (empty_world desks) }
    ensures step { (w w1 : World) (event : Event) (r : Reply) → HaveOwn w → Step w event r w1 →
        HaveOwn w1 × IsSettled event r }
    ensures joins { (w w1 : World) (number : ℕ) (k : Kept) (r : Reply) → HaveOwn w →
        Joins w number k r w1 → HaveOwn w1 }
    ensures run { (w w1 : World) (events : List Event) (rs : List Reply) → HaveOwn w →
        Run w events rs w1 → AreSettled events rs }
{}

/// Events at a world that a run led to, one after another, each job at one of its desks, have one
/// list of answers and leave one world, where memory is not wanted, no keeper fails, and no restart
/// is refused as another node's.
pub fn law_one_run()
    ensures { (w w1 w2 : World) (events : List Event) (rs1 rs2 : List Reply) → IsReached w →
        Run w events rs1 w1 → Run w events rs2 w2 → All IsAmple rs1 → All IsAmple rs2 →
        AreSettled events rs1 → All (IsAtDesk w.desks) events → (rs1 ≡ rs2) × (w1 ≡ w2) }
{}
