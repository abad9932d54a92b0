//! Crews of a script as nodes of a world. The function does nothing: its contract is the law.
ghost use Rattle.std.specs.Prelude.{◌≤◌, List, ℕ};
ghost use Rattle.fl_crew_calls.specs.Over.{CrewsOver, begun_crews};
ghost use Rattle.fl_crew_turns.specs.Session.{CrewSession, begun_session};
ghost use Rattle.fl_crew_world_laws.specs.Standing.{StandFor};
ghost use Rattle.fl_one_worker_scripts.specs.Alike.{calls_well};
ghost use Rattle.fl_one_worker_scripts.specs.Written.{AnswersAll};

use fl_crew_worlds::laws::law_crew_world;
use fl_makers::maker::MakesKeepers;
use fl_world::laws::{law_headline, law_lasting};

/// Crews of any number of workers that exchange packets are nodes of a world: after all lines of a
/// script over crews, where no crew stopped and each keeper may be trusted, they stand for the
/// nodes of a world to which a run leads. So what is true of every such world is true of crews:
/// names are unique, what was admitted is safe by all that is saved, arrivals too, and a tag is
/// confined.
///
/// That world has what the crews save, publish, have at their benches and sent. How the jobs of a
/// batch are answered along such a run is what `law_crew_world` says.
pub fn law_crew_script<M: MakesKeepers>()
    ensures { (maker : M) (workers : ℕ) (lines : List (List ℕ))
        (end : CrewSession (CrewsOver M.K M)) → 1 ≤ workers →
        AnswersAll (calls_well M.K.custody M.making)
        (begun_session (begun_crews maker workers)) lines end → StandFor end.crews workers }
{
    law_crew_world::<M::K>();
    law_headline();
    law_lasting();
}
