//! A script over crews of one worker, beside the same script without workers. Each function does
//! nothing: its contract is the law.
ghost use Rattle.std.specs.Prelude.{◌≡◌, All, List, Option, ℕ};
ghost use Rattle.std.specs.Io.KnownBytes.{Appends};
ghost use Rattle.std.specs.Str.Lines.{lines};
ghost use Rattle.fl_calls.specs.Over.{openings_of};
ghost use Rattle.fl_crew_calls.specs.Calls.{crews_calls};
ghost use Rattle.fl_crew_calls.specs.Over.{CrewsOver, begun_crews};
ghost use Rattle.fl_crew_turns.specs.Script.{WritesBatches};
ghost use Rattle.fl_crew_turns.specs.Session.{CrewSession, begun_session};
ghost use Rattle.fl_turn_laws.specs.Certain.{IsSure};
ghost use Rattle.fl_one_worker_scripts.specs.Alike.{IsRunWithout, calls_well};
ghost use Rattle.fl_one_worker_scripts.specs.Shared.{IsShared};
ghost use Rattle.fl_one_worker_scripts.specs.Written.{AnswersAll, all_answers, all_status};
ghost use Rattle.fl_one_worker_scripts.specs.Written.{all_text};

use fl_makers::maker::MakesKeepers;
use fl_one_worker_calls::laws::law_one_worker_batch;
use fl_one_worker_laws::laws::law_one_worker;

/// What `fl_crews::run` writes of a script is the text of all that its lines are answered.
pub fn law_all_answers<M: MakesKeepers>()
    ensures { (start end : CrewSession (CrewsOver M.K M)) (old new : Option (List ℕ))
        (script : List ℕ) (status : ℕ) →
        WritesBatches (crews_calls M.K.custody M.making) start old new script status end →
        (all : AnswersAll (crews_calls M.K.custody M.making) start (lines script) end)
        × Appends old new (all_text all) × (status ≡ all_status all) }
{}

/// With one worker a script has the text and the status of the same script without workers: of
/// lines that are no steps of several and ask for no audit, where no memory is refused, no keeper
/// fails, and no crew stops.
pub fn law_one_worker_script<M: MakesKeepers>()
    ensures { (maker : M) (lines : List (List ℕ)) (end : CrewSession (CrewsOver M.K M))
        (all : AnswersAll (calls_well M.K.custody M.making)
        (begun_session (begun_crews maker 1)) lines end) → All IsShared lines →
        All IsSure (all_answers all) →
        IsRunWithout (openings_of M.K.custody M.making maker) lines (all_text all)
        (all_status all) end }
{
    law_one_worker::<M::K>();
    law_one_worker_batch::<M>();
}
