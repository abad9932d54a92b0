//! A law of scripts over crews.
ghost use Rattle.std.specs.Prelude.{◌≡◌, ◌+◌, ℕ, List};
ghost use Rattle.fl_crew_calls.specs.Calls.{crews_calls};
ghost use Rattle.fl_crew_calls.specs.Over.{CrewsOver};
ghost use Rattle.fl_crew_turns.specs.Answered.{CountsLoud, CrewRun, Written};
ghost use Rattle.fl_crew_turns.specs.Answered.{count_answers, count_held};
ghost use Rattle.fl_crew_turns.specs.Session.{CrewSession};

use fl_makers::maker::MakesKeepers;

/// Each line that is neither empty nor a comment has one answer, or waits for it: of lines that are
/// answered one after another so many are answered, and wait, as there are such lines and lines
/// that waited before.
pub fn law_one_answer<M: MakesKeepers>()
    ensures { (old new : CrewSession (CrewsOver M.K M)) (lines : List (List ℕ))
        (written : List Written) (loud : ℕ)
        → CrewRun (crews_calls M.K.custody M.making) old lines written new
        → CountsLoud lines loud
        → count_answers written + count_held new ≡ count_held old + loud }
{}
