//! Laws of what passes through a buffer.
ghost use Rattle.std.specs.Prelude.{◌++◌, ℕ, List, Option};
ghost use Rattle.fl_sink.specs.Sink.{Passes, Cuts};

/// What passes on in two steps passes on in one. What is cut after some passed is cut.
pub fn law_chain()
    ensures passes { (first mid last : Option (List ℕ)) (pending text rest more after : List ℕ)
        → Passes first mid pending text rest → Passes mid last rest more after
        → Passes first last pending (text ++ more) after }
    ensures cuts { (first mid last : Option (List ℕ)) (pending text rest more : List ℕ)
        → Passes first mid pending text rest → Cuts mid last rest more
        → Cuts first last pending (text ++ more) }
{}
