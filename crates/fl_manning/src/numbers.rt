//! The numbers of the workers of a crew.
ghost use Rattle.std.specs.Prelude.{◌↔◌, IsTrue};
ghost use Rattle.fl_settling.specs.Numbers.{AreNumbered};

use fl_worker::worker::Worker;

/// Whether each worker has the number of its place, from 1 on. Takes as long as there are workers.
pub fn are_numbered(workers: &[Worker]) -> bool
    ensures { IsTrue result ↔ AreNumbered workers.now }
{
    for index in 0..workers.len() {
        if workers[index].number as usize != index + 1 {
            return false;
        }
    }
    true
}
